// Starting and acting, as the static library calls them: the unit a 32-bit number, the answer in one word. An index of no bytes is none.
#![tactic(auto)]

ghost use Rattle.std.specs.Prelude.{◌≡◌};
ghost use Rattle.index_model.specs.Kept.{start_kept, act_kept, act_kept_work};
ghost use Rattle.sab_words.specs.Called.{called_both};
ghost use Rattle.sab_index.specs.Told.{told_start, told_kept};

use sab_words::{answer_word, narrow};

// Starts a unit.
pub fn start(log: &mut [u8], base: &mut [u8], index: &mut [u8], archive: u32, unit: u32) -> u32
    ensures { called_both result log.new index.new base.new ≡ told_start (start_kept unit log.old base.old index.old) }
{
    answer_word(keep_start::start(log, base, index, archive, narrow(unit)))
}

// Makes a record of the own unit.
pub fn act(
    log: &mut [u8],
    base: &[u8],
    index: &mut [u8],
    archive: u32,
    unit: u32,
    wish: &[u8],
    work: &mut [u8],
) -> u32
    ensures { called_both result log.new index.new work.new ≡ told_kept (act_kept unit log.old base.now index.old wish.now work.old) (act_kept_work unit log.old base.now index.old wish.now work.old) }
{
    answer_word(keep_act::act(log, base, index, archive, narrow(unit), wish, work))
}
