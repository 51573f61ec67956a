// Handing out and taking a block, as the static library calls them: the unit a 32-bit number, the answer in one word.
#![tactic(auto)]

ghost use Rattle.std.specs.Prelude.{◌≡◌};
ghost use Rattle.index_model.specs.Kept.{take_kept, take_kept_work};
ghost use Rattle.sab_words.specs.Called.{called, called_both};
ghost use Rattle.sab_index.specs.Told.{told_kept};
ghost use Rattle.sab_block.specs.Handed.{handed_of};

use refusal::Refusal;
use sab_words::{answer_word, narrow};
use vector::vector_at;

// Hands out a block of what the asked vector lacks.
pub fn hand_out(
    log: &[u8],
    base: &[u8],
    archive: u32,
    unit: u32,
    asked: &[u8],
    block: &mut [u8],
) -> u32
    ensures { called result log.now block.new ≡ handed_of archive unit log.now base.now asked.now block.old }
{
    if asked.len() != 16 {
        return answer_word(Err(Refusal::BadBuffer));
    }
    let v = vector_at(asked, 0);
    answer_word(hand_out::hand_out(log, base, archive, narrow(unit), v, block))
}

// Takes a block, wholly or not at all.
pub fn take(
    log: &mut [u8],
    base: &[u8],
    index: &mut [u8],
    archive: u32,
    unit: u32,
    block: &[u8],
    work: &mut [u8],
) -> u32
    ensures { called_both result log.new index.new work.new ≡ told_kept (take_kept archive unit log.old base.now index.old block.now work.old) (take_kept_work archive unit log.old base.now index.old block.now work.old) }
{
    answer_word(keep_take::take(log, base, index, work, archive, narrow(unit), block))
}
