// Folding, as the static library calls it: the unit and the list 32-bit numbers, the answer in one word.
#![tactic(auto)]

ghost use Rattle.std.specs.Prelude.{◌≡◌};
ghost use Rattle.call_model.specs.Fold.{fold_of, fold_work};
ghost use Rattle.sab_words.specs.Called.{called_both, told_work};
ghost use Rattle.sab_fold.specs.Given.{list_given};

use sab_words::{count_word, narrow};

// The list, which C gives in 32 bits, in a byte. Above 255 it is no list of units, and becomes that of none.
fn list_given(list: u32) -> u8
    ensures { result ≡ list_given list }
{
    if 255 < list {
        return 0;
    }
    list as u8
}

// Folds by a list of units; the count is that of the records folded.
pub fn fold(
    log: &mut [u8],
    base: &mut [u8],
    archive: u32,
    unit: u32,
    list: u32,
    work: &mut [u8],
) -> u32
    ensures { called_both result log.new base.new work.new ≡ told_work (fold_of unit log.old base.old (list_given list) work.old) (fold_work unit log.old base.old (list_given list) work.old) }
{
    count_word(fold::fold(log, base, archive, narrow(unit), list_given(list), work))
}
