// One file out of two, as the static library calls it: the answer in one word, with the count of blocks or the file at fault.
#![tactic(auto)]

ghost use Rattle.std.specs.Prelude.{◌≡◌};
ghost use Rattle.model.specs.Merge.{merge_of};
ghost use Rattle.sab_words.specs.Called.{called};
ghost use Rattle.sab_merge.specs.Joined.{joined};

use merge::MergeFault;
use refusal::Refusal;
use sab_words::{answer_word, pack};

// Makes one file of two, by way of a lent log.
pub fn merge(first: &[u8], second: &[u8], log: &mut [u8], file: &mut [u8]) -> u32
    ensures { called result log.new file.new ≡ joined (merge_of first.now second.now log.old file.old) }
{
    match merge::merge(first, second, log, file) {
        Ok(blocks) => pack(0, 0, u16::from(blocks)),
        Err(MergeFault::Buffer) => answer_word(Err(Refusal::BadBuffer)),
        Err(MergeFault::First(fault)) => pack(u8::from(fault.refusal), fault.place, 1),
        Err(MergeFault::Second(fault)) => pack(u8::from(fault.refusal), fault.place, 2),
    }
}
