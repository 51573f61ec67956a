// Listing a file, as the static library calls it: the answer in one word, the length of the text in four bytes.
#![tactic(auto)]

ghost use Rattle.std.specs.Prelude.{◌≡◌, eqb};
ghost use Rattle.sab2_check.specs.Told.{file_code, file_place};
ghost use Rattle.sab_words.specs.Words.{packed};
ghost use Rattle.sab_listing.specs.Printed.{printed, printed_of};

use byte_slice::put32;
use refusal::Refusal;
use sab_words::{answer_word, pack};
use sab2_check::FileFault;

// The word of a judged file.
fn file_word(judged: Result<(), FileFault>) -> u32
    ensures { result ≡ packed (file_code judged) (file_place judged) 0 }
{
    match judged {
        Ok(_) => pack(0, 0, 0),
        Err(fault) => pack(fault.number(), fault.place(), 0),
    }
}

// What is lent is not of its stated length.
fn not_lent(judged: Result<(), FileFault>) -> bool
    ensures { result ≡ eqb (file_code judged) 1 }
{
    match judged {
        Ok(_) => false,
        Err(fault) => match fault {
            FileFault::Base => false,
            FileFault::Block(inner) => match inner.refusal {
                Refusal::BadBuffer => true,
                _ => false,
            },
        },
    }
}

// Lists a file of either form as text, by way of a lent log, base and tree table.
pub fn listing(
    file: &[u8],
    log: &mut [u8],
    base: &mut [u8],
    tree: &mut [u8],
    out: &mut [u8],
    length: &mut [u8],
) -> u32
    ensures { printed result log.new base.new tree.new out.new length.new ≡ printed_of file.now log.old base.old tree.old out.old length.old }
{
    if length.len() != 4 {
        return answer_word(Err(Refusal::BadBuffer));
    }
    let l = listing::listing(file, log, base, tree, out);
    let word = file_word(l.judged);
    if not_lent(l.judged) {
        return word;
    }
    put32(length, 0, l.length);
    word
}
