// Trying a plan, as the static library calls it: the answer in one word, the length of the text in four bytes.
#![tactic(auto)]

ghost use Rattle.std.specs.Prelude.{◌≡◌, eqb};
ghost use Rattle.refusal.specs.Refusals.{fault_code, fault_place};
ghost use Rattle.sab_words.specs.Words.{packed};
ghost use Rattle.sab_plan.specs.Told.{plan_told, plan_told_of};

use byte_slice::put32;
use refusal::{Fault, Refusal};
use sab_words::{answer_word, pack};

// The word of a plan: its place stands where other calls have a count.
fn plan_word(judged: Result<(), Fault<u16>>) -> u32
    ensures { result ≡ packed (fault_code judged) 0 (fault_place judged) }
{
    match judged {
        Ok(_) => pack(0, 0, 0),
        Err(fault) => pack(u8::from(fault.refusal), 0, fault.place),
    }
}

// What is lent is not of its stated length.
fn not_lent(judged: Result<(), Fault<u16>>) -> bool
    ensures { result ≡ eqb (fault_code judged) 1 }
{
    match judged {
        Ok(_) => false,
        Err(fault) => match fault.refusal {
            Refusal::BadBuffer => true,
            _ => false,
        },
    }
}

// Tries a plan on eight lent logs, by way of a lent base and work memory, and writes what is printed of it into the text. The count is the
// place of a refused plan.
pub fn try_plan(
    plan: &[u8],
    logs: &mut [u8],
    base: &mut [u8],
    work: &mut [u8],
    text: &mut [u8],
    length: &mut [u8],
) -> u32
    ensures { plan_told result logs.new base.new work.new text.new length.new ≡ plan_told_of plan.now logs.old base.old work.old text.old length.old }
{
    if length.len() != 4 {
        return answer_word(Err(Refusal::BadBuffer));
    }
    let p = plan_try::try_plan(plan, logs, base, work, text);
    let word = plan_word(p.judged);
    if not_lent(p.judged) {
        return word;
    }
    put32(length, 0, u32::from(p.length));
    word
}
