// What a call of the static library returns in one word, the unit that it is given, and what it writes of a file's head.
#![tactic(auto)]

ghost use Rattle.std.specs.Prelude.{◌≡◌, length};
ghost use Rattle.refusal.specs.Refusals.{code_of};
ghost use Rattle.sab_words.specs.Words.{packed, narrowed, head_of};
ghost use Rattle.sab_words.specs.Answers.{count_of};

use byte_slice::{put, put16, put32};
use refusal::{Refusal, code};
use vector::{Vector, put_vector};

// Number, place and count in one word.
pub fn pack(number: u8, place: u8, count: u16) -> u32
    ensures { result ≡ packed number place count }
{
    u32::from(number) + 256 * u32::from(place) + 65536 * u32::from(count)
}

// An answer in one word.
pub fn answer_word(answer: Result<(), Refusal>) -> u32
    ensures { result ≡ packed (code_of answer) 0 0 }
{
    pack(code(answer), 0, 0)
}

// An answer that counts something, in one word: the count is 0 where it is refused.
pub fn count_word(answer: Result<u16, Refusal>) -> u32
    ensures { result ≡ packed (code_of answer) 0 (count_of answer) }
{
    match answer {
        Ok(count) => pack(0, 0, count),
        Err(refusal) => pack(u8::from(refusal), 0, 0),
    }
}

// The same of an answer that counts blocks in a byte.
pub fn blocks_word(answer: Result<u8, Refusal>) -> u32
    ensures { result ≡ packed (code_of answer) 0 (count_of answer) }
{
    count_word(answer.map(u16::from))
}

// The own unit, which C gives in 32 bits, in a byte. Above 7 all are alike, and so is the byte.
pub fn narrow(unit: u32) -> u8
    ensures { result ≡ narrowed unit }
{
    if 7 < unit {
        return 255;
    }
    unit as u8
}

// What a file says of itself is written.
pub fn put_head(head: &mut [u8], archive: u32, unit: u8, records: u16, v: Vector)
    requires { length head.old ≡ 24 }
    ensures { head.new ≡ head_of archive unit records v.counts }
{
    let pair = [unit, 0];
    put32(head, 0, archive);
    put(head, 4, &pair);
    put16(head, 6, records);
    put_vector(head, 8, v);
}
