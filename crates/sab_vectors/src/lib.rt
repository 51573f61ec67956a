// The held vector and the comparison of two, as the static library calls them: vectors in 16 bytes, the answer in one word.
#![tactic(auto)]

ghost use Rattle.std.specs.Prelude.{◌≡◌, [], length};
ghost use Rattle.model.specs.Vector.{compared};
ghost use Rattle.held_vector.specs.Held.{held_of};
ghost use Rattle.sab_words.specs.Called.{called, told};
ghost use Rattle.vector_compare.specs.Standings.{number_of};
ghost use Rattle.sab_vectors.specs.Compared.{lacks_size, told_compared, compared_of};

use byte_slice::put32;
use refusal::Refusal;
use sab_words::{answer_word, count_word, pack};
use vector::vector_at;
use vector_compare::Comparison;

// The bytes lent for the two numbers of a comparison.
pub const LACKS_BYTES: usize = 8;

// Gives the held vector; the count is that of the records of the log.
pub fn vector(log: &[u8], base: &[u8], vector: &mut [u8]) -> u32
    ensures { called result log.now vector.new ≡ told (held_of log.now base.now vector.old) }
{
    count_word(held_vector::held_vector(log, base, vector))
}

// What a comparison says is told: the answer as the count, the two numbers one behind the other in the lent bytes.
fn tell(c: Comparison, lacks: &mut [u8]) -> u32
    requires { length lacks.old ≡ lacks_size }
    ensures { called result [] lacks.new ≡ told_compared (compared (number_of c.answer) c.first c.second) }
{
    put32(lacks, 0, c.first);
    put32(lacks, 4, c.second);
    pack(0, 0, u16::from(u8::from(c.answer)))
}

// Compares two vectors; the count is the answer. What each lacks is written into the 8 lent bytes.
pub fn compare(first: &[u8], second: &[u8], lacks: &mut [u8]) -> u32
    ensures { called result [] lacks.new ≡ compared_of first.now second.now lacks.old }
{
    if first.len() != 16 {
        return answer_word(Err(Refusal::BadBuffer));
    }
    if second.len() != 16 {
        return answer_word(Err(Refusal::BadBuffer));
    }
    if lacks.len() != LACKS_BYTES {
        return answer_word(Err(Refusal::BadBuffer));
    }
    let a = vector_at(first, 0);
    let b = vector_at(second, 0);
    let c = vector_compare::compare(a, b);
    tell(c, lacks)
}
