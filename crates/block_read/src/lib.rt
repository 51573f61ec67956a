// The block of 512 bytes: its fields and its checks.
#![tactic(auto, using(crate::proofs::Checks::ways), unfolding(model::specs::Block::count_in, model::specs::Block::archive_in, model::specs::Block::sender_in, model::specs::Block::place_in, model::specs::Block::vector_in))]

ghost use Rattle.std.specs.Prelude.{◌≡◌, ◌≤◌, length, take};
ghost use Rattle.model.specs.Bytes.{same_bytes};
ghost use Rattle.model.specs.Block.{count_in, archive_in, sender_in, place_in, vector_in, sums_hold, header_holds, block_fault};
ghost use Rattle.run_model.specs.Runs.{block_fault_as};
ghost use Rattle.refusal.specs.Refusals.{code_of};

use block_sums::block_sums;
use byte_slice::{is_blank, le16, le32, same};
use refusal::Refusal;
use vector::{Vector, vector_at};

// These letters stand first.
pub fn has_letters(b: &[u8], letters: &[u8; 4]) -> bool
    requires { 4 ≤ length b.now }
    ensures { result ≡ same_bytes (take 4 b.now) letters.now }
{
    same(&b[0..4], letters)
}

// The stored sums are those of the words before them.
pub fn sums_hold(b: &[u8]) -> bool
    requires { length b.now ≡ 512 }
    ensures { result ≡ sums_hold b.now }
{
    let s = block_sums(b);
    le16(b, 508) == s.first && le16(b, 510) == s.second
}

// How many records the header counts.
pub fn count_in(b: &[u8]) -> u8
    requires { length b.now ≡ 512 }
    ensures { result ≡ count_in b.now }
{
    b[9]
}

// The sending unit.
pub fn sender_in(b: &[u8]) -> u8
    requires { length b.now ≡ 512 }
    ensures { result ≡ sender_in b.now }
{
    b[8]
}

// The archive number.
pub fn archive_in(b: &[u8]) -> u32
    requires { length b.now ≡ 512 }
    ensures { result ≡ archive_in b.now }
{
    le32(b, 4)
}

// The place in a file.
pub fn place_in(b: &[u8]) -> u16
    requires { length b.now ≡ 512 }
    ensures { result ≡ place_in b.now }
{
    le16(b, 10)
}

// The sender's vector.
pub fn vector_in(b: &[u8]) -> Vector
    requires { length b.now ≡ 512 }
    ensures { result.counts ≡ vector_in b.now }
{
    vector_at(b, 12)
}

// A unit of 0 to 7, a count of 0 to 6, and zeros in the unused record places.
pub fn header_holds(b: &[u8]) -> bool
    requires { length b.now ≡ 512 }
    ensures { result ≡ header_holds b.now }
{
    let unit = sender_in(b);
    let n = count_in(b);
    unit <= 7 && n <= 6 && is_blank(&b[28 + 80 * usize::from(n)..508])
}

// The first refusal that holds of a block with these letters.
pub fn block_fault_as(b: &[u8], letters: &[u8; 4]) -> Result<(), Refusal>
    requires { length b.now ≡ 512 }
    ensures { code_of result ≡ block_fault_as letters.now b.now }
{
    if !has_letters(b, letters) {
        return Err(Refusal::BadLetters);
    }
    if !sums_hold(b) {
        return Err(Refusal::BadSum);
    }
    if !header_holds(b) {
        return Err(Refusal::BadHeader);
    }
    Ok(())
}

// The same of a block with the letters SAB1.
pub fn block_fault(b: &[u8]) -> Result<(), Refusal>
    requires { length b.now ≡ 512 }
    ensures { code_of result ≡ block_fault b.now }
{
    block_fault_as(b, b"SAB1")
}
