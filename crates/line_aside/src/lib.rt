// The line of a listing that is an aside row of the tree table. Each function answers the place behind what it wrote.
#![tactic(auto)]

ghost use Rattle.std.specs.Prelude.{◌≡◌, ◌+◌, ◌≤◌, length};
ghost use Rattle.model.specs.Listing.{marked_text, state_text, aside_line};
ghost use Rattle.line_text.specs.Written.{Wrote};
ghost use Rattle.line_aside.specs.Parts.{aside_marks, aside_reason};

use line_text::{put_byte, put_identity, put_small, put_word};

// The marked entry, or `-` where nothing is marked.
fn put_marked(out: &mut [u8], at: usize, b: &[u8]) -> usize
    requires { (length b.now ≡ 4) × (at + length (marked_text b.now) ≤ length out.old) }
    ensures { Wrote out.old out.new at result (marked_text b.now) }
{
    if byte_slice::is_blank(b) {
        return put_byte(out, at, b'-');
    }
    put_identity(out, at, b)
}

// Open or settled.
fn put_state(out: &mut [u8], at: usize, s: u8) -> usize
    requires { at + length (state_text s) ≤ length out.old }
    ensures { Wrote out.old out.new at result (state_text s) }
{
    if s == 1 {
        return put_word(out, at, b" open");
    }
    put_word(out, at, b" settled")
}

// An aside line from its marked entry on.
fn aside_marks(out: &mut [u8], at: usize, row: &[u8]) -> usize
    requires { (length row.now ≡ 12) × (at + length (aside_marks row.now) ≤ length out.old) }
    ensures { Wrote out.old out.new at result (aside_marks row.now) }
{
    let a = put_word(out, at, b" marks ");
    let b = put_marked(out, a, &row[8..12]);
    let c = put_state(out, b, row[5]);
    put_byte(out, c, b'\n')
}

// An aside line from its reason on.
fn aside_reason(out: &mut [u8], at: usize, row: &[u8]) -> usize
    requires { (length row.now ≡ 12) × (at + length (aside_reason row.now) ≤ length out.old) }
    ensures { Wrote out.old out.new at result (aside_reason row.now) }
{
    let a = put_word(out, at, b" reason ");
    let b = put_small(out, a, row[4]);
    aside_marks(out, b, row)
}

// The line of an aside row.
pub fn aside_line(out: &mut [u8], at: usize, row: &[u8]) -> usize
    requires { (length row.now ≡ 12) × (at + length (aside_line row.now) ≤ length out.old) }
    ensures { Wrote out.old out.new at result (aside_line row.now) }
{
    let a = put_word(out, at, b"aside ");
    let b = put_identity(out, a, &row[0..4]);
    aside_reason(out, b, row)
}
