// The first two lines of a listing: archive, unit and record count; the vector. Each function answers the place behind what it wrote.
#![tactic(auto)]

ghost use Rattle.std.specs.Prelude.{◌+◌, ◌≤◌, [], ◌∷◌, length};
ghost use Rattle.model.specs.Listing.{head_line, counts_text, seen_line};
ghost use Rattle.line_text.specs.Written.{Wrote};
ghost use Rattle.line_head.specs.Parts.{head_records, head_unit};

use line_text::{put_byte, put_decimal, put_number, put_small, put_word};
use vector::Vector;

// The head line from its record count on.
fn head_records(out: &mut [u8], at: usize, n: u16) -> usize
    requires { at + length (head_records n) ≤ length out.old }
    ensures { Wrote out.old out.new at result (head_records n) }
{
    let a = put_word(out, at, b" records ");
    let b = put_number(out, a, n);
    put_byte(out, b, b'\n')
}

// The head line from its unit on.
fn head_unit(out: &mut [u8], at: usize, u: u8, n: u16) -> usize
    requires { at + length (head_unit u n) ≤ length out.old }
    ensures { Wrote out.old out.new at result (head_unit u n) }
{
    let a = put_word(out, at, b" unit ");
    let b = put_small(out, a, u);
    head_records(out, b, n)
}

// Archive, unit and record count.
pub fn head_line(out: &mut [u8], at: usize, archive: u32, u: u8, n: u16) -> usize
    requires { at + length (head_line archive u n) ≤ length out.old }
    ensures { Wrote out.old out.new at result (head_line archive u n) }
{
    let a = put_word(out, at, b"archive ");
    let b = put_decimal(out, a, archive);
    head_unit(out, b, u, n)
}

// One count of a vector.
fn put_count(out: &mut [u8], at: usize, c: u16) -> usize
    requires { at + length (counts_text (c ∷ [])) ≤ length out.old }
    ensures { Wrote out.old out.new at result (counts_text (c ∷ [])) }
{
    let a = put_byte(out, at, b' ');
    put_number(out, a, c)
}

// The counts of a vector.
fn put_counts(out: &mut [u8], at: usize, v: Vector) -> usize
    requires { at + length (counts_text v.counts) ≤ length out.old }
    ensures { Wrote out.old out.new at result (counts_text v.counts) }
{
    let mut m = at;
    for &count in &v.counts {
        m = put_count(out, m, count);
    }
    m
}

// The vector.
pub fn seen_line(out: &mut [u8], at: usize, v: Vector) -> usize
    requires { at + length (seen_line v.counts) ≤ length out.old }
    ensures { Wrote out.old out.new at result (seen_line v.counts) }
{
    let a = put_word(out, at, b"seen");
    let b = put_counts(out, a, v);
    put_byte(out, b, b'\n')
}
