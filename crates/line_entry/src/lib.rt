// The line of a listing that is an entry row of the tree table. Each function answers the place behind what it wrote.
#![tactic(auto)]

ghost use Rattle.std.specs.Prelude.{◌≡◌, ◌+◌, ◌≤◌, length};
ghost use Rattle.model.specs.Listing.{kind_text, mark_text, disputed_text, entry_line};
ghost use Rattle.line_text.specs.Written.{Wrote};
ghost use Rattle.line_entry.specs.Parts.{entry_mark, entry_date, entry_label, entry_folder};

use line_quote::{put_hex, put_label};
use line_text::{put_byte, put_date, put_identity, put_word};

// The kind of an entry row.
fn put_kind(out: &mut [u8], at: usize, k: u8) -> usize
    requires { at + length (kind_text k) ≤ length out.old }
    ensures { Wrote out.old out.new at result (kind_text k) }
{
    if k == 1 {
        return put_word(out, at, b"folder ");
    }
    put_word(out, at, b"trace ")
}

// Of a trace also the mark.
fn put_mark(out: &mut [u8], at: usize, k: u8, b: &[u8]) -> usize
    requires { at + length (mark_text k b.now) ≤ length out.old }
    ensures { Wrote out.old out.new at result (mark_text k b.now) }
{
    if k == 1 {
        return at;
    }
    let m = put_byte(out, at, b' ');
    put_hex(out, m, b)
}

// The word `disputed`, where it is so.
fn put_disputed(out: &mut [u8], at: usize, d: u8) -> usize
    requires { at + length (disputed_text d) ≤ length out.old }
    ensures { Wrote out.old out.new at result (disputed_text d) }
{
    if d == 1 {
        return put_word(out, at, b" disputed");
    }
    at
}

// An entry line from its mark on.
fn entry_mark(out: &mut [u8], at: usize, row: &[u8]) -> usize
    requires { (length row.now ≡ 72) × (at + length (entry_mark row.now) ≤ length out.old) }
    ensures { Wrote out.old out.new at result (entry_mark row.now) }
{
    let a = put_mark(out, at, row[0], &row[56..72]);
    let b = put_disputed(out, a, row[1]);
    put_byte(out, b, b'\n')
}

// An entry line from its date on.
fn entry_date(out: &mut [u8], at: usize, row: &[u8]) -> usize
    requires { (length row.now ≡ 72) × (at + length (entry_date row.now) ≤ length out.old) }
    ensures { Wrote out.old out.new at result (entry_date row.now) }
{
    let a = put_byte(out, at, b' ');
    let b = put_date(out, a, &row[20..24]);
    entry_mark(out, b, row)
}

// An entry line from its label on.
fn entry_label(out: &mut [u8], at: usize, row: &[u8]) -> usize
    requires { (length row.now ≡ 72) × (at + length (entry_label row.now) ≤ length out.old) }
    ensures { Wrote out.old out.new at result (entry_label row.now) }
{
    let a = put_byte(out, at, b' ');
    let b = put_label(out, a, &row[24..56]);
    entry_date(out, b, row)
}

// An entry line from its folder on.
fn entry_folder(out: &mut [u8], at: usize, row: &[u8]) -> usize
    requires { (length row.now ≡ 72) × (at + length (entry_folder row.now) ≤ length out.old) }
    ensures { Wrote out.old out.new at result (entry_folder row.now) }
{
    let a = put_word(out, at, b" in ");
    let b = put_identity(out, a, &row[8..12]);
    entry_label(out, b, row)
}

// The line of an entry row.
pub fn entry_line(out: &mut [u8], at: usize, row: &[u8]) -> usize
    requires { (length row.now ≡ 72) × (at + length (entry_line row.now) ≤ length out.old) }
    ensures { Wrote out.old out.new at result (entry_line row.now) }
{
    let a = put_kind(out, at, row[0]);
    let b = put_identity(out, a, &row[4..8]);
    entry_folder(out, b, row)
}
