// The line of a listing or of a plan that is a refusal: its number and its place. Each function answers the place behind what it wrote.
#![tactic(auto)]

ghost use Rattle.std.specs.Prelude.{◌+◌, ◌≤◌, length};
ghost use Rattle.model.specs.Listing.{refused_line};
ghost use Rattle.line_text.specs.Written.{Wrote};
ghost use Rattle.line_refusal.specs.Parts.{refused_place};

use line_text::{put_byte, put_number, put_small, put_word};

// A refusal from its place on.
fn refused_place(out: &mut [u8], at: usize, p: u16) -> usize
    requires { at + length (refused_place p) ≤ length out.old }
    ensures { Wrote out.old out.new at result (refused_place p) }
{
    let a = put_word(out, at, b" at ");
    let b = put_number(out, a, p);
    put_byte(out, b, b'\n')
}

// The number and the place of a refusal: that of a file's block fits a byte, that of a plan's does not.
pub fn refused_line(out: &mut [u8], at: usize, n: u8, p: u16) -> usize
    requires { at + length (refused_line n p) ≤ length out.old }
    ensures { Wrote out.old out.new at result (refused_line n p) }
{
    let a = put_word(out, at, b"refused ");
    let b = put_small(out, a, n);
    refused_place(out, b, p)
}
