// What is printed of a plan that is not refused: a line for each unit, one for each pair, the acts skipped. Each function answers the place
// behind what it wrote.
#![tactic(auto)]

ghost use Rattle.std.specs.Prelude.{◌≡◌, ◌∷◌, ◌+◌, ◌≤◌, ◌<◌, length};
ghost use Rattle.model.specs.Vector.{compare_of};
ghost use Rattle.model.specs.Listing.{seen_line};
ghost use Rattle.line_text.specs.Written.{Wrote};
ghost use Rattle.plan_model.specs.Plan.{round, true_vector, unit_line, pair_line, skipped_line, unit_lines, pairs_of, pair_lines, round_text};
ghost use Rattle.plan_units.specs.Units.{Units};
ghost use Rattle.plan_lines.specs.Parts.{pair_answer, pair_other, pairs_skipped};

use line_head::seen_line;
use line_text::{put_byte, put_number, put_small, put_word};
use plan_units::true_vector;
use vector::Vector;
use vector_compare::compare;

// ---- lines

// The line of a unit from its vector on.
fn unit_seen(out: &mut [u8], at: usize, v: Vector) -> usize
    requires { at + length (32 ∷ seen_line v.counts) ≤ length out.old }
    ensures { Wrote out.old out.new at result (32 ∷ seen_line v.counts) }
{
    let a = put_byte(out, at, b' ');
    seen_line(out, a, v)
}

// A unit and its vector.
fn unit_line(out: &mut [u8], at: usize, u: u8, v: Vector) -> usize
    requires { at + length (unit_line u v.counts) ≤ length out.old }
    ensures { Wrote out.old out.new at result (unit_line u v.counts) }
{
    let a = put_word(out, at, b"unit ");
    let b = put_small(out, a, u);
    unit_seen(out, b, v)
}

// The line of a pair from its answer on.
fn pair_answer(out: &mut [u8], at: usize, n: u8) -> usize
    requires { at + length (pair_answer n) ≤ length out.old }
    ensures { Wrote out.old out.new at result (pair_answer n) }
{
    let a = put_word(out, at, b" answer ");
    let b = put_small(out, a, n);
    put_byte(out, b, b'\n')
}

// The line of a pair from its second unit on.
fn pair_other(out: &mut [u8], at: usize, b: u8, n: u8) -> usize
    requires { at + length (pair_other b n) ≤ length out.old }
    ensures { Wrote out.old out.new at result (pair_other b n) }
{
    let c = put_byte(out, at, b' ');
    let d = put_small(out, c, b);
    pair_answer(out, d, n)
}

// A pair and its answer.
fn pair_line(out: &mut [u8], at: usize, a: u8, b: u8, n: u8) -> usize
    requires { at + length (pair_line a b n) ≤ length out.old }
    ensures { Wrote out.old out.new at result (pair_line a b n) }
{
    let c = put_word(out, at, b"pair ");
    let d = put_small(out, c, a);
    pair_other(out, d, b, n)
}

// How many acts were skipped.
fn skipped_line(out: &mut [u8], at: usize, n: u16) -> usize
    requires { at + length (skipped_line n) ≤ length out.old }
    ensures { Wrote out.old out.new at result (skipped_line n) }
{
    let a = put_word(out, at, b"skipped ");
    let b = put_number(out, a, n);
    put_byte(out, b, b'\n')
}

// ---- line behind line

// The lines of the first n units.
fn unit_lines(out: &mut [u8], at: usize, logs: &[u8], n: usize) -> usize
    requires { Units logs.now × (n ≤ 8) × (at + length (unit_lines logs.now n) ≤ length out.old) }
    ensures { Wrote out.old out.new at result (unit_lines logs.now n) }
{
    let mut m = at;
    for u in 0..n {
        m = unit_line(out, m, u as u8, true_vector(logs, u));
    }
    m
}

// How the vectors of two units compare.
fn pair_is(logs: &[u8], a: usize, b: usize) -> u8
    requires { Units logs.now × (a < 8) × (b < 8) }
    ensures { result ≡ compare_of (true_vector logs.now a) (true_vector logs.now b) }
{
    let v = true_vector(logs, a);
    let w = true_vector(logs, b);
    let c = compare(v, w);
    u8::from(c.answer)
}

// Unit a with the first n units above it.
fn pairs_of(out: &mut [u8], at: usize, logs: &[u8], a: usize, n: usize) -> usize
    requires { Units logs.now × (a + n < 8) × (at + length (pairs_of logs.now a n) ≤ length out.old) }
    ensures { Wrote out.old out.new at result (pairs_of logs.now a n) }
{
    let mut m = at;
    for i in 0..n {
        let b = a + (i + 1);
        m = pair_line(out, m, a as u8, b as u8, pair_is(logs, a, b));
    }
    m
}

// The pairs whose lower unit is one of the first n.
fn pair_lines(out: &mut [u8], at: usize, logs: &[u8], n: usize) -> usize
    requires { Units logs.now × (n ≤ 8) × (at + length (pair_lines logs.now n) ≤ length out.old) }
    ensures { Wrote out.old out.new at result (pair_lines logs.now n) }
{
    let mut m = at;
    for a in 0..n {
        m = pairs_of(out, m, logs, a, 7 - a);
    }
    m
}

// The pairs, then how many acts were skipped.
fn pairs_skipped(out: &mut [u8], at: usize, logs: &[u8], skipped: u16) -> usize
    requires { Units logs.now × (at + length (pairs_skipped logs.now skipped) ≤ length out.old) }
    ensures { Wrote out.old out.new at result (pairs_skipped logs.now skipped) }
{
    let m = pair_lines(out, at, logs, 8);
    skipped_line(out, m, skipped)
}

// All lines of a round.
pub fn round_text(out: &mut [u8], logs: &[u8], skipped: u16) -> usize
    requires { Units logs.now × (length (round_text (round logs.now 0 skipped)) ≤ length out.old) }
    ensures { Wrote out.old out.new 0 result (round_text (round logs.now 0 skipped)) }
{
    let m = unit_lines(out, 0, logs, 8);
    pairs_skipped(out, m, logs, skipped)
}
