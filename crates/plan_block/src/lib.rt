// A plan's block and its events, judged: letters, sums, header, archive, events; and the length of what is no block or one too many.
#![tactic(auto)]

ghost use Rattle.std.specs.Prelude.{◌≡◌, ◌≤◌, length};
ghost use Rattle.model.specs.Lengths.{block_size};
ghost use Rattle.model.specs.Block.{count_in};
ghost use Rattle.refusal.specs.Refusals.{code_of};
ghost use Rattle.plan_model.specs.Plan.{act_holds, pass_holds, event_holds, events_hold, plan_header_holds, plan_body_fault, plan_block_fault, piece_fault};

use block_read::{archive_in, count_in, has_letters, sender_in, sums_hold};
use byte_slice::is_blank;
use model::BLOCK_BYTES;
use plan_model::{EVENT_BYTES, PLAN_BLOCKS};
use refusal::Refusal;

// ---- an event

// An act's event: a unit of 0 to 7, the two bytes behind it zero, a record of that unit with number and seen zero.
fn act_holds(e: &[u8]) -> bool
    requires { length e.now ≡ 84 }
    ensures { result ≡ act_holds e.now }
{
    let u = e[1];
    if 7 < u {
        return false;
    }
    if !is_blank(&e[2..4]) {
        return false;
    }
    if e[4] != u {
        return false;
    }
    is_blank(&e[6..24])
}

// A pass's event: two units of 0 to 7, and zeros behind them.
fn pass_holds(e: &[u8]) -> bool
    requires { length e.now ≡ 84 }
    ensures { result ≡ pass_holds e.now }
{
    let u = e[1];
    let v = e[2];
    if 7 < u {
        return false;
    }
    if 7 < v {
        return false;
    }
    if u == v {
        return false;
    }
    is_blank(&e[3..84])
}

// An event is one: kind 1 or 2, and what that kind asks.
pub fn event_holds(e: &[u8]) -> bool
    requires { length e.now ≡ 84 }
    ensures { result ≡ event_holds e.now }
{
    let kind = e[0];
    if kind == 1 {
        return act_holds(e);
    }
    if kind != 2 {
        return false;
    }
    pass_holds(e)
}

// The first n events of a block are.
fn events_hold(b: &[u8], n: usize) -> bool
    requires { (length b.now ≡ block_size) × (n ≤ 5) }
    ensures { result ≡ events_hold b.now 0 n }
{
    for i in 0..n {
        let at = 28 + 84 * i;
        if !event_holds(&b[at..at + EVENT_BYTES]) {
            return false;
        }
    }
    true
}

// ---- a block

// At most five events; unit, place and vector zero, and zeros behind the events.
fn header_holds(b: &[u8]) -> bool
    requires { length b.now ≡ block_size }
    ensures { result ≡ plan_header_holds b.now }
{
    let n = usize::from(count_in(b));
    if 5 < n {
        return false;
    }
    if sender_in(b) != 0 {
        return false;
    }
    if !is_blank(&b[10..28]) {
        return false;
    }
    let at = 28 + 84 * n;
    is_blank(&b[at..508])
}

// The first of header, archive and events that is refused; the archive is the first block's.
fn body_fault(archive: u32, b: &[u8]) -> Result<(), Refusal>
    requires { length b.now ≡ block_size }
    ensures { code_of result ≡ plan_body_fault archive b.now }
{
    if !header_holds(b) {
        return Err(Refusal::BadHeader);
    }
    if archive_in(b) != archive {
        return Err(Refusal::OtherArchive);
    }
    let n = usize::from(count_in(b));
    if !events_hold(b, n) {
        return Err(Refusal::NotAnEvent);
    }
    Ok(())
}

// The same, and before them letters and sums.
pub fn block_fault(archive: u32, b: &[u8]) -> Result<(), Refusal>
    requires { length b.now ≡ block_size }
    ensures { code_of result ≡ plan_block_fault archive b.now }
{
    if !has_letters(b, b"PLN1") {
        return Err(Refusal::BadLetters);
    }
    if !sums_hold(b) {
        return Err(Refusal::BadSum);
    }
    body_fault(archive, b)
}

// The k-th block of a plan, counted from 0: of a bad length if it is a part of one, or one too many; else what holds of the block.
pub fn piece_fault(archive: u32, k: usize, b: &[u8]) -> Result<(), Refusal>
    ensures { code_of result ≡ piece_fault archive k b.now }
{
    if PLAN_BLOCKS <= k {
        return Err(Refusal::BadLength);
    }
    if b.len() != BLOCK_BYTES {
        return Err(Refusal::BadLength);
    }
    block_fault(archive, b)
}
