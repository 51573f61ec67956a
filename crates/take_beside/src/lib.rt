// A block given, and a record of it that is new, judged beside those held behind a base vector.
#![tactic(auto)]

ghost use Rattle.std.specs.Prelude.{◌≡◌, true, ◌+◌, ◌≤◌, ◌<◌, ◌↔◌, IsTrue, length};
ghost use Rattle.model.specs.Lengths.{record_size, block_size, log_size, log_places};
ghost use Rattle.model.specs.Numbers.{not_next};
ghost use Rattle.model.specs.Bytes.{same_bytes};
ghost use Rattle.model.specs.Record.{seen_vector, well_formed};
ghost use Rattle.model.specs.Block.{given_fault};
ghost use Rattle.log_closure.specs.Tables.{places_size, seens_size, Placed};
ghost use Rattle.refusal.specs.Refusals.{code_of};
ghost use Rattle.take_beside.specs.Judging.{Counted, held_at, step, new_by, new_step};
ghost use Rattle.take_beside.specs.Counts.{held_after, used_after};

use log_closure::note;
use model::{BLOCK_BYTES, LOG_PLACES};
use refusal::Refusal;
use vector::Vector;

// The counts of the records held, and how many they are.
#[derive(Clone, Copy, Drop)]
pub struct Counts {
    pub held: Vector,
    pub used: usize,
}

// The first of the refusals 2 to 6 that holds of a block given.
pub fn given_fault(archive: u32, b: &[u8]) -> Result<(), Refusal>
    ensures { code_of result ≡ given_fault archive b.now }
{
    if b.len() != BLOCK_BYTES {
        return Err(Refusal::BadLength);
    }
    block_read::block_fault(b)?;
    if block_read::archive_in(b) != archive {
        return Err(Refusal::OtherArchive);
    }
    Ok(())
}

// The record at a position has the bytes of rec.
pub fn same_held(rec: &[u8], p: usize, log: &[u8], b: &[u8]) -> bool
    requires { (p < 518) × (length log.now ≡ log_size) × (length b.now ≡ block_size) }
    ensures { result ≡ same_bytes (held_at log.now b.now p) rec.now }
{
    if p < 512 {
        let at = 80 * p;
        return byte_slice::same(&log[at..at + 80], rec);
    }
    let at = 28 + 80 * (p - 512);
    byte_slice::same(&b[at..at + 80], rec)
}

// A record that is not its unit's next, or has seen more than is held.
fn is_not_next(joins: Result<(), Refusal>) -> bool
    ensures { IsTrue result ↔ (code_of joins ≡ not_next) }
{
    joins == Err(Refusal::NotNext)
}

// The first of the refusals 8, 27, 9 and 11 that holds of a well-formed record whose identity is not held.
pub fn new_fault(
    base: Vector,
    rec: &[u8],
    s: Vector,
    held: Vector,
    used: usize,
    places: &[u16],
    seens: &[u16],
) -> Result<(), Refusal>
    requires { (length rec.now ≡ record_size) × (well_formed rec.now ≡ true) × (s.counts ≡ seen_vector rec.now) × (length places.now ≡ places_size) × (length seens.now ≡ seens_size) × Placed base.counts held.counts places.now }
    ensures { code_of result ≡ new_by base.counts held.counts used places.now seens.now rec.now }
{
    let joins = log_admit::join_fault(base, rec, s, held, places, seens);
    if is_not_next(joins) {
        return joins;
    }
    if !vector::covers(s, base) {
        return Err(Refusal::BelowBase);
    }
    joins?;
    if LOG_PLACES <= used {
        return Err(Refusal::FullLog);
    }
    Ok(())
}

// A well-formed record whose identity is not held is refused, or held at the position p.
pub fn take_new(
    base: Vector,
    rec: &[u8],
    p: usize,
    held: Vector,
    used: usize,
    places: &mut [u16],
    seens: &mut [u16],
) -> Result<Counts, Refusal>
    requires { (length rec.now ≡ record_size) × (well_formed rec.now ≡ true) × (p < 518) × (used ≤ log_places) × (length places.old ≡ places_size) × (length seens.old ≡ seens_size) × Placed base.counts held.counts places.old × Counted base.counts held.counts used }
    ensures { step (code_of result) (held_after held.counts result) (used_after used result) places.new seens.new ≡ new_step base.counts rec.now p held.counts used places.old seens.old }
{
    let s = record::seen_vector(rec);
    new_fault(base, rec, s, held, used, places, seens)?;
    let u = usize::from(record::unit_of(rec));
    let n = record::number_of(rec);
    let f = base.counts[u];
    let more = log_admit::counted(held, u, n);
    note(u, n - f, p, s, places, seens);
    Ok(Counts {
        held: more,
        used: used + 1,
    })
}
