// The tables of the records held behind a base vector, and the checks that go by them.
#![tactic(auto)]

ghost use Rattle.std.specs.Prelude.{◌≡◌, true, suc, ◌+◌, ◌<◌, eqb, length, get_or, set};
ghost use Rattle.model.specs.Record.{seen_vector, well_formed};
ghost use Rattle.model.specs.Log.{rank};
ghost use Rattle.refusal.specs.Refusals.{code_of};
ghost use Rattle.log_closure.specs.Tables.{places_size, seens_size, join_fault, fault_by, Placed, Spare, noted, admit_of};
ghost use Rattle.log_admit.specs.Known.{known_after};

use log_closure::{all_covered, is_closed, note};
use refusal::Refusal;
use vector::Vector;

// What is known of the records before: their counts, and the lowest rank that rises behind them.
#[derive(Clone, Copy)]
pub struct Before {
    pub held: Vector,
    pub floor: u32,
}

// The number n is the next behind the count c. A count can be 65,535, so they are compared in 32 bits.
fn is_next(n: u16, c: u16) -> bool
    ensures { result ≡ eqb n (suc c) }
{
    u32::from(n) == u32::from(c) + 1
}

// The first refusal of a well-formed record beside those held: it is not its unit's next or has seen more than is held, or its seen is not
// closed. Its seen is given.
pub fn join_fault(
    base: Vector,
    rec: &[u8],
    s: Vector,
    held: Vector,
    places: &[u16],
    seens: &[u16],
) -> Result<(), Refusal>
    requires { (length rec.now ≡ 80) × (well_formed rec.now ≡ true) × (s.counts ≡ seen_vector rec.now) × (length places.now ≡ places_size) × (length seens.now ≡ seens_size) × Placed base.counts held.counts places.now }
    ensures { code_of result ≡ join_fault base.counts held.counts places.now seens.now rec.now }
{
    let u = usize::from(record::unit_of(rec));
    if !is_next(record::number_of(rec), held.counts[u]) {
        return Err(Refusal::NotNext);
    }
    if !vector::covers(held, s) {
        return Err(Refusal::NotNext);
    }
    if all_covered(base, places, seens, s) {
        return Ok(());
    }
    if !is_closed(base, places, seens, s) {
        return Err(Refusal::NotClosed);
    }
    Ok(())
}

// The first refusal of a record behind others: it is malformed, its rank does not rise, or it does not join them. Its seen and its rank
// are given.
pub fn record_fault(
    base: Vector,
    rec: &[u8],
    s: Vector,
    k: u32,
    b: Before,
    places: &[u16],
    seens: &[u16],
) -> Result<(), Refusal>
    requires { (length rec.now ≡ 80) × (s.counts ≡ seen_vector rec.now) × (k ≡ rank rec.now) × (length places.now ≡ places_size) × (length seens.now ≡ seens_size) × Placed base.counts b.held.counts places.now }
    ensures { code_of result ≡ fault_by base.counts b.floor b.held.counts places.now seens.now rec.now }
{
    if !record::well_formed(rec) {
        return Err(Refusal::Malformed);
    }
    if k < b.floor {
        return Err(Refusal::BadFile);
    }
    join_fault(base, rec, s, b.held, places, seens)
}

// One record more of a unit, whose number n is above its count: so the count is below 65,535.
pub fn counted(held: Vector, u: usize, n: u16) -> Vector
    requires { (u < 8) × (get_or held.counts u 0 < n) }
    ensures { result.counts ≡ set held.counts u (get_or held.counts u 0 + 1) }
{
    vector::bump(held, u)
}

// A record behind others is refused with its first fault, or noted at the position p: what is then known.
pub fn admit(
    base: Vector,
    rec: &[u8],
    p: usize,
    b: Before,
    places: &mut [u16],
    seens: &mut [u16],
) -> Result<Before, Refusal>
    requires { (length rec.now ≡ 80) × (p < 518) × (length places.old ≡ places_size) × (length seens.old ≡ seens_size) × Placed base.counts b.held.counts places.old × Spare base.counts b.held.counts }
    ensures { noted (code_of result) (known_after b result).held.counts (known_after b result).floor places.new seens.new ≡ admit_of base.counts rec.now p b.held.counts b.floor places.old seens.old }
{
    let s = record::seen_vector(rec);
    let k = record::rank_of(rec);
    record_fault(base, rec, s, k, b, places, seens)?;
    let u = usize::from(record::unit_of(rec));
    let n = record::number_of(rec);
    let f = base.counts[u];
    let held = counted(b.held, u, n);
    note(u, n - f, p, s, places, seens);
    Ok(Before { held, floor: k + 1 })
}
