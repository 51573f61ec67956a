// The records of a block judged one after another beside those held behind a base vector. Nothing is written but the tables.
#![tactic(auto)]

ghost use Rattle.std.specs.Prelude.{◌≡◌, true, ◌+◌, ◌≤◌, ◌<◌, length, get_or};
ghost use Rattle.model.specs.Lengths.{record_size, block_size, log_size, log_places};
ghost use Rattle.model.specs.Record.{unit, num, well_formed};
ghost use Rattle.model.specs.Log.{records_of};
ghost use Rattle.model.specs.Block.{count_in};
ghost use Rattle.log_closure.specs.Tables.{places_size, seens_size, Placed, Indexed};
ghost use Rattle.log_check.specs.declared.Layout.TheVariants.{Log};
ghost use Rattle.log_check.specs.Places.{laid_at};
ghost use Rattle.refusal.specs.Refusals.{code_of};
ghost use Rattle.take_beside.specs.Judging.{Counted, held_at, step, held_by, take_by, judgement, judge_of, JudgeGives};
ghost use Rattle.take_beside.specs.Counts.{held_after, used_after};

use base_head::is_listed;
use log_closure::position;
use refusal::Refusal;
use take_beside::{Counts, same_held, take_new};
use vector::Vector;

// Refused with 10: a well-formed record whose identity is held with other bytes. One that the base vector counts is passed over.
fn held_fault(
    base: Vector,
    rec: &[u8],
    held: Vector,
    log: &[u8],
    b: &[u8],
    places: &[u16],
) -> Result<(), Refusal>
    requires { (length rec.now ≡ record_size) × (well_formed rec.now ≡ true) × (num rec.now ≤ get_or held.counts (unit rec.now) 0) × (length log.now ≡ log_size) × (length b.now ≡ block_size) × (length places.now ≡ places_size) × Placed base.counts held.counts places.now }
    ensures { code_of result ≡ held_by base.counts (held_at log.now b.now) places.now rec.now }
{
    let u = usize::from(record::unit_of(rec));
    let c = record::number_of(rec);
    let f = base.counts[u];
    if c <= f {
        return Ok(());
    }
    let q = position(places, u, c - f);
    if !same_held(rec, q, log, b) {
        return Err(Refusal::OtherBytes);
    }
    Ok(())
}

// One record of a block: 7, 26, then 10 if its identity is held, else 8, 27, 9, 11. One that the base vector counts is passed over; a new
// one is held at the position p.
pub fn take_record(
    list: u8,
    base: Vector,
    rec: &[u8],
    p: usize,
    held: Vector,
    used: usize,
    log: &[u8],
    b: &[u8],
    places: &mut [u16],
    seens: &mut [u16],
) -> Result<Counts, Refusal>
    requires { (length rec.now ≡ record_size) × (p < 518) × (used ≤ log_places) × (length log.now ≡ log_size) × (length b.now ≡ block_size) × (length places.old ≡ places_size) × (length seens.old ≡ seens_size) × Placed base.counts held.counts places.old × Counted base.counts held.counts used }
    ensures { step (code_of result) (held_after held.counts result) (used_after used result) places.new seens.new ≡ take_by list base.counts (held_at log.now b.now) rec.now p held.counts used places.old seens.old }
{
    if !record::well_formed(rec) {
        return Err(Refusal::Malformed);
    }
    let u = usize::from(record::unit_of(rec));
    if !is_listed(list, u) {
        return Err(Refusal::Unlisted);
    }
    let c = record::number_of(rec);
    if held.counts[u] < c {
        return take_new(base, rec, p, held, used, places, seens);
    }
    held_fault(base, rec, held, log, b, places)?;
    Ok(Counts { held, used })
}

// The n records of a block, one after another, up to the first that is refused. Earlier ones count as held.
pub fn judge_block(
    list: u8,
    base: Vector,
    b: &[u8],
    n: usize,
    log: &[u8],
    v: Vector,
    m: usize,
    places: &mut [u16],
    seens: &mut [u16],
) -> Result<(), Refusal>
    requires { (length b.now ≡ block_size) × (n ≡ count_in b.now) × (n ≤ 6) × (length log.now ≡ log_size) × (m ≡ length (records_of log.now)) × (length places.old ≡ places_size) × (length seens.old ≡ seens_size) × Indexed base.counts (laid_at Log log.now) m (records_of log.now) v.counts places.old seens.old }
    ensures outright { judgement (code_of result) places.new seens.new ≡ judge_of list base.counts log.now b.now n v.counts m places.old seens.old }
    ensures gives { JudgeGives list base.counts (records_of log.now) b.now n (code_of result) }
{
    let mut held = v;
    let mut used = m;
    for j in 0..n {
        let at = 28 + 80 * j;
        let counts = take_record(
            list,
            base,
            &b[at..at + 80],
            512 + j,
            held,
            used,
            log,
            b,
            places,
            seens,
        )?;
        held = counts.held;
        used = counts.used;
    }
    Ok(())
}
