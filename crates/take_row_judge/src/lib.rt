// The blocks of a row judged one after another. Each new record is laid behind those held, in lent work memory, so that the tables keep its
// place; the log is not touched. The lent base only says what list and base vector stand for.
#![tactic(auto)]

ghost use Rattle.std.specs.Prelude.{◌≡◌, true, ◌+◌, ◌≤◌, ◌<◌, length, get_or};
ghost use Rattle.model.specs.Lengths.{record_size, block_size, log_size, file_size, log_places};
ghost use Rattle.model.specs.Bytes.{same_bytes};
ghost use Rattle.model.specs.Record.{unit, num, well_formed};
ghost use Rattle.model.specs.Log.{records_of, sound_log_on};
ghost use Rattle.model.specs.Block.{count_in};
ghost use Rattle.model.specs.File.{blocks_in};
ghost use Rattle.refusal.specs.Refusals.{code_of};
ghost use Rattle.log_closure.specs.Tables.{Placed};
ghost use Rattle.log_check.specs.declared.Layout.TheVariants.{Log};
ghost use Rattle.log_check.specs.Places.{laid_at};
ghost use Rattle.take_beside.specs.Judging.{Counted, step, held_by, take_by};
ghost use Rattle.take_beside.specs.Counts.{held_after, used_after};
ghost use Rattle.take_row_store.specs.Grown.{work_size};
ghost use Rattle.take_row_judge.specs.Kept.{Footing, Kept, JudgedInto, JudgedOne, JudgedRow};
ghost use Rattle.take_row_judge.specs.Stopped.{stop_code};

use base_head::is_listed;
use byte_slice::put;
use log_closure::Tables;
use model::BLOCK_BYTES;
use refusal::Refusal;
use take_beside::{Counts, take_new};
use vector::Vector;

// What judging a row gives: the counts of the records held then and how many they are, how many blocks pass, and what stops the row.
#[derive(Clone, Copy, Drop)]
pub struct RowJudged {
    pub held: Vector,
    pub used: usize,
    pub taken: u8,
    pub stopped: Option<Refusal>,
}

// The record at a place has the bytes of rec.
fn same_at(rec: &[u8], q: usize, work: &[u8]) -> bool
    requires { (q < 518) × (length work.now ≡ work_size) }
    ensures { result ≡ same_bytes (laid_at Log work.now q) rec.now }
{
    let at = 80 * q;
    byte_slice::same(&work[at..at + 80], rec)
}

// Refused with 10: a well-formed record whose identity is held with other bytes. One that the base vector counts is passed over.
fn held_fault(
    folded: Vector,
    rec: &[u8],
    held: Vector,
    work: &[u8],
    tables: &Tables,
) -> Result<(), Refusal>
    requires { (length rec.now ≡ record_size) × (well_formed rec.now ≡ true) × (num rec.now ≤ get_or held.counts (unit rec.now) 0) × (length work.now ≡ work_size) × Placed folded.counts held.counts tables.now.places }
    ensures { code_of result ≡ held_by folded.counts (laid_at Log work.now) tables.now.places rec.now }
{
    let u = usize::from(record::unit_of(rec));
    let c = record::number_of(rec);
    let f = folded.counts[u];
    if c <= f {
        return Ok(());
    }
    let q = tables.position(u, c - f);
    if !same_at(rec, q, work) {
        return Err(Refusal::OtherBytes);
    }
    Ok(())
}

// One record of a block, which stands at the place used: 7, 26, then 10 if its identity is held, else 8, 27, 9, 11. One that the base vector
// counts is passed over.
fn take_at(
    list: u8,
    folded: Vector,
    rec: &[u8],
    held: Vector,
    used: usize,
    work: &[u8],
    tables: &mut Tables,
) -> Result<Counts, Refusal>
    requires { (length rec.now ≡ record_size) × (used ≤ log_places) × (length work.now ≡ work_size) × Placed folded.counts held.counts tables.old.places × Counted folded.counts held.counts used }
    ensures { step (code_of result) (held_after held.counts result) (used_after used result) tables.new.places tables.new.seens ≡ take_by list folded.counts (laid_at Log work.now) rec.now used held.counts used tables.old.places tables.old.seens }
{
    if !record::well_formed(rec) {
        return Err(Refusal::Malformed);
    }
    let u = usize::from(record::unit_of(rec));
    if !is_listed(list, u) {
        return Err(Refusal::Unlisted);
    }
    let c = record::number_of(rec);
    if held.counts[u] < c {
        return take_new(
            folded,
            rec,
            used,
            held,
            used,
            &mut tables.places,
            &mut tables.seens,
        );
    }
    held_fault(folded, rec, held, work, tables)?;
    Ok(Counts { held, used })
}

// The n records of a block, one after another, up to the first that is refused. Each new one is laid behind those held.
fn judge_into(
    list: u8,
    folded: Vector,
    b: &[u8],
    n: usize,
    log: &[u8],
    start: usize,
    v: Vector,
    m: usize,
    work: &mut [u8],
    tables: &mut Tables,
) -> Result<Counts, Refusal>
    requires { (length b.now ≡ block_size) × (n ≡ count_in b.now) × (n ≤ 6) × (length work.old ≡ work_size) × Kept list folded.counts (records_of log.now) start work.old m v.counts tables.old.places tables.old.seens }
    ensures { JudgedInto list folded.counts (records_of log.now) start b.now work.old m (code_of result) work.new (used_after m result) (held_after v.counts result) tables.new.places tables.new.seens }
{
    let mut held = v;
    let mut used = m;
    for j in 0..n {
        let at = 28 + 80 * j;
        put(work, 80 * used, &b[at..at + 80]);
        let counts = take_at(list, folded, &b[at..at + 80], held, used, work, tables)?;
        held = counts.held;
        used = counts.used;
    }
    Ok(Counts { held, used })
}

// One block beside the records held: 2 to 6, then its records. A refused one leaves the records held as they were.
fn judge_one(
    list: u8,
    folded: Vector,
    base: &[u8],
    b: &[u8],
    archive: u32,
    unit: u8,
    log: &[u8],
    start: usize,
    v: Vector,
    m: usize,
    work: &mut [u8],
    tables: &mut Tables,
) -> Result<Counts, Refusal>
    requires { (unit ≤ 7) × Footing list folded.counts base.now × (length work.old ≡ work_size) × Kept list folded.counts (records_of log.now) start work.old m v.counts tables.old.places tables.old.seens }
    ensures { JudgedOne list folded.counts base.now (records_of log.now) start archive unit b.now work.old m (code_of result) work.new (used_after m result) (held_after v.counts result) tables.new.places tables.new.seens }
{
    take_beside::given_fault(archive, b)?;
    let n = usize::from(block_read::count_in(b));
    judge_into(list, folded, b, n, log, start, v, m, work, tables)
}

// How many blocks a row has.
fn blocks_in(row: &[u8]) -> usize
    requires { length row.now ≤ file_size }
    ensures { (result ≡ blocks_in row.now) × (result ≤ 86) }
{
    row.len() / BLOCK_BYTES
}

// The blocks of a row, one after another up to the first that is refused.
pub fn judge_row(
    list: u8,
    folded: Vector,
    base: &[u8],
    row: &[u8],
    archive: u32,
    unit: u8,
    log: &[u8],
    start: usize,
    v: Vector,
    work: &mut [u8],
    tables: &mut Tables,
) -> RowJudged
    requires { (length row.now ≤ file_size) × (unit ≤ 7) × Footing list folded.counts base.now × (length log.now ≡ log_size) × (sound_log_on folded.counts log.now ≡ true) × (length work.old ≡ work_size) × Kept list folded.counts (records_of log.now) start work.old start v.counts tables.old.places tables.old.seens }
    ensures { JudgedRow folded.counts base.now log.now start archive unit row.now result.taken (stop_code result.stopped) work.new result.used result.held.counts }
{
    let n = blocks_in(row);
    let mut held = v;
    let mut used = start;
    for k in 0..n {
        let at = 512 * k;
        let judged = judge_one(
            list,
            folded,
            base,
            &row[at..at + 512],
            archive,
            unit,
            log,
            start,
            held,
            used,
            work,
            tables,
        );
        match judged {
            Ok(counts) => {
                held = counts.held;
                used = counts.used;
            }
            Err(refusal) => {
                return RowJudged {
                    held,
                    used,
                    taken: k as u8,
                    stopped: Some(refusal),
                };
            }
        }
    }
    RowJudged {
        held,
        used,
        taken: n as u8,
        stopped: None,
    }
}
