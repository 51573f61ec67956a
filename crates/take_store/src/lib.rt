// The records of a block that passed are stored in a log, behind a base vector. List and base vector only say which they are.
#![tactic(auto)]

ghost use Rattle.std.specs.Prelude.{◌≡◌, ◌≤◌, ◌<◌, length};
ghost use Rattle.model.specs.Lengths.{record_size, block_size, log_size};
ghost use Rattle.model.specs.Record.{unit};
ghost use Rattle.model.specs.Log.{records_of, log_bytes};
ghost use Rattle.model.specs.Block.{record_at, records_from};
ghost use Rattle.call_model.specs.Outcome.{taken, take_one, takes_all};
ghost use Rattle.take_beside.specs.Judging.{after, after_to};
ghost use Rattle.take_store.specs.Stored.{Stored};
ghost use Rattle.take_store.specs.New.{Units, is_new, new_from};

use take_beside::Counts;
use vector::Vector;

// A record has a number above the count of its unit.
fn is_new(rec: &[u8], held: Vector) -> bool
    requires { (length rec.now ≡ record_size) × (unit rec.now < 8) }
    ensures { result ≡ is_new held.counts rec.now }
{
    let u = record::unit_of(rec) as usize;
    held.counts[u] < record::number_of(rec)
}

// The n records of a block are all new, and rise in rank.
fn are_new(b: &[u8], n: usize, held: Vector) -> bool
    requires { (length b.now ≡ block_size) × (n ≤ 6) × Units (record_at b.now) n }
    ensures { result ≡ new_from held.counts (record_at b.now) 0 0 n }
{
    let mut floor: u32 = 0;
    for j in 0..n {
        let at = 28 + 80 * j;
        let rec = &b[at..at + 80];
        if !is_new(rec, held) {
            return false;
        }
        let k = record::rank_of(rec);
        if k < floor {
            return false;
        }
        floor = k + 1;
    }
    true
}

// A record that passed is stored: a new one by rank, one that is held or folded not again.
pub fn store_record(list: u8, base: Vector, log: &mut [u8], rec: &[u8], s: Counts) -> Counts
    requires { (length log.old ≡ log_size) × (length rec.now ≡ record_size) × Stored base.counts (records_of log.old) log.old s.used s.held.counts × (take_one list base.counts (records_of log.old) rec.now ≡ taken (after list base.counts (records_of log.old) rec.now)) }
    ensures { Stored base.counts (after list base.counts (records_of log.old) rec.now) log.new result.used result.held.counts }
{
    if !is_new(rec, s.held) {
        return s;
    }
    log_insert::insert_records(log, s.used, rec, 1);
    let u = record::unit_of(rec) as usize;
    let more = log_admit::counted(s.held, u, record::number_of(rec));
    Counts {
        held: more,
        used: s.used + 1,
    }
}

// The n records of a block that passed are stored, one after another.
pub fn store_each(list: u8, base: Vector, log: &mut [u8], b: &[u8], n: usize, s: Counts)
    requires { (length log.old ≡ log_size) × (length b.now ≡ block_size) × (n ≤ 6) × Stored base.counts (records_of log.old) log.old s.used s.held.counts × (takes_all list base.counts (records_of log.old) (records_from b.now 0 n) ≡ taken (after_to list base.counts (records_of log.old) (record_at b.now) n)) }
    ensures { log.new ≡ log_bytes (after_to list base.counts (records_of log.old) (record_at b.now) n) }
{
    let mut stored = s;
    for j in 0..n {
        let at = 28 + 80 * j;
        stored = store_record(list, base, log, &b[at..at + 80], stored);
    }
}

// The n records of a block that passed are stored: as a block is handed out, all at once, and in any other order one after another.
pub fn store(list: u8, base: Vector, log: &mut [u8], b: &[u8], n: usize, s: Counts)
    requires { (length log.old ≡ log_size) × (length b.now ≡ block_size) × (n ≤ 6) × Stored base.counts (records_of log.old) log.old s.used s.held.counts × (takes_all list base.counts (records_of log.old) (records_from b.now 0 n) ≡ taken (after_to list base.counts (records_of log.old) (record_at b.now) n)) }
    ensures { log.new ≡ log_bytes (after_to list base.counts (records_of log.old) (record_at b.now) n) }
{
    if are_new(b, n, s.held) {
        log_insert::insert_records(log, s.used, &b[28..28 + 80 * n], n);
        return;
    }
    store_each(list, base, log, b, n, s);
}
