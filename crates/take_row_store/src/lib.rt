// The new records of a row stand behind those of the log, in the order of their coming; they are put in by rank.
#![tactic(auto)]

ghost use Rattle.std.specs.Prelude.{◌≡◌, true, ◌+◌, ◌*◌, ◌≤◌, ◌<◌, length};
ghost use Rattle.model.specs.Lengths.{log_size, log_places};
ghost use Rattle.model.specs.Log.{records_of, sound_log_on, log_bytes};
ghost use Rattle.take_row_store.specs.Grown.{work_size, held_in, Grown, Run};

use record::rank_of;
use vector::Vector;

// 518 places of 80 bytes: those of a log, and six for the block that is judged.
pub const WORK_BYTES: usize = 41440;

// Where the records from a place on cease to rise in rank.
fn run_end(work: &[u8], from: usize, to: usize) -> usize
    requires { (length work.now ≡ work_size) × (from < to) × (to ≤ log_places) }
    ensures { (from < result) × (result ≤ to) × Run work.now from result }
{
    let at = 80 * from;
    let mut last = rank_of(&work[at..at + 80]);
    for i in from + 1..to {
        let p = 80 * i;
        let k = rank_of(&work[p..p + 80]);
        if k <= last {
            return i;
        }
        last = k;
    }
    to
}

// The records that stand in work from the place start up to the place used are put in by rank among the records of a log, a rising run at a
// time. The base vector only says behind which records the log is sound.
pub fn put_in(base: Vector, log: &mut [u8], start: usize, work: &[u8], used: usize)
    requires { (length log.old ≡ log_size) × (sound_log_on base.counts log.old ≡ true) × (length work.now ≡ work_size) × Grown base.counts (records_of log.old) start work.now used }
    ensures { log.new ≡ log_bytes (held_in (records_of log.old) start work.now used) }
{
    let mut done = start;
    // A step is a run, not one record.
    while done < used {
        let end = run_end(work, done, used);
        log_insert::insert_records(log, done, &work[80 * done..80 * end], end - done);
        done = end;
    }
}
