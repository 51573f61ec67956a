// What folding leaves of a log, and the base vector with the folded records counted. The base vector says behind which records the log is
// sound.
#![tactic(auto)]

ghost use Rattle.std.specs.Prelude.{◌≡◌, true, ◌≤◌, ◌<◌, length, take, drop, set};
ghost use Rattle.model.specs.Lengths.{log_size, log_places};
ghost use Rattle.model.specs.Record.{unit, num};
ghost use Rattle.model.specs.Log.{vector_on, records_of, sound_log_on, log_bytes};

use record::{number_of, unit_of};
use vector::Vector;

// A vector that counts the records of a unit up to this one.
fn count_to(v: Vector, rec: &[u8]) -> Vector
    requires { (length rec.now ≡ 80) × (unit rec.now < 8) }
    ensures { result.counts ≡ set v.counts (unit rec.now) (num rec.now) }
{
    let u = usize::from(unit_of(rec));
    let mut w = v;
    w.counts[u] = number_of(rec);
    w
}

// The base vector with the first n records counted.
pub fn counted(base: Vector, log: &[u8], n: usize) -> Vector
    requires { (length log.now ≡ log_size) × (sound_log_on base.counts log.now ≡ true) × (n ≤ length (records_of log.now)) }
    ensures { result.counts ≡ vector_on base.counts (take n (records_of log.now)) }
{
    let mut v = base;
    for i in 0..n {
        let at = 80 * i;
        v = count_to(v, &log[at..at + 80]);
    }
    v
}

// The first n records leave the log: the others move to the front, and their places become zero.
pub fn drop_front(base: Vector, log: &mut [u8], used: usize, n: usize)
    requires { (length log.old ≡ log_size) × (sound_log_on base.counts log.old ≡ true) × (used ≡ length (records_of log.old)) × (used ≤ log_places) × (n ≤ used) }
    ensures { log.new ≡ log_bytes (drop n (records_of log.old)) }
{
    let left = 80 * (used - n);
    log.copy_within(80 * n..80 * used, 0);
    log[left..80 * used].fill(0);
}
