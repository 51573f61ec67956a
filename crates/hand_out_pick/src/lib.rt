// The records of a log that a vector lacks, gathered one behind another: the first six or fewer, or all. The base vector only says behind
// which records the log is sound.
#![tactic(auto)]

ghost use Rattle.std.specs.Prelude.{◌≡◌, true, ◌*◌, ◌<◌, ◌≤◌, ltb, length, get_or, take, replicate};
ghost use Rattle.model.specs.Bytes.{padded, joined};
ghost use Rattle.model.specs.Record.{unit, num};
ghost use Rattle.model.specs.Log.{records_of, sound_log_on, lacking};

use byte_slice::put;
use record::{number_of, unit_of};
use vector::Vector;

// A vector does not count the record.
pub fn lacks(v: Vector, rec: &[u8]) -> bool
    requires { (length rec.now ≡ 80) × (unit rec.now < 8) }
    ensures { result ≡ ltb (get_or v.counts (unit rec.now) 0) (num rec.now) }
{
    let u = unit_of(rec) as usize;
    v.counts[u] < number_of(rec)
}

// The first records that a vector lacks, at most so many, are laid one behind another; their count is returned.
fn gather_most(
    base: Vector,
    log: &[u8],
    used: usize,
    v: Vector,
    most: usize,
    recs: &mut [u8],
) -> usize
    requires { (length log.now ≡ 40960) × (sound_log_on base.counts log.now ≡ true) × (used ≡ length (records_of log.now)) × (most ≤ 512) × (recs.old ≡ replicate (80 * most) 0) }
    ensures counted { (result ≡ length (take most (lacking v.counts (records_of log.now)))) × (result ≤ most) }
    ensures laid { recs.new ≡ padded (80 * most) (joined (take most (lacking v.counts (records_of log.now)))) }
{
    let mut n = 0;
    for i in 0..used {
        if n == most {
            return most;
        }
        let at = 80 * i;
        let rec = &log[at..at + 80];
        if !lacks(v, rec) {
            continue;
        }
        put(recs, 80 * n, rec);
        n += 1;
    }
    n
}

// The first six or fewer records that a vector lacks are laid one behind another; their count is returned.
pub fn gather(base: Vector, log: &[u8], used: usize, v: Vector, recs: &mut [u8]) -> u8
    requires { (length log.now ≡ 40960) × (sound_log_on base.counts log.now ≡ true) × (used ≡ length (records_of log.now)) × (recs.old ≡ replicate 480 0) }
    ensures counted { result ≡ length (take 6 (lacking v.counts (records_of log.now))) }
    ensures laid { recs.new ≡ padded 480 (joined (take 6 (lacking v.counts (records_of log.now)))) }
{
    gather_most(base, log, used, v, 6, recs) as u8
}

// All records that a vector lacks are laid one behind another; their count is returned.
pub fn gather_all(base: Vector, log: &[u8], used: usize, v: Vector, recs: &mut [u8]) -> usize
    requires { (length log.now ≡ 40960) × (sound_log_on base.counts log.now ≡ true) × (used ≡ length (records_of log.now)) × (recs.old ≡ replicate 40960 0) }
    ensures counted { (result ≡ length (lacking v.counts (records_of log.now))) × (result ≤ 512) }
    ensures laid { recs.new ≡ padded 40960 (joined (lacking v.counts (records_of log.now))) }
{
    gather_most(base, log, used, v, 512, recs)
}
