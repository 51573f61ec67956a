// Records are put into a log by rank.
#![tactic(auto)]

ghost use Rattle.std.specs.Prelude.{◌≡◌, ◌+◌, ◌*◌, ◌≤◌, length};
ghost use Rattle.model.specs.Lengths.{log_size, log_places};
ghost use Rattle.model.specs.Log.{records_of, log_bytes};
ghost use Rattle.log_check.specs.Places.{laid_at};
ghost use Rattle.log_check.specs.declared.Layout.TheVariants.{Log};
ghost use Rattle.log_insert.specs.Where.{place_behind, Rising, Ordered, insert_to};

// The place behind the last of the first n records that ranks no higher than k.
pub fn place_behind(log: &[u8], n: usize, k: u32) -> usize
    requires { (length log.now ≡ log_size) × (n ≤ log_places) }
    ensures { (result ≡ place_behind (laid_at Log log.now) k n) × (result ≤ n) }
{
    for i in (0..n).rev() {
        let at = 80 * i;
        if record::rank_of(&log[at..at + 80]) <= k {
            return i + 1;
        }
    }
    0
}

// The k records in recs, which rise in rank, are put in by rank among the n records of a log that rise too. The last goes in first, so that each
// record of the log moves once.
pub fn insert_records(log: &mut [u8], n: usize, recs: &[u8], k: usize)
    requires { (length log.old ≡ log_size) × Ordered log.old n × (n ≡ length (records_of log.old)) × (n + k ≤ log_places) × (length recs.now ≡ 80 * k) × Rising (laid_at Log recs.now) k }
    ensures { log.new ≡ log_bytes (insert_to (records_of log.old) (laid_at Log recs.now) k) }
{
    let mut end = n;
    for j in (0..k).rev() {
        let at = 80 * j;
        let i = place_behind(log, end, record::rank_of(&recs[at..at + 80]));
        byte_slice::move_up(log, 80 * i, 80 * end, 80 * (j + 1));
        byte_slice::put(log, 80 * (i + j), &recs[at..at + 80]);
        end = i;
    }
}
