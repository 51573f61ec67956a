// Two files that go together become one: the records of both by rank in a lent log, and the file of them.
#![tactic(auto)]

ghost use Rattle.std.specs.Prelude.{◌≡◌, ◌+◌, ◌*◌, ◌≤◌, length};
ghost use Rattle.model.specs.Lengths.{log_size, file_size, log_places};
ghost use Rattle.model.specs.Bytes.{joined, put_at};
ghost use Rattle.model.specs.Log.{vector_of, log_bytes, lacking};
ghost use Rattle.model.specs.Block.{sender_in};
ghost use Rattle.model.specs.File.{file_records, block_at, records_counted};
ghost use Rattle.model.specs.Merge.{union, union_fault, merged, joined_file};
ghost use Rattle.log_check.specs.declared.Layout.TheVariants.{File};
ghost use Rattle.log_check.specs.Places.{laid_at, Laid};
ghost use Rattle.log_check.specs.InOrder.{listed};
ghost use Rattle.merge_check.specs.Tables.{AllFormed, Fine};
ghost use Rattle.merge_join.specs.Highest.{highest};

use block_read::sender_in;
use byte_slice::put;
use hand_out_pick::lacks;
use log_check::{Layout, offset};
use log_insert::insert_records;
use merge_check::archive_of;
use read_file::copy_records;
use vector::Vector;
use write_file::write_blocks;

// The records of the second file that a vector lacks are laid one behind another; their count is returned.
fn gather_new(second: &[u8], total: usize, held: Vector, recs: &mut [u8]) -> usize
    requires { (total ≤ log_places) × (length recs.old ≡ file_size) × Laid File second.now total × AllFormed (laid_at File second.now) total }
    ensures counted { (result ≡ length (lacking held.counts (listed (laid_at File second.now) 0 total))) × (result ≤ total) }
    ensures laid { recs.new ≡ put_at recs.old 0 (joined (lacking held.counts (listed (laid_at File second.now) 0 total))) }
{
    let mut k: usize = 0;
    for i in 0..total {
        let at = offset(Layout::File, i);
        if !lacks(held, &second[at..at + 80]) {
            continue;
        }
        put(recs, 80 * k, &second[at..at + 80]);
        k += 1;
    }
    k
}

// Of each unit the higher count.
fn higher(a: Vector, b: Vector) -> Vector
    ensures { result.counts ≡ highest a.counts b.counts }
{
    Vector {
        counts: [
            a.counts[0].max(b.counts[0]),
            a.counts[1].max(b.counts[1]),
            a.counts[2].max(b.counts[2]),
            a.counts[3].max(b.counts[3]),
            a.counts[4].max(b.counts[4]),
            a.counts[5].max(b.counts[5]),
            a.counts[6].max(b.counts[6]),
            a.counts[7].max(b.counts[7]),
        ],
    }
}

// The unit of a file.
fn sender_of(file: &[u8]) -> u8
    requires { 512 ≤ length file.now }
    ensures { result ≡ sender_in (block_at file.now 0) }
{
    sender_in(&file[0..512])
}

// The records of both files become the log; how many of the second are new. The lent file holds these meanwhile.
fn load_union(
    first: &[u8],
    n: usize,
    used: usize,
    second: &[u8],
    total: usize,
    held: Vector,
    log: &mut [u8],
    file: &mut [u8],
) -> usize
    requires { (length first.now ≡ 512 * n) × (used ≡ records_counted first.now) × (used ≤ 6 * n) × Fine first.now used × Fine second.now total × (held.counts ≡ vector_of (file_records first.now)) × ((union_fault first.now second.now).number ≡ 0) × (length log.old ≡ log_size) × (length file.old ≡ file_size) }
    ensures { (log.new ≡ log_bytes (union (file_records first.now) (file_records second.now))) × (used + result ≡ length (union (file_records first.now) (file_records second.now))) × (used + result ≤ log_places) }
{
    copy_records(log, first, n, used);
    let k = gather_new(second, total, held, file);
    insert_records(log, used, &file[0..80 * k], k);
    k
}

// The records of two files that go together become the log, and the log one file under the first's archive and unit.
pub fn join_files(
    first: &[u8],
    n: usize,
    used: usize,
    held: Vector,
    second: &[u8],
    total: usize,
    other: Vector,
    log: &mut [u8],
    file: &mut [u8],
) -> u8
    requires { (length first.now ≡ 512 * n) × (1 ≤ n) × (used ≡ records_counted first.now) × (used ≤ 6 * n) × Fine first.now used × Fine second.now total × (held.counts ≡ vector_of (file_records first.now)) × (other.counts ≡ vector_of (file_records second.now)) × ((union_fault first.now second.now).number ≡ 0) × (length log.old ≡ log_size) × (length file.old ≡ file_size) }
    ensures { merged 0 0 0 result log.new file.new ≡ joined_file first.now (union (file_records first.now) (file_records second.now)) }
{
    let k = load_union(first, n, used, second, total, held, log, file);
    let most = higher(held, other);
    write_blocks(
        log,
        used + k,
        most,
        archive_of(first),
        sender_of(first),
        file,
    )
}
