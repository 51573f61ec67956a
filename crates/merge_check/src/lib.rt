// Whether the records of two files go together: another archive, 6, then a record with other bytes, 10, then one too many, 11.
#![tactic(auto)]

ghost use Rattle.std.specs.Prelude.{◌≡◌, true, ◌≤◌, length};
ghost use Rattle.model.specs.Lengths.{log_places};
ghost use Rattle.model.specs.Record.{unit, num, well_formed};
ghost use Rattle.model.specs.Log.{by_id};
ghost use Rattle.model.specs.Block.{archive_in};
ghost use Rattle.model.specs.File.{fault, file_records, block_at};
ghost use Rattle.model.specs.Merge.{differs, bytes_fault, room_fault, records_clash, union_fault};
ghost use Rattle.log_check.specs.declared.Layout.TheVariants.{File};
ghost use Rattle.log_check.specs.Places.{laid_at, Laid};
ghost use Rattle.log_check.specs.InOrder.{listed};
ghost use Rattle.refusal.specs.Refusals.{fault_code, fault_place};
ghost use Rattle.merge_check.specs.Tables.{Positioned, AllFormed, Fine};

use block_read::archive_in;
use byte_slice::same;
use hand_out_pick::lacks;
use log_check::{Layout, offset};
use log_closure::Tables;
use model::LOG_PLACES;
use record::{number_of, unit_of};
use refusal::{Fault, Refusal};
use vector::Vector;

// The first file has the record's identity with other bytes.
fn clashes(first: &[u8], n: usize, held: Vector, tables: &Tables, rec: &[u8]) -> bool
    requires { (length rec.now ≡ 80) × (well_formed rec.now ≡ true) × Laid File first.now n × Positioned (laid_at File first.now) n (file_records first.now) held.counts tables.now.places }
    ensures { result ≡ differs (by_id (unit rec.now) (num rec.now) (file_records first.now)) rec.now }
{
    let u = usize::from(unit_of(rec));
    let c = number_of(rec);
    if held.counts[u] < c {
        return false;
    }
    let p = tables.position(u, c);
    let at = offset(Layout::File, p);
    !same(&first[at..at + 80], rec)
}

// The first of the second file's records that the first file has with other bytes.
fn bytes_fault(
    first: &[u8],
    n: usize,
    held: Vector,
    tables: &Tables,
    second: &[u8],
    total: usize,
) -> Result<(), Fault<u8>>
    requires { (total ≤ log_places) × Laid File first.now n × Positioned (laid_at File first.now) n (file_records first.now) held.counts tables.now.places × Laid File second.now total × AllFormed (laid_at File second.now) total }
    ensures { fault (fault_code result) (fault_place result) ≡ bytes_fault (file_records first.now) 0 (listed (laid_at File second.now) 0 total) }
{
    for i in 0..total {
        let at = offset(Layout::File, i);
        if clashes(first, n, held, tables, &second[at..at + 80]) {
            return Err(Fault {
                refusal: Refusal::OtherBytes,
                place: (i / 6) as u8,
            });
        }
    }
    Ok(())
}

// The first of the second file's records that is one too many behind the used ones of the first.
fn room_fault(second: &[u8], total: usize, held: Vector, used: usize) -> Result<(), Fault<u8>>
    requires { (total ≤ log_places) × (used ≤ log_places) × Laid File second.now total × AllFormed (laid_at File second.now) total }
    ensures { fault (fault_code result) (fault_place result) ≡ room_fault held.counts used 0 (listed (laid_at File second.now) 0 total) }
{
    let mut n = used;
    for i in 0..total {
        let at = offset(Layout::File, i);
        if !lacks(held, &second[at..at + 80]) {
            continue;
        }
        if n == LOG_PLACES {
            return Err(Fault {
                refusal: Refusal::FullLog,
                place: (i / 6) as u8,
            });
        }
        n += 1;
    }
    Ok(())
}

// The first of OtherBytes and FullLog that holds of the records of two files.
fn records_clash(
    first: &[u8],
    used: usize,
    held: Vector,
    tables: &Tables,
    second: &[u8],
    total: usize,
) -> Result<(), Fault<u8>>
    requires { Fine first.now used × Positioned (laid_at File first.now) used (file_records first.now) held.counts tables.now.places × Fine second.now total }
    ensures { fault (fault_code result) (fault_place result) ≡ records_clash (file_records first.now) (length (file_records first.now)) (file_records second.now) }
{
    bytes_fault(first, used, held, tables, second, total)?;
    room_fault(second, total, held, used)
}

// The archive of a file.
pub fn archive_of(file: &[u8]) -> u32
    requires { 512 ≤ length file.now }
    ensures { result ≡ archive_in (block_at file.now 0) }
{
    archive_in(&file[0..512])
}

// The first of OtherArchive, OtherBytes and FullLog that holds of two files without a fault. The table has the positions of the first's
// records.
pub fn union_fault(
    first: &[u8],
    used: usize,
    held: Vector,
    tables: &Tables,
    second: &[u8],
    total: usize,
) -> Result<(), Fault<u8>>
    requires { (512 ≤ length first.now) × (512 ≤ length second.now) × Fine first.now used × Positioned (laid_at File first.now) used (file_records first.now) held.counts tables.now.places × Fine second.now total }
    ensures { fault (fault_code result) (fault_place result) ≡ union_fault first.now second.now }
{
    if archive_of(second) != archive_of(first) {
        return Err(Fault {
            refusal: Refusal::OtherArchive,
            place: 0,
        });
    }
    records_clash(first, used, held, tables, second, total)
}
