// One file out of two: all their records by rank, under the first file's archive and unit.
#![tactic(auto)]

ghost use Rattle.std.specs.Prelude.{◌≡◌, OnOk, length};
ghost use Rattle.model.specs.Lengths.{log_size, file_size};
ghost use Rattle.model.specs.Log.{vector_of};
ghost use Rattle.model.specs.Block.{vector_in};
ghost use Rattle.model.specs.File.{fault, block_at, records_counted, file_records, checked_fault};
ghost use Rattle.model.specs.Merge.{union, union_fault, unless, joined_file, merge_of};
ghost use Rattle.log_check.specs.declared.Layout.TheVariants.{File};
ghost use Rattle.log_check.specs.Places.{laid_at};
ghost use Rattle.merge_check.specs.Tables.{Positioned};
ghost use Rattle.refusal.specs.Refusals.{fault_code, fault_place};
ghost use Rattle.merge.specs.Told.{merge_told};

use block_read::vector_in;
use log_closure::Tables;
use merge_check::union_fault;
use merge_join::join_files;
use model::{BLOCK_BYTES, FILE_BYTES, LOG_BYTES};
use read_file_blocks::whole_blocks;
use read_file_check::{checked_fault, file_fault_into, records_counted};
use refusal::{Fault, Refusal};
use vector::Vector;

// Why two files are not merged: a lent buffer is not of its length, or a fault of one of them. What is wrong with the two together is told of
// the second.
#[derive(Clone, Copy, Debug, PartialEq, Eq)]
pub enum MergeFault {
    Buffer,
    First(Fault<u8>),
    Second(Fault<u8>),
}

// Every check of the first file; where it has no fault, the table has the positions of its records.
fn first_fault(file: &[u8], tables: &mut Tables) -> Result<(), Fault<u8>>
    ensures outright { fault (fault_code result) (fault_place result) ≡ checked_fault file.now }
    ensures holds { OnOk result (Positioned (laid_at File file.now) (records_counted file.now) (file_records file.now) (vector_of (file_records file.now)) tables.new.places) }
{
    if !whole_blocks(file) {
        return Err(Fault {
            refusal: Refusal::BadLength,
            place: 0,
        });
    }
    file_fault_into(file, file.len() / BLOCK_BYTES, tables)
}

// The vector of a file.
fn vector_of(file: &[u8]) -> Vector
    requires { (checked_fault file.now).number ≡ 0 }
    ensures { result.counts ≡ vector_of (file_records file.now) }
{
    vector_in(&file[0..512])
}

// Two files without a fault become one, whose count of blocks is returned, or are refused: OtherArchive, OtherBytes, FullLog.
fn merge_checked(
    first: &[u8],
    second: &[u8],
    tables: &Tables,
    log: &mut [u8],
    file: &mut [u8],
) -> Result<u8, MergeFault>
    requires { ((checked_fault first.now).number ≡ 0) × ((checked_fault second.now).number ≡ 0) × Positioned (laid_at File first.now) (records_counted first.now) (file_records first.now) (vector_of (file_records first.now)) tables.now.places × (length log.old ≡ log_size) × (length file.old ≡ file_size) }
    ensures { merge_told result log.new file.new ≡ unless (union_fault first.now second.now) 2 log.old file.old (joined_file first.now (union (file_records first.now) (file_records second.now))) }
{
    let n = first.len() / BLOCK_BYTES;
    let m = second.len() / BLOCK_BYTES;
    let used = records_counted(first, n);
    let total = records_counted(second, m);
    let held = vector_of(first);
    let other = vector_of(second);
    if let Err(fault) = union_fault(first, used, held, tables, second, total) {
        return Err(MergeFault::Second(fault));
    }
    Ok(join_files(first, n, used, held, second, total, other, log, file))
}

// Two files become one of all their records, in the lent file, by way of a lent log whose old bytes are not judged; the count of its blocks is
// returned. Checked in this order: 1, the first file wholly, the second wholly, 6, 10, 11. A refusal leaves both as they were.
pub fn merge(first: &[u8], second: &[u8], log: &mut [u8], file: &mut [u8]) -> Result<u8, MergeFault>
    ensures { merge_told result log.new file.new ≡ merge_of first.now second.now log.old file.old }
{
    if log.len() != LOG_BYTES {
        return Err(MergeFault::Buffer);
    }
    if file.len() != FILE_BYTES {
        return Err(MergeFault::Buffer);
    }
    let mut tables = Tables::fresh();
    if let Err(fault) = first_fault(first, &mut tables) {
        return Err(MergeFault::First(fault));
    }
    if let Err(fault) = checked_fault(second) {
        return Err(MergeFault::Second(fault));
    }
    merge_checked(first, second, &tables, log, file)
}
