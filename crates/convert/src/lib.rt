// The two forms of a file, each made of the other: to SAB2, with an empty base and all eight units listed, and the way back.
#![tactic(auto)]

ghost use Rattle.std.specs.Prelude.{◌≡◌, true, ◌+◌, ◌*◌, ◌/◌, ◌≤◌, length};
ghost use Rattle.model.specs.Lengths.{file_size, base_size};
ghost use Rattle.model.specs.Bytes.{blank, padded, put_at};
ghost use Rattle.model.specs.Log.{vector_of};
ghost use Rattle.model.specs.File.{header_of, block_count, records_counted, file_records, checked_fault};
ghost use Rattle.base_model.specs.Base.{empty_base, base_vector};
ghost use Rattle.run_model.specs.Runs.{letters2, run_block, run_to};
ghost use Rattle.sab2_model.specs.Rows.{base_rows};
ghost use Rattle.sab2_model.specs.Sab2.{sab2_of, sab2_blocks, sab2_base, sab2_records, checked_sab2};
ghost use Rattle.sab2_model.specs.Calls.{sab2_size, converted, as_sab2, as_sab1, to_sab2_of, to_sab1_of};
ghost use Rattle.refusal.specs.Refusals.{fault_code, fault_place};
ghost use Rattle.sab2_check.specs.Told.{file_code, file_place};
ghost use Rattle.convert.specs.Told.{blocks_of};

use base_head::head_of;
use block_read::{archive_in, sender_in, vector_in};
use block_write::{Block, block_as};
use model::{BASE_BYTES, BLOCK_BYTES, FILE_BYTES};
use read_file_check::{checked_fault, records_counted};
use refusal::{Fault, Refusal};
use sab2_check::{FileFault, checked_sab2, row_blocks};
use sab2_model::SAB2_BYTES;
use vector::Vector;
use write_file::is_zero;
use write_file_blocks::{block_count, clear_behind, count_at, write_at};

// Block k of so many records that stand in blocks, with other letters, archive, unit, place and vector.
fn recast_block(
    part: &[u8],
    total: usize,
    letters: &[u8; 4],
    archive: u32,
    unit: u8,
    v: Vector,
    first: usize,
    k: usize,
) -> Block
    requires { (total ≡ records_counted part.now) × (total ≤ 512) × (total ≤ 6 * (length part.now / 512)) × (6 * k ≤ total) × (first ≤ 100) }
    ensures { result.bytes ≡ run_block letters.now (header_of archive unit first v.counts) (file_records part.now) k }
{
    let n = count_at(total, k);
    if n == 0 {
        return block_as(
            letters,
            archive,
            unit,
            0,
            (first + k) as u16,
            v,
            &part[0..0],
        );
    }
    let at = 512 * k + 28;
    block_as(
        letters,
        archive,
        unit,
        n as u8,
        (first + k) as u16,
        v,
        &part[at..at + 80 * n],
    )
}

// The first n blocks of so many records that stand in blocks are written anew, from a place of the lent file on.
fn recast(
    part: &[u8],
    total: usize,
    n: usize,
    letters: &[u8; 4],
    archive: u32,
    unit: u8,
    v: Vector,
    first: usize,
    out: &mut [u8],
)
    requires { (total ≡ records_counted part.now) × (total ≤ 512) × (total ≤ 6 * (length part.now / 512)) × (n ≤ block_count total) × (length letters.now ≡ 4) × (first ≤ 100) × (512 * (first + n) ≤ length out.old) }
    ensures { out.new ≡ put_at out.old (512 * first) (run_to letters.now (header_of archive unit first v.counts) (file_records part.now) n) }
{
    for k in 0..n {
        let b = recast_block(part, total, letters, archive, unit, v, first, k);
        write_at(out, first + k, b);
    }
}

// The block of the one row of an empty base.
fn empty_rows(archive: u32, unit: u8, v: Vector) -> Block
    ensures { result.bytes ≡ run_block letters2 (header_of archive unit 0 v.counts) (base_rows empty_base) 0 }
{
    let row = [255u8];
    block_as(b"SAB2", archive, unit, 1, 0, v, &row)
}

// The row of an empty base, then the records of an SAB1 file without a fault, then zeros; the count of blocks is returned.
fn write_raised(file: &[u8], total: usize, archive: u32, unit: u8, v: Vector, out: &mut [u8]) -> u8
    requires { ((checked_fault file.now).number ≡ 0) × (total ≡ records_counted file.now) × (total ≤ 512) × (v.counts ≡ vector_of (file_records file.now)) × (length out.old ≡ sab2_size) }
    ensures counted { result ≡ sab2_blocks empty_base (file_records file.now) }
    ensures written { out.new ≡ padded sab2_size (sab2_of archive unit empty_base (file_records file.now)) }
{
    let n = (total + 5) / 6;
    write_at(out, 0, empty_rows(archive, unit, v));
    recast(file, total, n, b"SAB2", archive, unit, v, 1, out);
    clear_behind(out, 1 + n);
    (1 + n) as u8
}

// An SAB1 file without a fault becomes an SAB2 file; the count of its blocks is returned.
fn raise(file: &[u8], out: &mut [u8]) -> u8
    requires { ((checked_fault file.now).number ≡ 0) × (length out.old ≡ sab2_size) }
    ensures counted { result ≡ sab2_blocks empty_base (file_records file.now) }
    ensures written { out.new ≡ padded sab2_size (as_sab2 file.now) }
{
    let archive = archive_in(&file[0..512]);
    let unit = sender_in(&file[0..512]);
    let v = vector_in(&file[0..512]);
    let total = records_counted(file, file.len() / BLOCK_BYTES);
    write_raised(file, total, archive, unit, v, out)
}

// An SAB1 file becomes an SAB2 file of the same archive and unit in the lent bytes, with zeros behind the last block: an empty base, all eight
// units listed. Checked in this order: 1, then the file. A refusal leaves the lent bytes.
pub fn to_sab2(file: &[u8], out: &mut [u8]) -> Result<u8, Fault<u8>>
    ensures { converted (fault_code result) (fault_place result) (blocks_of result) out.new ≡ to_sab2_of file.now out.old }
{
    if out.len() != SAB2_BYTES {
        return Err(Fault {
            refusal: Refusal::BadBuffer,
            place: 0,
        });
    }
    checked_fault(file)?;
    Ok(raise(file, out))
}

// An SAB2 file without a fault and without folded records becomes an SAB1 file; the count of its blocks is returned.
fn lower(file: &[u8], out: &mut [u8]) -> u8
    requires { ((checked_sab2 file.now).number ≡ 0) × (blank (base_vector (sab2_base file.now)) ≡ true) × (length out.old ≡ file_size) }
    ensures counted { result ≡ block_count (length (sab2_records file.now)) }
    ensures written { out.new ≡ padded file_size (as_sab1 file.now) }
{
    let archive = archive_in(&file[0..512]);
    let unit = sender_in(&file[0..512]);
    let v = vector_in(&file[0..512]);
    let m = file.len() / BLOCK_BYTES;
    let p = row_blocks(file);
    let at = 512 * p;
    let end = 512 * m;
    let total = records_counted(&file[at..end], m - p);
    let n = block_count(total);
    recast(&file[at..end], total, n, b"SAB1", archive, unit, v, 0, out);
    write_file::clear_behind(out, n);
    n as u8
}

// The records of a checked SAB2 file and its base: FoldedRecords if any is folded, else the way back.
fn back(file: &[u8], base: &[u8], out: &mut [u8]) -> Result<u8, Fault<u8>>
    requires { ((checked_sab2 file.now).number ≡ 0) × (base.now ≡ sab2_base file.now) × (length base.now ≡ base_size) × (length out.old ≡ file_size) }
    ensures { converted (fault_code result) (fault_place result) (blocks_of result) out.new ≡ to_sab1_of file.now out.old }
{
    if !is_zero(head_of(base).folded) {
        return Err(Fault {
            refusal: Refusal::FoldedRecords,
            place: 0,
        });
    }
    Ok(lower(file, out))
}

// An SAB2 file without folded records becomes an SAB1 file of the same archive and unit in the lent bytes, with zeros behind the last block; its
// list is lost. Checked in this order: 1, then the file, then 29. A refusal leaves the lent bytes.
pub fn to_sab1(file: &[u8], out: &mut [u8]) -> Result<u8, FileFault>
    ensures { converted (file_code result) (file_place result) (blocks_of result) out.new ≡ to_sab1_of file.now out.old }
{
    if out.len() != FILE_BYTES {
        return Err(FileFault::Block(Fault {
            refusal: Refusal::BadBuffer,
            place: 0,
        }));
    }
    let mut base = [0u8; BASE_BYTES];
    checked_sab2(file, &mut base)?;
    Ok(back(file, &base, out)?)
}
