// The blocks of a file of either form: how many there are, and each judged alone, then against its place and the first block. A form is its
// letters, and how many rows stand in front of the records: none in an SAB1 file.
#![tactic(auto)]

ghost use Rattle.std.specs.Prelude.{◌≡◌, ◌&&◌, ◌-◌, ◌*◌, ◌/◌, ◌%◌, ◌<◌, ◌≤◌, leb, eqb, length};
ghost use Rattle.model.specs.Bytes.{same_bytes};
ghost use Rattle.model.specs.File.{file_length, count_fits, fault, blocks_fault};
ghost use Rattle.run_model.specs.Blocks.{count_fits_as, agrees_as, file_block_fault_as, blocks_fault_as};
ghost use Rattle.refusal.specs.Refusals.{code_of, fault_code, fault_place};

use block_read::{archive_in, block_fault_as, count_in, place_in, sender_in, vector_in};
use refusal::{Fault, Refusal};
use vector::Vector;

// The file has whole blocks, at least one and at most so many.
pub fn whole_blocks_to(file: &[u8], most: usize) -> bool
    ensures { result ≡ (eqb (length file.now % 512) 0 && (leb 1 (length file.now / 512) && leb (length file.now / 512) most)) }
{
    if file.len() % 512 != 0 {
        return false;
    }
    let n = file.len() / 512;
    if n < 1 {
        return false;
    }
    n <= most
}

// The file has 1 to 86 whole blocks.
pub fn whole_blocks(file: &[u8]) -> bool
    ensures { result ≡ file_length file.now }
{
    whole_blocks_to(file, 86)
}

// The same counts.
pub fn same_counts(a: Vector, b: Vector) -> bool
    ensures { result ≡ same_bytes a.counts b.counts }
{
    a.counts == b.counts
}

// A block of records before the last is full; a count of 0 stands only in an only block.
fn count_fits(n: usize, k: usize, count: u8) -> bool
    requires { k < n }
    ensures { result ≡ count_fits n k count }
{
    if k + 1 < n {
        return count == 6;
    }
    if n == 1 {
        return true;
    }
    1 <= count
}

// A block of the rows is as full as they ask, and not the last before they end; behind them stand blocks of records.
fn count_fits_as(rows: usize, n: usize, k: usize, count: u8) -> bool
    requires { (k < n) × (n ≤ 186) × (rows < 131072) }
    ensures { result ≡ count_fits_as rows n k count }
{
    let p = (rows + 5) / 6;
    if p <= k {
        return count_fits(n, k, count);
    }
    if usize::from(count) != (rows - 6 * k).min(6) {
        return false;
    }
    (k + 1 < n) | (k + 1 == p)
}

// Block k of n has its place, and the unit, archive and vector of the first block, and its count is as it should be.
fn agrees(first: &[u8], b: &[u8], rows: usize, n: usize, k: usize) -> bool
    requires { (length first.now ≡ 512) × (length b.now ≡ 512) × (k < n) × (n ≤ 186) × (rows < 131072) }
    ensures { result ≡ agrees_as rows n k first.now b.now }
{
    if place_in(b) != k as u16 {
        return false;
    }
    if sender_in(b) != sender_in(first) {
        return false;
    }
    if archive_in(b) != archive_in(first) {
        return false;
    }
    if !same_counts(vector_in(b), vector_in(first)) {
        return false;
    }
    count_fits_as(rows, n, k, count_in(b))
}

// The first refusal that holds of block k: of the block alone, then BadFile if it does not agree with its place and the first block.
fn file_block_fault(
    file: &[u8],
    letters: &[u8; 4],
    rows: usize,
    n: usize,
    k: usize,
) -> Result<(), Refusal>
    requires { (length file.now ≡ 512 * n) × (k < n) × (n ≤ 186) × (rows < 131072) }
    ensures { code_of result ≡ file_block_fault_as letters.now rows file.now k }
{
    let at = 512 * k;
    block_fault_as(&file[at..at + 512], letters)?;
    if !agrees(&file[0..512], &file[at..at + 512], rows, n, k) {
        return Err(Refusal::BadFile);
    }
    Ok(())
}

// The first fault of the n blocks of a file with these letters and so many rows, with the place of its block.
pub fn blocks_fault_as(
    file: &[u8],
    letters: &[u8; 4],
    rows: usize,
    n: usize,
) -> Result<(), Fault<u8>>
    requires { (length file.now ≡ 512 * n) × (n ≤ 186) × (rows < 131072) }
    ensures { fault (fault_code result) (fault_place result) ≡ blocks_fault_as letters.now rows file.now 0 n }
{
    for k in 0..n {
        if let Err(refusal) = file_block_fault(file, letters, rows, n, k) {
            return Err(Fault {
                refusal,
                place: k as u8,
            });
        }
    }
    Ok(())
}

// The same of an SAB1 file.
pub fn blocks_fault(file: &[u8], n: usize) -> Result<(), Fault<u8>>
    requires { (length file.now ≡ 512 * n) × (n ≤ 86) }
    ensures { fault (fault_code result) (fault_place result) ≡ blocks_fault file.now 0 n }
{
    blocks_fault_as(file, b"SAB1", 0, n)
}
