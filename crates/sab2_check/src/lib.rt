// The checks of an SAB2 file, in the stated order: its blocks, its list and base, then the records behind them and its vector. List and base
// are judged in a lent buffer.
#![tactic(auto)]

ghost use Rattle.std.specs.Prelude.{◌≡◌, true, ◌*◌, ◌<◌, ◌≤◌, OnOk, length};
ghost use Rattle.model.specs.Lengths.{base_size};
ghost use Rattle.model.specs.Block.{vector_in};
ghost use Rattle.model.specs.File.{block_at, fault};
ghost use Rattle.sab2_model.specs.Sab2.{row_blocks, sab2_blocks_fault, sab2_rows, sab2_base, sab2_records, rows_stand, held_fault, sab2_fault, checked_sab2};
ghost use Rattle.refusal.specs.Refusals.{fault_code, fault_place};
ghost use Rattle.sab2_check.specs.Told.{number_told, place_told, file_code, file_place};
ghost use Rattle.sab2_check.specs.declared.FileFault.TheVariants.{Block};

use base_check::check_base;
use base_head::{head_of, lists_all};
use log_closure::Tables;
use model::BLOCK_BYTES;
use read_file_blocks::{blocks_fault_as, whole_blocks_to};
use read_file_check::held_fault;
use refusal::{Fault, Refusal};
use sab2_rows::{load_base, said_rows};

// Why a file of either form is refused: a refusal with the place of its block, 0 where it is of no block; or the list or base of an SAB2
// file breaks its layout or is not sound, which is told at place 0.
#[derive(Clone, Copy, Debug, PartialEq, Eq)]
pub enum FileFault {
    Block(Fault<u8>),
    Base,
}

impl From<Fault<u8>> for FileFault {
    ghost from_gives = { λ fault made. made ≡ Block fault };

    fn from(fault: Fault<u8>) -> FileFault {
        FileFault::Block(fault)
    }
}

impl FileFault {
    // The number in the refusal table.
    pub fn number(self) -> u8
        ensures { result ≡ number_told self }
    {
        match self {
            FileFault::Block(fault) => u8::from(fault.refusal),
            FileFault::Base => 31,
        }
    }

    // The place of the block, 0 for none.
    pub fn place(self) -> u8
        ensures { result ≡ place_told self }
    {
        match self {
            FileFault::Block(fault) => fault.place,
            FileFault::Base => 0,
        }
    }
}

// How many blocks the rows of a file ask for.
pub fn row_blocks(file: &[u8]) -> usize
    requires { 512 ≤ length file.now }
    ensures { (result ≡ row_blocks file.now) × (result < 65536) }
{
    (said_rows(file) + 5) / 6
}

// Whether the rows of a file keep their layout and leave a sound base, with every unit listed that it counts; then they leave it in the lent
// buffer.
fn base_stands(file: &[u8], base: &mut [u8]) -> bool
    requires { (length base.old ≡ base_size) × (512 ≤ length file.now) × (512 * row_blocks file.now ≤ length file.now) }
    ensures stands { result ≡ rows_stand (sab2_rows file.now) }
    ensures loads { result ≡ true → base.new ≡ sab2_base file.now }
{
    if !load_base(file, base) {
        return false;
    }
    let head = head_of(base);
    if !lists_all(head.list, head.folded) {
        return false;
    }
    check_base(base)
}

// The first fault of the records and the vector of a file of n blocks, whose blocks have none, and whose list and base stand.
fn behind_fault(file: &[u8], n: usize, base: &[u8]) -> Result<(), Fault<u8>>
    requires { (length file.now ≡ 512 * n) × (1 ≤ n) × (n ≤ 186) × ((sab2_blocks_fault file.now).number ≡ 0) × (rows_stand (sab2_rows file.now) ≡ true) × (base.now ≡ sab2_base file.now) × (length base.now ≡ base_size) }
    ensures { fault (fault_code result) (fault_place result) ≡ held_fault true (sab2_base file.now) (row_blocks file.now) n (vector_in (block_at file.now 0)) (sab2_records file.now) }
{
    let head = head_of(base);
    let p = row_blocks(file);
    let at = 512 * p;
    let end = 512 * n;
    let mut tables = Tables::fresh();
    held_fault(
        &file[0..512],
        &file[at..end],
        n,
        head.folded,
        head.list,
        p,
        &mut tables,
    )
}

// The first fault of an SAB2 file of n blocks; without one its list and base are left in the lent buffer.
fn sab2_fault(file: &[u8], n: usize, base: &mut [u8]) -> Result<(), FileFault>
    requires { (length file.now ≡ 512 * n) × (1 ≤ n) × (n ≤ 186) × (length base.old ≡ base_size) }
    ensures outright { fault (file_code result) (file_place result) ≡ sab2_fault file.now }
    ensures loads { OnOk result (base.new ≡ sab2_base file.now) }
{
    blocks_fault_as(file, b"SAB2", said_rows(file), n)?;
    if !base_stands(file, base) {
        return Err(FileFault::Base);
    }
    behind_fault(file, n, base)?;
    Ok(())
}

// BadLength for a file that is not of 1 to 186 blocks, then its first fault; without one its list and base are left in the lent buffer.
pub fn checked_sab2(file: &[u8], base: &mut [u8]) -> Result<(), FileFault>
    requires { length base.old ≡ base_size }
    ensures outright { fault (file_code result) (file_place result) ≡ checked_sab2 file.now }
    ensures loads { OnOk result (base.new ≡ sab2_base file.now) }
{
    if !whole_blocks_to(file, 186) {
        return Err(FileFault::Block(Fault {
            refusal: Refusal::BadLength,
            place: 0,
        }));
    }
    sab2_fault(file, file.len() / BLOCK_BYTES, base)
}
