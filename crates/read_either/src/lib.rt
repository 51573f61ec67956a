// Reading a file of either form into a lent log and base: every check of the file, then what it holds.
#![tactic(auto)]

ghost use Rattle.std.specs.Prelude.{◌≡◌, true, false, ◌≤◌, length};
ghost use Rattle.model.specs.Lengths.{log_size, base_size};
ghost use Rattle.base_model.specs.Base.{empty_base};
ghost use Rattle.sab2_model.specs.Sab2.{record_part, checked_sab2, is_sab2};
ghost use Rattle.sab2_model.specs.Calls.{read_either_of};
ghost use Rattle.model.specs.File.{block_at};
ghost use Rattle.read_file.specs.From.{read_from};
ghost use Rattle.read_file.specs.Told.{told_of};
ghost use Rattle.read_either.specs.Told.{either_told};

use block_read::has_letters;
use model::{BASE_BYTES, BLOCK_BYTES, LOG_BYTES};
use read_file::{ReadFile, load};
use refusal::{Fault, Refusal};
use sab2_check::{FileFault, checked_sab2, row_blocks};

// The first four bytes are SAB2; else a file is SAB1.
pub fn is_sab2(file: &[u8]) -> bool
    ensures { result ≡ is_sab2 file.now }
{
    if file.len() < 4 {
        return false;
    }
    has_letters(file, b"SAB2")
}

// The log of an SAB2 file without a fault.
fn load_behind(log: &mut [u8], file: &[u8]) -> ReadFile
    requires { (length log.old ≡ log_size) × ((checked_sab2 file.now).number ≡ 0) }
    ensures { told_of result log.new empty_base ≡ read_from (block_at file.now 0) (record_part file.now) empty_base }
{
    let n = file.len() / BLOCK_BYTES;
    let p = row_blocks(file);
    let at = 512 * p;
    let end = 512 * n;
    load(log, &file[0..512], &file[at..end], n - p)
}

// A lent buffer is not of its length.
const BAD_BUFFER: FileFault = FileFault::Block(Fault {
    refusal: Refusal::BadBuffer,
    place: 0,
});

// An SAB2 file: its list and base are gathered and judged in a buffer beside, and copied out once all checks have passed.
fn read_sab2(
    log: &mut [u8],
    base: &mut [u8],
    file: &[u8],
    beside: &mut [u8],
) -> Result<ReadFile, FileFault>
    requires { (is_sab2 file.now ≡ true) × (length beside.old ≡ base_size) }
    ensures { either_told result log.new base.new ≡ read_either_of log.old base.old file.now }
{
    if log.len() != LOG_BYTES {
        return Err(BAD_BUFFER);
    }
    if base.len() != BASE_BYTES {
        return Err(BAD_BUFFER);
    }
    checked_sab2(file, beside)?;
    byte_copy::put(base, 0, beside);
    Ok(load_behind(log, file))
}

// An SAB1 file, whose faults are among those of either form.
fn read_sab1(log: &mut [u8], base: &mut [u8], file: &[u8]) -> Result<ReadFile, FileFault>
    requires { is_sab2 file.now ≡ false }
    ensures { either_told result log.new base.new ≡ read_either_of log.old base.old file.now }
{
    Ok(read_file::read_file(log, base, file)?)
}

// A file of either form, as read_either reads it, by way of a lent buffer, whose bytes are neither judged nor promised.
pub fn read_beside(
    log: &mut [u8],
    base: &mut [u8],
    file: &[u8],
    beside: &mut [u8],
) -> Result<ReadFile, FileFault>
    requires { length beside.old ≡ base_size }
    ensures { either_told result log.new base.new ≡ read_either_of log.old base.old file.now }
{
    if is_sab2(file) {
        return read_sab2(log, base, file, beside);
    }
    read_sab1(log, base, file)
}

// An SAB2 file, by way of a buffer of its own.
fn read_alone(log: &mut [u8], base: &mut [u8], file: &[u8]) -> Result<ReadFile, FileFault>
    requires { is_sab2 file.now ≡ true }
    ensures { either_told result log.new base.new ≡ read_either_of log.old base.old file.now }
{
    let mut beside = [0u8; BASE_BYTES];
    read_sab2(log, base, file, &mut beside)
}

// A file of either form and any archive is read into a lent log and base, whose old bytes are not judged. An SAB1 file leaves the base empty,
// with all eight units listed. A refusal leaves both as they were.
pub fn read_either(log: &mut [u8], base: &mut [u8], file: &[u8]) -> Result<ReadFile, FileFault>
    ensures { either_told result log.new base.new ≡ read_either_of log.old base.old file.now }
{
    if is_sab2(file) {
        return read_alone(log, base, file);
    }
    read_sab1(log, base, file)
}
