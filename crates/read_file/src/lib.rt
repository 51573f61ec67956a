// Reading an SAB1 file into a lent log and base: every check of the file, then its records one at a time; the base becomes empty.
#![tactic(auto)]

ghost use Rattle.std.specs.Prelude.{◌≡◌, ◌*◌, ◌≤◌, length};
ghost use Rattle.model.specs.Lengths.{log_size, log_places};
ghost use Rattle.model.specs.Log.{log_bytes};
ghost use Rattle.model.specs.File.{records_counted, file_records_from};
ghost use Rattle.base_model.specs.Base.{empty_base};
ghost use Rattle.call_model.specs.Read.{read_of};
ghost use Rattle.read_file.specs.From.{read_from};
ghost use Rattle.read_file.specs.Told.{told_of, read_told};

use base_empty::write_empty;
use block_read::{archive_in, sender_in, vector_in};
use file_reader::walk;
use model::{BASE_BYTES, BLOCK_BYTES, LOG_BYTES};
use read_file_check::{checked_fault, records_counted};
use refusal::{Fault, Refusal};
use vector::Vector;

// What a file that was read says.
#[derive(Clone, Copy, Drop)]
pub struct ReadFile {
    pub archive: u32,
    pub unit: u8,
    pub records: u16,
    pub vector: Vector,
}

// The first records of a file become a log.
pub fn copy_records(log: &mut [u8], file: &[u8], n: usize, total: usize)
    requires { (length log.old ≡ log_size) × (length file.now ≡ 512 * n) × (total ≤ 6 * n) × (total ≤ log_places) }
    ensures { log.new ≡ log_bytes (file_records_from file.now 0 total) }
{
    log.fill(0);
    walk(file, log, total);
}

// The records in n blocks of a file become the log; archive, unit and vector stand in its first block.
pub fn load(log: &mut [u8], block: &[u8], part: &[u8], n: usize) -> ReadFile
    requires { (length log.old ≡ log_size) × (length block.now ≡ 512) × (length part.now ≡ 512 * n) × (n ≤ 186) × (records_counted part.now ≤ 6 * n) × (records_counted part.now ≤ log_places) }
    ensures { told_of result log.new empty_base ≡ read_from block.now part.now empty_base }
{
    let total = records_counted(part, n);
    copy_records(log, part, n, total);
    ReadFile {
        archive: archive_in(block),
        unit: sender_in(block),
        records: total as u16,
        vector: vector_in(block),
    }
}

// A file of any archive is read into a lent log, whose old bytes are not judged. A refusal leaves them as they were. No base is lent: what is
// answered is what would be with an empty one.
pub fn read_log(log: &mut [u8], file: &[u8]) -> Result<ReadFile, Fault<u8>>
    ensures { read_told result log.new empty_base ≡ read_of log.old empty_base file.now }
{
    if log.len() != LOG_BYTES {
        return Err(Fault {
            refusal: Refusal::BadBuffer,
            place: 0,
        });
    }
    checked_fault(file)?;
    Ok(load(log, &file[0..512], file, file.len() / BLOCK_BYTES))
}

// A file of any archive is read into a lent log and base, whose old bytes are not judged: the log becomes its records, the base empty with
// all eight units listed. A refusal leaves both as they were.
pub fn read_file(log: &mut [u8], base: &mut [u8], file: &[u8]) -> Result<ReadFile, Fault<u8>>
    ensures { read_told result log.new base.new ≡ read_of log.old base.old file.now }
{
    if base.len() != BASE_BYTES {
        return Err(Fault {
            refusal: Refusal::BadBuffer,
            place: 0,
        });
    }
    let read = read_log(log, file)?;
    write_empty(base);
    Ok(read)
}
