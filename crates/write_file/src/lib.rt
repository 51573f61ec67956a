// Writing a file: the whole log in blocks of six records, and zeros behind them.
#![tactic(auto)]

ghost use Rattle.std.specs.Prelude.{◌≡◌, true, ◌*◌, ◌-◌, ◌<◌, ◌≤◌, length, replicate};
ghost use Rattle.model.specs.Lengths.{log_size, file_size};
ghost use Rattle.model.specs.Bytes.{blank, padded, put_at};
ghost use Rattle.model.specs.Log.{records_of, sound_log, vector_of};
ghost use Rattle.model.specs.File.{block_count, file_of};
ghost use Rattle.call_model.specs.Outcome.{outcome, write_of};
ghost use Rattle.refusal.specs.Refusals.{code_of};
ghost use Rattle.write_file.specs.Told.{blocks_of};

use call_guard::open;
use model::FILE_BYTES;
use refusal::Refusal;
use vector::Vector;
use write_file_blocks::{block_count, file_block, write_at};

// Zeros are written behind the first n blocks.
pub fn clear_behind(file: &mut [u8], n: usize)
    requires { (length file.old ≡ file_size) × (n ≤ 86) }
    ensures { file.new ≡ put_at file.old (512 * n) (replicate (file_size - 512 * n) 0) }
{
    write_file_blocks::clear_behind(file, n);
}

// Block after block is written, then zeros; the count of blocks is returned.
pub fn write_blocks(
    log: &[u8],
    used: usize,
    held: Vector,
    archive: u32,
    unit: u8,
    file: &mut [u8],
) -> u8
    requires { (length log.now ≡ log_size) × (sound_log log.now ≡ true) × (used ≡ length (records_of log.now)) × (held.counts ≡ vector_of (records_of log.now)) × (length file.old ≡ file_size) }
    ensures counted { result ≡ block_count (length (records_of log.now)) }
    ensures written { file.new ≡ padded file_size (file_of archive unit (records_of log.now)) }
{
    let n = block_count(used);
    for k in 0..n {
        write_at(file, k, file_block(log, used, held, archive, unit, k));
    }
    clear_behind(file, n);
    n as u8
}

// A vector counts no record.
pub fn is_zero(v: Vector) -> bool
    ensures { result ≡ blank v.counts }
{
    v.counts == [0; 8]
}

// The whole log is written into the lent file, six records a block, with zeros behind the last; the count of blocks is returned. Checked in
// this order: 1, 21, 19, 29. Log and base are only read.
pub fn write_file(
    log: &[u8],
    base: &[u8],
    archive: u32,
    unit: u8,
    file: &mut [u8],
) -> Result<u8, Refusal>
    ensures { outcome (code_of result) 0 log.now file.new (blocks_of result) ≡ write_of archive unit log.now base.now file.old }
{
    let state = open(log, base, unit, file.len() == FILE_BYTES, true)?;
    if !is_zero(state.head.folded) {
        return Err(Refusal::FoldedRecords);
    }
    Ok(write_blocks(log, state.used, state.held, archive, unit, file))
}
