// Handing out a row: all blocks of what another unit lacks, with one check of the log.
#![tactic(auto)]

ghost use Rattle.std.specs.Prelude.{◌≡◌, true, ◌+◌, ◌*◌, ◌≤◌, length, drop};
ghost use Rattle.model.specs.Vector.{blocks_for};
ghost use Rattle.model.specs.Lengths.{log_size, file_size, log_places};
ghost use Rattle.model.specs.Bytes.{padded, joined};
ghost use Rattle.model.specs.Log.{records_of, sound_log_on, lacking};
ghost use Rattle.call_model.specs.Outcome.{outcome};
ghost use Rattle.row_model.specs.Row.{row_block, row_of, hand_row_of};
ghost use Rattle.refusal.specs.Refusals.{code_of};
ghost use Rattle.write_file.specs.Told.{blocks_of};

use block_write::{Block, block_of};
use call_guard::open;
use hand_out_pick::gather_all;
use model::FILE_BYTES;
use refusal::Refusal;
use state_check::State;
use vector::{Vector, covers};
use write_file::clear_behind;
use write_file_blocks::{count_at, write_at};

// How many blocks n records are.
fn row_count(n: usize) -> usize
    requires { n ≤ log_places }
    ensures { result ≡ blocks_for n }
{
    (n + 5) / 6
}

// The records that the asked vector lacks are laid one behind another in the row, from byte 3,072 on; their count is returned.
fn gather_behind(folded: Vector, log: &[u8], used: usize, asked: Vector, out: &mut [u8]) -> usize
    requires { (length log.now ≡ log_size) × (sound_log_on folded.counts log.now ≡ true) × (used ≡ length (records_of log.now)) × (length out.old ≡ file_size) }
    ensures counted { (result ≡ length (lacking asked.counts (records_of log.now))) × (result ≤ log_places) }
    ensures laid { drop 3072 out.new ≡ padded log_size (joined (lacking asked.counts (records_of log.now))) }
{
    clear_behind(out, 6);
    gather_all(folded, log, used, asked, &mut out[3072..FILE_BYTES])
}

// Block k of the n records that the asked vector lacks, which lie one behind another in the row, from byte 3,072 on; those of the
// blocks before may be written over. Base vector, log and asked vector only say which they are.
fn row_block(
    folded: Vector,
    log: &[u8],
    asked: Vector,
    row: &[u8],
    n: usize,
    k: usize,
    held: Vector,
    archive: u32,
    unit: u8,
) -> Block
    requires { (sound_log_on folded.counts log.now ≡ true) × (length row.now ≡ file_size) × (drop (3072 + 480 * k) row.now ≡ drop (480 * k) (padded log_size (joined (lacking asked.counts (records_of log.now))))) × (n ≡ length (lacking asked.counts (records_of log.now))) × (n ≤ log_places) × (6 * k ≤ n) }
    ensures { result.bytes ≡ row_block archive unit held.counts (lacking asked.counts (records_of log.now)) k }
{
    let c = count_at(n, k);
    let at = 3072 + 480 * k;
    block_of(archive, unit, c as u8, 0, held, &row[at..at + 80 * c])
}

// The records are gathered in the row itself, block after block is written before them, then zeros; the count of blocks is
// returned. A block is 32 bytes longer than its six records, and 86 * 32 < 3,072: no block reaches records still to be read.
fn write_row(log: &[u8], state: State, archive: u32, unit: u8, asked: Vector, out: &mut [u8]) -> u8
    requires { (length log.now ≡ log_size) × (sound_log_on state.head.folded.counts log.now ≡ true) × (state.used ≡ length (records_of log.now)) × (length out.old ≡ file_size) }
    ensures counted { result ≡ blocks_for (length (lacking asked.counts (records_of log.now))) }
    ensures written { out.new ≡ padded file_size (row_of archive unit state.held.counts (records_of log.now) asked.counts) }
{
    let folded = state.head.folded;
    let m = gather_behind(folded, log, state.used, asked, out);
    let n = row_count(m);
    for k in 0..n {
        let b = row_block(folded, log, asked, out, m, k, state.held, archive, unit);
        write_at(out, k, b);
    }
    clear_behind(out, n);
    n as u8
}

// All blocks of what the asked vector lacks are written into the lent row, with zeros behind the last; their count is returned. Checked in
// this order: 1, 21, 19, 27. Log and base are only read.
pub fn hand_out_row(
    log: &[u8],
    base: &[u8],
    archive: u32,
    unit: u8,
    asked: Vector,
    out: &mut [u8],
) -> Result<u8, Refusal>
    ensures { outcome (code_of result) 0 log.now out.new (blocks_of result) ≡ hand_row_of archive unit log.now base.now asked.counts out.old }
{
    let state = open(log, base, unit, out.len() == FILE_BYTES, true)?;
    if !covers(asked, state.head.folded) {
        return Err(Refusal::BelowBase);
    }
    Ok(write_row(log, state, archive, unit, asked, out))
}
