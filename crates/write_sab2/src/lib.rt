// Writing an SAB2 file: list and base in rows, then the records of the log, in blocks; zeros behind them.
#![tactic(auto)]

ghost use Rattle.std.specs.Prelude.{◌≡◌, true, ◌*◌, ◌≤◌, length};
ghost use Rattle.model.specs.Lengths.{log_size, base_size, log_places, base_places};
ghost use Rattle.model.specs.Bytes.{word, padded, put_at};
ghost use Rattle.model.specs.Vector.{blocks_for};
ghost use Rattle.model.specs.Log.{records_of, sound_log_on};
ghost use Rattle.model.specs.File.{header_of};
ghost use Rattle.call_model.specs.Outcome.{outcome};
ghost use Rattle.run_model.specs.Runs.{letters2, run_block, run_to};
ghost use Rattle.sab2_model.specs.Rows.{row_count, base_rows};
ghost use Rattle.sab2_model.specs.Sab2.{sab2_of, sab2_blocks};
ghost use Rattle.sab2_model.specs.Calls.{sab2_size, write_sab2_of};
ghost use Rattle.refusal.specs.Refusals.{code_of};
ghost use Rattle.write_file.specs.Told.{blocks_of};
ghost use Rattle.state_check.specs.Stands.{Stands};

use block_write::{Block, block_as};
use call_guard::open;
use refusal::Refusal;
use sab2_model::SAB2_BYTES;
use sab2_rows::{gather_rows, row_count};
use state_check::State;
use vector::Vector;
use write_file_blocks::{clear_behind, count_at, run_block, write_at};

// Block k of the rows of a base.
pub fn row_block(
    base: &[u8],
    entries: usize,
    asides: usize,
    held: Vector,
    archive: u32,
    unit: u8,
    k: usize,
) -> Block
    requires { (length base.now ≡ base_size) × (entries ≡ word base.now 2) × (asides ≡ word base.now 4) × (entries ≤ base_places) × (asides ≤ base_places) × (6 * k ≤ row_count entries asides) }
    ensures { result.bytes ≡ run_block letters2 (header_of archive unit 0 held.counts) (base_rows base.now) k }
{
    let n = count_at(row_count(entries, asides), k);
    let rows = gather_rows(base, entries, asides, 6 * k, n);
    block_as(b"SAB2", archive, unit, n as u8, k as u16, held, &rows.bytes)
}

// The blocks of the rows are written from the beginning of the file on; their count is returned.
fn write_rows(
    base: &[u8],
    entries: usize,
    asides: usize,
    held: Vector,
    archive: u32,
    unit: u8,
    file: &mut [u8],
) -> usize
    requires { (length base.now ≡ base_size) × (entries ≡ word base.now 2) × (asides ≡ word base.now 4) × (entries ≤ base_places) × (asides ≤ base_places) × (length file.old ≡ sab2_size) }
    ensures counted { (result ≡ blocks_for (row_count entries asides)) × (result ≤ 100) }
    ensures written { file.new ≡ put_at file.old 0 (run_to letters2 (header_of archive unit 0 held.counts) (base_rows base.now) result) }
{
    let n = (row_count(entries, asides) + 5) / 6;
    for k in 0..n {
        let b = row_block(base, entries, asides, held, archive, unit, k);
        write_at(file, k, b);
    }
    n
}

// The blocks of the records are written behind the first blocks of the file; their count is returned. The base vector only says behind
// what the log is sound.
fn write_records(
    folded: Vector,
    log: &[u8],
    used: usize,
    held: Vector,
    archive: u32,
    unit: u8,
    first: usize,
    file: &mut [u8],
) -> usize
    requires { (length log.now ≡ log_size) × (sound_log_on folded.counts log.now ≡ true) × (used ≡ length (records_of log.now)) × (used ≤ log_places) × (first ≤ 100) × (length file.old ≡ sab2_size) }
    ensures counted { (result ≡ blocks_for (length (records_of log.now))) × (result ≤ 86) }
    ensures written { file.new ≡ put_at file.old (512 * first) (run_to letters2 (header_of archive unit first held.counts) (records_of log.now) result) }
{
    let n = (used + 5) / 6;
    for k in 0..n {
        let b = run_block(b"SAB2", folded, log, used, held, archive, unit, first, k);
        write_at(file, first + k, b);
    }
    n
}

// Rows, then records, then zeros; the count of blocks is returned.
fn write_state(log: &[u8], base: &[u8], state: State, archive: u32, unit: u8, file: &mut [u8]) -> u8
    requires { Stands log.now base.now state × (sound_log_on state.head.folded.counts log.now ≡ true) × (state.head.entries ≤ base_places) × (state.head.asides ≤ base_places) × (state.used ≤ log_places) × (length file.old ≡ sab2_size) }
    ensures counted { result ≡ sab2_blocks base.now (records_of log.now) }
    ensures written { file.new ≡ padded sab2_size (sab2_of archive unit base.now (records_of log.now)) }
{
    let head = state.head;
    let p = write_rows(
        base,
        head.entries,
        head.asides,
        state.held,
        archive,
        unit,
        file,
    );
    let n = write_records(
        head.folded,
        log,
        state.used,
        state.held,
        archive,
        unit,
        p,
        file,
    );
    clear_behind(file, p + n);
    (p + n) as u8
}

// List, base and log are written into the lent file as SAB2, with zeros behind the last block; the count of blocks is returned. Checked in this
// order: 1, 21, 19. Log and base are only read.
pub fn write_sab2(
    log: &[u8],
    base: &[u8],
    archive: u32,
    unit: u8,
    file: &mut [u8],
) -> Result<u8, Refusal>
    ensures { outcome (code_of result) 0 log.now file.new (blocks_of result) ≡ write_sab2_of archive unit log.now base.now file.old }
{
    let state = open(log, base, unit, file.len() == SAB2_BYTES, true)?;
    Ok(write_state(log, base, state, archive, unit, file))
}
