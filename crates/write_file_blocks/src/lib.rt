// The blocks of a file that is written: how many, how many records in each, and each one laid at its place.
#![tactic(auto)]

ghost use Rattle.std.specs.Prelude.{◌≡◌, true, ◌+◌, ◌*◌, ◌-◌, ◌<◌, ◌≤◌, min, length, replicate};
ghost use Rattle.model.specs.Bytes.{put_at};
ghost use Rattle.model.specs.Log.{records_of, sound_log_on, sound_log, vector_of};
ghost use Rattle.model.specs.File.{block_count, header_of, file_block};
ghost use Rattle.run_model.specs.Runs.{run_block};

use block_write::{Block, block_as};
use vector::{Vector, zero_vector};

// How many blocks hold n records: six records a block, and one block for none.
pub fn block_count(n: usize) -> usize
    requires { n ≤ 512 }
    ensures { result ≡ block_count n }
{
    if n == 0 {
        return 1;
    }
    (n + 5) / 6
}

// How many of n records or rows stand in block k.
pub fn count_at(n: usize, k: usize) -> usize
    requires { 6 * k ≤ n }
    ensures { result ≡ min 6 (n - 6 * k) }
{
    (n - 6 * k).min(6)
}

// Block k of the records of a log, with these letters, behind so many other blocks. The base vector only says behind what the log is sound.
pub fn run_block(
    letters: &[u8; 4],
    folded: Vector,
    log: &[u8],
    used: usize,
    held: Vector,
    archive: u32,
    unit: u8,
    first: usize,
    k: usize,
) -> Block
    requires { (length log.now ≡ 40960) × (sound_log_on folded.counts log.now ≡ true) × (used ≡ length (records_of log.now)) × (used ≤ 512) × (6 * k ≤ used) × (first ≤ 186) }
    ensures { result.bytes ≡ run_block letters.now (header_of archive unit first held.counts) (records_of log.now) k }
{
    let n = count_at(used, k);
    let at = 480 * k;
    block_as(
        letters,
        archive,
        unit,
        n as u8,
        (first + k) as u16,
        held,
        &log[at..at + 80 * n],
    )
}

// Block k of the file of a log.
pub fn file_block(log: &[u8], used: usize, held: Vector, archive: u32, unit: u8, k: usize) -> Block
    requires { (length log.now ≡ 40960) × (sound_log log.now ≡ true) × (used ≡ length (records_of log.now)) × (held.counts ≡ vector_of (records_of log.now)) × (used ≤ 512) × (6 * k ≤ used) }
    ensures { result.bytes ≡ file_block archive unit (records_of log.now) k }
{
    run_block(b"SAB1", zero_vector(), log, used, held, archive, unit, 0, k)
}

// A block is written into the part of the file that starts at its place.
pub fn write_at(file: &mut [u8], k: usize, b: Block)
    requires { 512 * k + 512 ≤ length file.old }
    ensures { file.new ≡ put_at file.old (512 * k) b.bytes }
{
    file[512 * k..512 * k + 512].copy_from_slice(&b.bytes);
}

// Zeros are written behind the first n blocks.
pub fn clear_behind(file: &mut [u8], n: usize)
    requires { 512 * n ≤ length file.old }
    ensures { file.new ≡ put_at file.old (512 * n) (replicate (length file.old - 512 * n) 0) }
{
    let end = file.len();
    file[512 * n..end].fill(0);
}
