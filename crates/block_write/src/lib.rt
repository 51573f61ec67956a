// A block is written: its header, its records and its two sums.
#![tactic(auto, using(crate::proofs::Written::ways))]

ghost use Rattle.std.specs.Prelude.{◌≡◌, [], ◌++◌, ◌≤◌, length, take};
ghost use Rattle.model.specs.Bytes.{put_at, padded};
ghost use Rattle.model.specs.Block.{head_bytes, sealed, block_of};
ghost use Rattle.run_model.specs.Runs.{head_as};

use block_sums::block_sums;
use byte_slice::{put, put16, put32};
use vector::{Vector, put_vector};

#[derive(Drop)]
pub struct Block {
    pub bytes: [u8; 512],
}

// The first 28 bytes are written.
pub fn put_header(
    dst: &mut [u8],
    letters: &[u8; 4],
    archive: u32,
    unit: u8,
    count: u8,
    place: u16,
    v: Vector,
)
    requires { length dst.old ≡ 512 }
    ensures written { dst.new ≡ put_at dst.old 0 (head_as letters.now (record { archive = archive; sender = unit; place = place; vector = v.counts }) count) }
    ensures four { length letters.now ≡ 4 }
{
    put(dst, 0, letters);
    put32(dst, 4, archive);
    put(dst, 8, &[unit, count]);
    put16(dst, 10, place);
    put_vector(dst, 12, v);
}

// The sums are written behind the 254 words.
pub fn seal(dst: &mut [u8])
    requires { length dst.old ≡ 512 }
    ensures { dst.new ≡ sealed (take 508 dst.old) }
{
    let s = block_sums(dst);
    put16(dst, 508, s.first);
    put16(dst, 510, s.second);
}

// A block of no records.
pub fn empty_block(archive: u32, unit: u8, place: u16, v: Vector) -> Block
    ensures { result.bytes ≡ block_of (record { archive = archive; sender = unit; place = place; vector = v.counts }) [] }
{
    let mut bytes = [0u8; 512];
    put_header(&mut bytes, b"SAB1", archive, unit, 0, place, v);
    seal(&mut bytes);
    Block { bytes }
}

// A block with these letters, of records or rows that lie one behind another.
pub fn block_as(
    letters: &[u8; 4],
    archive: u32,
    unit: u8,
    count: u8,
    place: u16,
    v: Vector,
    recs: &[u8],
) -> Block
    requires { length recs.now ≤ 480 }
    ensures { result.bytes ≡ sealed (head_as letters.now (record { archive = archive; sender = unit; place = place; vector = v.counts }) count ++ padded 480 recs.now) }
{
    let mut bytes = [0u8; 512];
    put_header(&mut bytes, letters, archive, unit, count, place, v);
    put(&mut bytes, 28, recs);
    seal(&mut bytes);
    Block { bytes }
}

// A block of records that lie one behind another.
pub fn block_of(archive: u32, unit: u8, count: u8, place: u16, v: Vector, recs: &[u8]) -> Block
    requires { length recs.now ≤ 480 }
    ensures { result.bytes ≡ sealed (head_bytes (record { archive = archive; sender = unit; place = place; vector = v.counts }) count ++ padded 480 recs.now) }
{
    block_as(b"SAB1", archive, unit, count, place, v, recs)
}
