// Version vectors: eight counts, one for each unit.
#![tactic(auto, using(crate::proofs::Ways::ways))]

ghost use Rattle.std.specs.Prelude.{◌≡◌, true, cond, ◌+◌, ◌-◌, ◌≤◌, ◌<◌, length, get_or, set, replicate};
ghost use Rattle.model.specs.Bytes.{put_at};
ghost use Rattle.model.specs.Vector.{covers, lacks_of, vector_at, vector_bytes};

use byte_slice::{le16, put16};

#[derive(Clone, Copy, Drop)]
pub struct Vector {
    pub counts: [u16; 8],
}

// Every count of a is at least that of b. No count ends the loop early: all eight are compared at once.
pub fn covers(a: Vector, b: Vector) -> bool
    ensures { result ≡ covers a.counts b.counts }
{
    let mut covered = true;
    for u in 0..8 {
        covered = covered & (b.counts[u] <= a.counts[u]);
    }
    covered
}

// How many records a lacks against b: of each unit what b has more.
pub fn lacks(a: Vector, b: Vector) -> u32
    ensures { (result ≡ lacks_of a.counts b.counts) × (result < 524281) }
{
    let mut sum: u32 = 0;
    for u in 0..8 {
        sum += u32::from(b.counts[u].saturating_sub(a.counts[u]));
    }
    sum
}

// The vector that stands at a place.
pub fn vector_at(s: &[u8], at: usize) -> Vector
    requires { at + 16 ≤ length s.now }
    ensures { result.counts ≡ vector_at s.now at }
{
    Vector {
        counts: [
            le16(s, at),
            le16(s, at + 2),
            le16(s, at + 4),
            le16(s, at + 6),
            le16(s, at + 8),
            le16(s, at + 10),
            le16(s, at + 12),
            le16(s, at + 14),
        ],
    }
}

// A vector is written, eight counts of two bytes.
pub fn put_vector(dst: &mut [u8], at: usize, v: Vector)
    requires { at + 16 ≤ length dst.old }
    ensures { dst.new ≡ put_at dst.old at (vector_bytes v.counts) }
{
    for u in 0..8 {
        put16(dst, at + 2 * u, v.counts[u]);
    }
}

// The vector of nothing.
pub fn zero_vector() -> Vector
    ensures { result.counts ≡ replicate 8 0 }
{
    Vector { counts: [0; 8] }
}

// A count, one higher if it is the one that counts a record more.
fn counted(c: u16, more: bool) -> u16
    requires { more ≡ true → c < 65535 }
    ensures { result ≡ cond more (c + 1) c }
{
    if more {
        return c + 1;
    }
    c
}

// One record more of a unit. All eight counts are written, so that they are written at once.
pub fn bump(v: Vector, u: usize) -> Vector
    requires { (u < 8) × (get_or v.counts u 0 < 65535) }
    ensures { result.counts ≡ set v.counts u (get_or v.counts u 0 + 1) }
{
    Vector {
        counts: [
            counted(v.counts[0], u == 0),
            counted(v.counts[1], u == 1),
            counted(v.counts[2], u == 2),
            counted(v.counts[3], u == 3),
            counted(v.counts[4], u == 4),
            counted(v.counts[5], u == 5),
            counted(v.counts[6], u == 6),
            counted(v.counts[7], u == 7),
        ],
    }
}
