// Bytes in slices: read, compared, written, cleared and moved.
#![tactic(auto, using(crate::proofs::Ways::ways), unfolding(model::specs::Bytes::word, model::specs::Bytes::long))]

ghost use Rattle.std.specs.Prelude.{◌≡◌, ◌+◌, ◌-◌, ◌≤◌, ◌<◌, length, replicate};
ghost use Rattle.model.specs.Bytes.{word, long, two, four, same_bytes, blank, part, put_at};

// The 16-bit number at a place.
pub fn le16(s: &[u8], at: usize) -> u16
    requires { at + 1 < length s.now }
    ensures { result ≡ word s.now at }
{
    u16::from(s[at]) + 256 * u16::from(s[at + 1])
}

// The 32-bit number at a place.
pub fn le32(s: &[u8], at: usize) -> u32
    requires { at + 3 < length s.now }
    ensures { result ≡ long s.now at }
{
    u32::from(le16(s, at)) + 65536 * u32::from(le16(s, at + 2))
}

// The same bytes. Slices of different lengths are not the same.
pub fn same(a: &[u8], b: &[u8]) -> bool
    ensures { result ≡ same_bytes a.now b.now }
{
    a == b
}

// The n bytes from a place on are zero. No byte ends the loop early: many are compared at once.
fn blank_run(s: &[u8], at: usize, n: usize) -> bool
    requires { at + n ≤ length s.now }
    ensures { result ≡ blank (part s.now at n) }
{
    let mut zeros = true;
    for i in 0..n {
        zeros = zeros & (s[at + i] == 0);
    }
    zeros
}

// Every byte is zero. They are judged 64 at a time, and then the rest: a step is no single index, and `all` goes byte by byte.
pub fn is_blank(s: &[u8]) -> bool
    ensures { result ≡ blank s.now }
{
    let mut at: usize = 0;
    while 64 <= s.len() - at {
        if !blank_run(s, at, 64) {
            return false;
        }
        at += 64;
    }
    blank_run(s, at, s.len() - at)
}

// All of src is written into dst from a place on.
pub fn put(dst: &mut [u8], at: usize, src: &[u8])
    requires { at + length src.now ≤ length dst.old }
    ensures { dst.new ≡ put_at dst.old at src.now }
{
    dst[at..at + src.len()].copy_from_slice(src);
}

// A number is written in two bytes, the lower first.
pub fn put16(dst: &mut [u8], at: usize, v: u16)
    requires { at + 2 ≤ length dst.old }
    ensures { dst.new ≡ put_at dst.old at (two v) }
{
    dst[at] = (v % 256) as u8;
    dst[at + 1] = (v / 256) as u8;
}

// A number is written in four bytes, the lowest first.
pub fn put32(dst: &mut [u8], at: usize, v: u32)
    requires { at + 4 ≤ length dst.old }
    ensures { dst.new ≡ put_at dst.old at (four v) }
{
    put16(dst, at, (v % 65536) as u16);
    put16(dst, at + 2, (v / 65536) as u16);
}

// Every byte becomes zero.
pub fn clear(dst: &mut [u8])
    ensures { dst.new ≡ replicate (length dst.old) 0 }
{
    dst.fill(0);
}

// The bytes from one place up to another move up, where the places may overlap.
pub fn move_up(buf: &mut [u8], from: usize, to: usize, by: usize)
    requires { (from ≤ to) × (to + by ≤ length buf.old) × (0 < by) }
    ensures { buf.new ≡ put_at buf.old (from + by) (part buf.old from (to - from)) }
{
    buf.copy_within(from..to, from + by);
}
