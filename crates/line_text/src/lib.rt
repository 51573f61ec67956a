// Text written into lent bytes: words, numbers, identities, dates. Each function answers the place behind what it wrote.
#![tactic(auto)]

ghost use Rattle.std.specs.Prelude.{◌≡◌, ◌+◌, ◌≤◌, ◌<◌, [], ◌∷◌, length};
ghost use Rattle.model.specs.Listing.{decimal, identity_text, date_text};
ghost use Rattle.model.specs.Bytes.{put_at};
ghost use Rattle.line_text.specs.Written.{Wrote};

// A word is written.
pub fn put_word(out: &mut [u8], at: usize, s: &[u8]) -> usize
    requires { at + length s.now ≤ length out.old }
    ensures { Wrote out.old out.new at result s.now }
{
    byte_slice::put(out, at, s);
    at + s.len()
}

// One byte is written.
pub fn put_byte(out: &mut [u8], at: usize, b: u8) -> usize
    requires { at + 1 ≤ length out.old }
    ensures { Wrote out.old out.new at result (b ∷ []) }
{
    out[at] = b;
    at + 1
}

// How many digits a number has.
fn digits(n: u32) -> usize
    ensures { result ≡ length (decimal n) }
{
    let mut k: usize = 1;
    let mut left = n;
    // A walk by tenths, not by one index.
    while 10 <= left {
        left = left / 10;
        k += 1;
    }
    k
}

// The digit that stands for a number below 10.
fn digit(n: u32) -> u8
    requires { n < 10 }
    ensures { result ≡ 48 + n }
{
    48 + n as u8
}

// The last k digits of a number are written, the last first.
fn put_digits(out: &mut [u8], at: usize, n: u32, k: usize)
    requires { (k ≡ length (decimal n)) × (at + k ≤ length out.old) }
    ensures { out.new ≡ put_at out.old at (decimal n) }
{
    let mut left = n;
    for i in (0..k).rev() {
        out[at + i] = digit(left % 10);
        left = left / 10;
    }
}

// A number is written in decimal.
pub fn put_decimal(out: &mut [u8], at: usize, n: u32) -> usize
    requires { at + length (decimal n) ≤ length out.old }
    ensures { Wrote out.old out.new at result (decimal n) }
{
    let k = digits(n);
    put_digits(out, at, n, k);
    at + k
}

// A byte in decimal.
pub fn put_small(out: &mut [u8], at: usize, x: u8) -> usize
    requires { at + length (decimal x) ≤ length out.old }
    ensures { Wrote out.old out.new at result (decimal x) }
{
    put_decimal(out, at, u32::from(x))
}

// A 16-bit number in decimal.
pub fn put_number(out: &mut [u8], at: usize, x: u16) -> usize
    requires { at + length (decimal x) ≤ length out.old }
    ensures { Wrote out.old out.new at result (decimal x) }
{
    put_decimal(out, at, u32::from(x))
}

// The identity in four bytes is written as unit.number.
pub fn put_identity(out: &mut [u8], at: usize, b: &[u8]) -> usize
    requires { (length b.now ≡ 4) × (at + length (identity_text b.now) ≤ length out.old) }
    ensures { Wrote out.old out.new at result (identity_text b.now) }
{
    let dot = put_small(out, at, b[0]);
    let rest = put_byte(out, dot, b'.');
    put_number(out, rest, byte_slice::le16(b, 2))
}

// The date in four bytes is written as 2025-03-03.
pub fn put_date(out: &mut [u8], at: usize, b: &[u8]) -> usize
    requires { (length b.now ≡ 4) × (at + length (date_text b.now) ≤ length out.old) }
    ensures { Wrote out.old out.new at result (date_text b.now) }
{
    let y = u32::from(byte_slice::le16(b, 0));
    let m = u32::from(b[2]);
    let d = u32::from(b[3]);
    let text = [
        digit(y / 1000 % 10),
        digit(y / 100 % 10),
        digit(y / 10 % 10),
        digit(y % 10),
        b'-',
        digit(m / 10 % 10),
        digit(m % 10),
        b'-',
        digit(d / 10 % 10),
        digit(d % 10),
    ];
    put_word(out, at, &text)
}
