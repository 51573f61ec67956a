// Text written into lent bytes: marks in hexadecimal, labels between quotes. Each function answers the place behind what it wrote.
#![tactic(auto)]

ghost use Rattle.std.specs.Prelude.{◌≡◌, ◌+◌, ◌≤◌, ◌<◌, [], ◌∷◌, ◌||◌, eqb, length};
ghost use Rattle.model.specs.Listing.{hex_digit, hex_text, escaped, label_text};
ghost use Rattle.line_text.specs.Written.{Wrote};

use line_text::{put_byte, put_word};

// The digit that stands for a number below 16.
fn hex_digit(n: u8) -> u8
    requires { n < 16 }
    ensures { result ≡ hex_digit n }
{
    if n < 10 { 48 + n } else { 87 + n }
}

// One byte is written in hexadecimal.
fn put_hex_byte(out: &mut [u8], at: usize, x: u8) -> usize
    requires { at + 2 ≤ length out.old }
    ensures { Wrote out.old out.new at result (hex_text (x ∷ [])) }
{
    let text = [hex_digit(x / 16), hex_digit(x % 16)];
    put_word(out, at, &text)
}

// Bytes are written in hexadecimal.
pub fn put_hex(out: &mut [u8], at: usize, b: &[u8]) -> usize
    requires { at + length (hex_text b.now) ≤ length out.old }
    ensures { Wrote out.old out.new at result (hex_text b.now) }
{
    let mut m = at;
    for &x in b {
        m = put_hex_byte(out, m, x);
    }
    m
}

// Quote or backslash.
fn needs_escape(x: u8) -> bool
    ensures { result ≡ (eqb x 34 || eqb x 92) }
{
    x == b'"' || x == b'\\'
}

// One byte of a label is written; quote and backslash get a backslash before them.
fn put_escaped_byte(out: &mut [u8], at: usize, x: u8) -> usize
    requires { at + length (escaped (x ∷ [])) ≤ length out.old }
    ensures { Wrote out.old out.new at result (escaped (x ∷ [])) }
{
    if needs_escape(x) {
        let text = [b'\\', x];
        return put_word(out, at, &text);
    }
    put_byte(out, at, x)
}

// The bytes of a label are written, escaped.
pub fn put_escaped(out: &mut [u8], at: usize, t: &[u8]) -> usize
    requires { at + length (escaped t.now) ≤ length out.old }
    ensures { Wrote out.old out.new at result (escaped t.now) }
{
    let mut m = at;
    for &x in t {
        m = put_escaped_byte(out, m, x);
    }
    m
}

// A label is written between quotes.
pub fn put_label(out: &mut [u8], at: usize, t: &[u8]) -> usize
    requires { at + length (label_text t.now) ≤ length out.old }
    ensures { Wrote out.old out.new at result (label_text t.now) }
{
    let n = record_label::text_length(t);
    let text = put_byte(out, at, b'"');
    let end = put_escaped(out, text, &t[0..n]);
    put_byte(out, end, b'"')
}
