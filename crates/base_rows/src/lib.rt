// The rows of a base, each judged alone: an entry of 72 bytes, an aside of 12 bytes.
#![tactic(auto)]

ghost use Rattle.std.specs.Prelude.{◌≡◌, ◌+◌, ◌≤◌, length};
ghost use Rattle.model.specs.Record.{identity_at};
ghost use Rattle.base_model.specs.Base.{names_in, names_or_none, row_kind_fits, row_names_fit, row_date_fits, row_mark_fits, entry_fits, reason_fits, aside_fits};

use byte_slice::le16;
use vector::Vector;

// The identity in the four bytes at a place.
pub fn identity_at(s: &[u8], at: usize) -> u32
    requires { at + 4 ≤ length s.now }
    ensures { result ≡ identity_at s.now at }
{
    8 * u32::from(le16(s, at + 2)) + u32::from(s[at])
}

// An identity is named at a place: unit 0 to 7, a zero byte, a number of at least 1 and within the vector.
pub fn names_in(v: Vector, s: &[u8], at: usize) -> bool
    requires { at + 4 ≤ length s.now }
    ensures { result ≡ names_in v.counts s.now at }
{
    let unit = s[at];
    if 7 < unit {
        return false;
    }
    if s[at + 1] != 0 {
        return false;
    }
    let number = le16(s, at + 2);
    if number < 1 {
        return false;
    }
    number <= v.counts[usize::from(unit)]
}

// Zeros, or a named identity.
pub fn names_or_none(v: Vector, s: &[u8], at: usize) -> bool
    requires { at + 4 ≤ length s.now }
    ensures { result ≡ names_or_none v.counts s.now at }
{
    if (s[at] == 0) & ((s[at + 1] == 0) & (le16(s, at + 2) == 0)) {
        return true;
    }
    names_in(v, s, at)
}

// Kind 1 or 2, then three zeros.
fn kind_fits(s: &[u8], at: usize) -> bool
    requires { at + 4 ≤ length s.now }
    ensures { result ≡ row_kind_fits s.now at }
{
    ((s[at] == 1) | (s[at] == 2)) & ((s[at + 1] == 0) & (le16(s, at + 2) == 0))
}

// Identity, folder, last contents record, last place record.
fn names_fit(v: Vector, s: &[u8], at: usize) -> bool
    requires { at + 72 ≤ length s.now }
    ensures { result ≡ row_names_fit v.counts s.now at }
{
    names_in(v, s, at + 4)
        & (names_or_none(v, s, at + 8) & (names_in(v, s, at + 12) & names_in(v, s, at + 16)))
}

// A real date.
fn date_fits(s: &[u8], at: usize) -> bool
    requires { at + 72 ≤ length s.now }
    ensures { result ≡ row_date_fits s.now at }
{
    record_date::is_date(le16(s, at + 20), s[at + 22], s[at + 23])
}

// The mark of a folder is zero.
fn mark_fits(s: &[u8], at: usize) -> bool
    requires { at + 72 ≤ length s.now }
    ensures { result ≡ row_mark_fits s.now at }
{
    if s[at] == 2 {
        return true;
    }
    let from = at + 56;
    byte_slice::is_blank(&s[from..from + 16])
}

// The row of an entry.
pub fn entry_fits(v: Vector, s: &[u8], at: usize) -> bool
    requires { at + 72 ≤ length s.now }
    ensures { result ≡ entry_fits v.counts s.now at }
{
    let from = at + 24;
    let label = record_label::is_label(&s[from..from + 32]);
    kind_fits(s, at) & (names_fit(v, s, at) & (date_fits(s, at) & (label & mark_fits(s, at))))
}

// Reason 12 to 18 or 25, state 1 or 2, then two zeros.
fn reason_fits(s: &[u8], at: usize) -> bool
    requires { at + 12 ≤ length s.now }
    ensures { result ≡ reason_fits s.now at }
{
    let reason = s[at + 4];
    let state = s[at + 5];
    (((12 <= reason) & (reason <= 18)) | (reason == 25))
        & (((state == 1) | (state == 2)) & (le16(s, at + 6) == 0))
}

// The row of an aside.
pub fn aside_fits(v: Vector, s: &[u8], at: usize) -> bool
    requires { at + 12 ≤ length s.now }
    ensures { result ≡ aside_fits v.counts s.now at }
{
    names_in(v, s, at) & (reason_fits(s, at) & names_or_none(v, s, at + 8))
}
