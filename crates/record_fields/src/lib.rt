// The fields of an 80-byte record, each judged by the operation.
#![tactic(auto, using(crate::proofs::Tests::ways))]

ghost use Rattle.std.specs.Prelude.{◌≡◌, ◌+◌, ◌≤◌, length};
ghost use Rattle.model.specs.Bytes.{blank, part};
ghost use Rattle.model.specs.Record.{names, head_fits, object_fits, folder_fits, date_fits, label_fits, mark_fits};

use byte_slice::{le16, le32};
use record_uses::{is_operation, uses_folder, uses_label, uses_mark, uses_object};

// ---- unused fields

// The four bytes from a place on are zero.
fn blank_4(rec: &[u8], at: usize) -> bool
    requires { at + 4 ≤ length rec.now }
    ensures { result ≡ blank (part rec.now at 4) }
{
    le32(rec, at) == 0
}

// The 16 bytes from a place on are zero.
fn blank_16(rec: &[u8], at: usize) -> bool
    requires { at + 16 ≤ length rec.now }
    ensures { result ≡ blank (part rec.now at 16) }
{
    blank_4(rec, at) & blank_4(rec, at + 4) & blank_4(rec, at + 8) & blank_4(rec, at + 12)
}

// ---- the fields

// An identity is named at a place: unit 0 to 7, a zero byte, a number of at least 1 and within seen.
pub fn names(rec: &[u8], at: usize) -> bool
    requires { (length rec.now ≡ 80) × (at ≤ 24) }
    ensures { result ≡ names rec.now at }
{
    let unit = rec[at];
    let number = le16(rec, at + 2);
    unit <= 7 && rec[at + 1] == 0 && 1 <= number && number <= le16(rec, 4 + 2 * usize::from(unit))
}

// Unit, operation and number, and seen at the own unit is the number minus 1.
pub fn head_fits(rec: &[u8]) -> bool
    requires { length rec.now ≡ 80 }
    ensures { result ≡ head_fits rec.now }
{
    let unit = rec[0];
    let number = le16(rec, 2);
    unit <= 7
        && is_operation(rec[1])
        && 1 <= number
        && le16(rec, 4 + 2 * usize::from(unit)) == number - 1
}

// A used object is named, an unused one is zero.
pub fn object_fits(rec: &[u8]) -> bool
    requires { length rec.now ≡ 80 }
    ensures { result ≡ object_fits rec.now }
{
    if uses_object(rec[1]) {
        names(rec, 20)
    } else {
        blank_4(rec, 20)
    }
}

// A used folder is the root or named, an unused one is zero.
pub fn folder_fits(rec: &[u8]) -> bool
    requires { length rec.now ≡ 80 }
    ensures { result ≡ folder_fits rec.now }
{
    blank_4(rec, 24) || uses_folder(rec[1]) && names(rec, 24)
}

// The date is real; every operation uses it.
pub fn date_fits(rec: &[u8]) -> bool
    requires { length rec.now ≡ 80 }
    ensures { result ≡ date_fits rec.now }
{
    record_date::is_date(le16(rec, 28), rec[30], rec[31])
}

// A used label is a label, an unused one is zero.
pub fn label_fits(rec: &[u8]) -> bool
    requires { length rec.now ≡ 80 }
    ensures { result ≡ label_fits rec.now }
{
    if uses_label(rec[1]) {
        record_label::is_label(&rec[32..64])
    } else {
        blank_16(rec, 32) & blank_16(rec, 48)
    }
}

// A used mark is any bytes, an unused one is zero.
pub fn mark_fits(rec: &[u8]) -> bool
    requires { length rec.now ≡ 80 }
    ensures { result ≡ mark_fits rec.now }
{
    uses_mark(rec[1]) || blank_16(rec, 64)
}
