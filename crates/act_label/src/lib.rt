// The label of a wish: its bytes are judged by a table. And all else that is asked of its record before it has a number.
#![tactic(auto)]

ghost use Rattle.std.specs.Prelude.{◌≡◌, length};
ghost use Rattle.model.specs.Lengths.{record_size};
ghost use Rattle.act_bytes.specs.Table.{Right};
ghost use Rattle.refusal.specs.Refusals.{code_of};
ghost use Rattle.act_label.specs.Label.{text_number, label_number, field_number, body_fits};

use act_bytes::{label_table, may_stand};
use record_uses::{is_operation, uses_label};
use refusal::Refusal;

// ---- the label

// Of the bytes of a text: refused with 7 if one may not stand and is no stroke, with 24 if one is a stroke.
fn check_text(text: &[u8], table: &[u8]) -> Result<(), Refusal>
    requires { Right table.now }
    ensures { code_of result ≡ text_number text.now (length text.now) }
{
    let mut stand = true;
    let mut plain = true;
    for &x in text {
        let yes = may_stand(x, table);
        stand = stand & yes;
        plain = plain & (yes | (x == 47));
    }
    if stand {
        return Ok(());
    }
    if plain {
        return Err(Refusal::StrokeInLabel);
    }
    Err(Refusal::Malformed)
}

// Refused: 7 for a text that is no label, 24 for a stroke in it. The zeros behind the text are not asked of the table.
fn check_label(t: &[u8]) -> Result<(), Refusal>
    ensures { code_of result ≡ label_number t.now }
{
    let n = record_label::text_length(t);
    if n < 1 {
        return Err(Refusal::Malformed);
    }
    if t[0] == 32 {
        return Err(Refusal::Malformed);
    }
    if t[n - 1] == 32 {
        return Err(Refusal::Malformed);
    }
    if !byte_slice::is_blank(&t[n..t.len()]) {
        return Err(Refusal::Malformed);
    }
    let table = label_table();
    check_text(&t[..n], &table)
}

// The same of the label field of a record, by its operation: a label that is not used is zero, else 7.
pub fn check_field(rec: &[u8]) -> Result<(), Refusal>
    requires { length rec.now ≡ record_size }
    ensures { code_of result ≡ field_number rec.now }
{
    if uses_label(rec[1]) {
        return check_label(&rec[32..64]);
    }
    if !byte_slice::is_blank(&rec[32..64]) {
        return Err(Refusal::Malformed);
    }
    Ok(())
}

// ---- the rest of the record

// The operation is known, and each field but the label fits. Unit and number are not asked: the two bytes of the number are not read.
pub fn body_fits(rec: &[u8]) -> bool
    requires { length rec.now ≡ record_size }
    ensures { result ≡ body_fits rec.now }
{
    if !is_operation(rec[1]) {
        return false;
    }
    if !record_fields::object_fits(rec) {
        return false;
    }
    if !record_fields::folder_fits(rec) {
        return false;
    }
    if !record_fields::date_fits(rec) {
        return false;
    }
    record_fields::mark_fits(rec)
}
