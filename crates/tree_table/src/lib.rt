// Rows of the tree table in bytes: what a row holds, read field by field, and rows written.
#![tactic(auto)]

ghost use Rattle.std.specs.Prelude.{◌≡◌, ◌+◌, ◌*◌, ◌≤◌, ◌<◌, eqb, length};
ghost use Rattle.model.specs.Bytes.{put_at};
ghost use Rattle.model.specs.Record.{op, identity_at, self_of, object_of, folder_of};
ghost use Rattle.model.specs.Replay.{is_present};
ghost use Rattle.model.specs.Table.{identity_bytes, aside_row, entry_in};
ghost use Rattle.record_uses.specs.Operations.{number_of};
ghost use Rattle.tree_table.specs.Rows.{new_aside, new_row, stored_row, renamed_row, moved_row};

use record_uses::Operation;

// How many rows of entries and of asides a table has.
#[derive(Clone, Copy, Debug, PartialEq, Eq)]
pub struct Size {
    pub entries: usize,
    pub asides: usize,
}

// What a record of a known operation does.
#[tactic(auto, unfolding(model::specs::Record::op))]
pub fn operation_of(rec: &[u8]) -> Operation
    requires { (length rec.now ≡ 80) × (1 ≤ op rec.now) × (op rec.now ≤ 7) }
    ensures { number_of result ≡ op rec.now }
{
    Operation::numbered(rec[1])
}

// The identity in the four bytes at a place.
pub fn identity_at(s: &[u8], at: usize) -> u32
    requires { at + 3 < length s.now }
    ensures { result ≡ identity_at s.now at }
{
    8 * u32::from(byte_slice::le16(s, at + 2)) + u32::from(s[at])
}

// The identity of a record.
pub fn self_of(rec: &[u8]) -> u32
    requires { length rec.now ≡ 80 }
    ensures { result ≡ self_of rec.now }
{
    identity_at(rec, 0)
}

// The object that a record names.
pub fn object_of(rec: &[u8]) -> u32
    requires { length rec.now ≡ 80 }
    ensures { result ≡ object_of rec.now }
{
    identity_at(rec, 20)
}

// The folder that a record names.
pub fn folder_of(rec: &[u8]) -> u32
    requires { length rec.now ≡ 80 }
    ensures { result ≡ folder_of rec.now }
{
    identity_at(rec, 24)
}

// An identity is written in four bytes.
pub fn put_identity(dst: &mut [u8], at: usize, k: u32)
    requires { (at + 4 ≤ length dst.old) × (k < 524288) }
    ensures { dst.new ≡ put_at dst.old at (identity_bytes k) }
{
    dst[at] = (k % 8) as u8;
    dst[at + 1] = 0;
    byte_slice::put16(dst, at + 2, (k / 8) as u16);
}

// The kind of the entry in row i.
pub fn kind_at(table: &[u8], i: usize) -> u8
    requires { (length table.now ≡ 86020) × (i < 1024) }
    ensures { result ≡ (entry_in table.now (4 + 72 * i)).kind }
{
    table[4 + 72 * i]
}

// The entry in row i is a folder.
pub fn is_folder(table: &[u8], i: usize) -> bool
    requires { (length table.now ≡ 86020) × (i < 1024) }
    ensures { result ≡ eqb (entry_in table.now (4 + 72 * i)).kind 1 }
{
    kind_at(table, i) == 1
}

// The entry in row i is present: it was not removed.
#[tactic(auto, unfolding(model::specs::Replay::is_present))]
pub fn is_present(table: &[u8], i: usize) -> bool
    requires { (length table.now ≡ 86020) × (i < 1024) }
    ensures { result ≡ is_present (entry_in table.now (4 + 72 * i)) }
{
    kind_at(table, i) != 0
}

// The identity of the entry in row i.
pub fn made_at(table: &[u8], i: usize) -> u32
    requires { (length table.now ≡ 86020) × (i < 1024) }
    ensures { result ≡ (entry_in table.now (4 + 72 * i)).made }
{
    identity_at(table, 4 + 72 * i + 4)
}

// The folder of the entry in row i.
pub fn inside_at(table: &[u8], i: usize) -> u32
    requires { (length table.now ≡ 86020) × (i < 1024) }
    ensures { result ≡ (entry_in table.now (4 + 72 * i)).inside }
{
    identity_at(table, 4 + 72 * i + 8)
}

// The last contents record of the entry in row i.
pub fn contents_at(table: &[u8], i: usize) -> u32
    requires { (length table.now ≡ 86020) × (i < 1024) }
    ensures { result ≡ (entry_in table.now (4 + 72 * i)).contents }
{
    identity_at(table, 4 + 72 * i + 12)
}

// The last place record of the entry in row i.
pub fn placing_at(table: &[u8], i: usize) -> u32
    requires { (length table.now ≡ 86020) × (i < 1024) }
    ensures { result ≡ (entry_in table.now (4 + 72 * i)).placing }
{
    identity_at(table, 4 + 72 * i + 16)
}

// The row of the entry that a make record makes: the number of the operation is that of the kind.
pub fn fill_row(row: &mut [u8], rec: &[u8])
    requires { (length row.old ≡ 72) × (length rec.now ≡ 80) × (self_of rec.now < 524288) × (folder_of rec.now < 524288) }
    ensures { row.new ≡ new_row row.old rec.now }
{
    let me = self_of(rec);
    let head = [rec[1], 0, 0, 0];
    byte_slice::put(row, 0, &head);
    put_identity(row, 4, me);
    put_identity(row, 8, folder_of(rec));
    put_identity(row, 12, me);
    put_identity(row, 16, me);
    byte_slice::put(row, 20, &rec[28..80]);
}

// A row after a store.
pub fn store_row(row: &mut [u8], rec: &[u8])
    requires { (length row.old ≡ 72) × (length rec.now ≡ 80) × (self_of rec.now < 524288) }
    ensures { row.new ≡ stored_row row.old rec.now }
{
    put_identity(row, 12, self_of(rec));
    byte_slice::put(row, 20, &rec[28..32]);
    byte_slice::put(row, 56, &rec[64..80]);
}

// A row after a rename.
pub fn rename_row(row: &mut [u8], rec: &[u8])
    requires { (length row.old ≡ 72) × (length rec.now ≡ 80) × (self_of rec.now < 524288) }
    ensures { row.new ≡ renamed_row row.old rec.now }
{
    put_identity(row, 16, self_of(rec));
    byte_slice::put(row, 24, &rec[32..64]);
}

// A row after a move.
pub fn move_row(row: &mut [u8], rec: &[u8])
    requires { (length row.old ≡ 72) × (length rec.now ≡ 80) × (self_of rec.now < 524288) × (folder_of rec.now < 524288) }
    ensures { row.new ≡ moved_row row.old rec.now }
{
    put_identity(row, 8, folder_of(rec));
    rename_row(row, rec);
}

// The row of a record that stands aside.
pub fn fill_aside(row: &mut [u8], who: u32, reason: u8, marked: u32)
    requires { (length row.old ≡ 12) × (who < 524288) × (marked < 524288) }
    ensures { row.new ≡ aside_row (new_aside who reason marked) }
{
    let state = [reason, 1, 0, 0];
    put_identity(row, 0, who);
    byte_slice::put(row, 4, &state);
    put_identity(row, 8, marked);
}
