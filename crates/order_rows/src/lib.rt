// Two tree tables compared: each row of one is looked for in the other by its identity, both ways. The rows of a table are noted by the
// slots of their identities, so that a comparison goes through each table once.
#![tactic(auto)]

ghost use Rattle.std.specs.Prelude.{◌≡◌, ◌≤◌, ◌<◌, length, replicate};
ghost use Rattle.model.specs.Lengths.{tree_size};
ghost use Rattle.order_laws.specs.Marking.{mark_slot};
ghost use Rattle.order_rows.specs.declared.Rows.TheVariants.{Entries, Asides};
ghost use Rattle.order_rows.specs.Compared.{slots_size, Slotted, key_in, row_count, row_alike, row_shown, rows_within, table_within, tables_alike, Rowed, Noted, Table};

use byte_slice::{le16, same};
use log_closure::slot;

// The rows of entries of a table, or those of asides.
#[derive(Clone, Copy, Debug, PartialEq, Eq)]
pub enum Rows {
    Entries,
    Asides,
}

// A row for each unit and number.
const SLOTS: usize = 4096;

// How many rows are used.
fn count_rows(table: &[u8], rows: Rows) -> usize
    requires { length table.now ≡ tree_size }
    ensures { result ≡ row_count rows table.now }
{
    match rows {
        Rows::Entries => usize::from(le16(table, 0)),
        Rows::Asides => usize::from(le16(table, 2)),
    }
}

// The identity in row i.
fn key_at(table: &[u8], rows: Rows, i: usize) -> u32
    requires { (length table.now ≡ tree_size) × (i < 1024) }
    ensures { result ≡ key_in rows table.now i }
{
    match rows {
        Rows::Entries => tree_table::made_at(table, i),
        Rows::Asides => tree_table::identity_at(table, 73732 + 12 * i),
    }
}

// The slot of an identity.
fn slot_of(k: u32) -> usize
    requires { Slotted k }
    ensures { (result ≡ mark_slot k) × (result < slots_size) }
{
    slot((k % 8) as usize, (k / 8) as u16)
}

// Rows i and j of entries show the same: all but the last contents and the last place record.
fn entry_alike(a: &[u8], i: usize, b: &[u8], j: usize) -> bool
    requires { (length a.now ≡ tree_size) × (i < 1024) × (length b.now ≡ tree_size) × (j < 1024) }
    ensures { result ≡ row_alike Entries a.now i b.now j }
{
    let x = 4 + 72 * i;
    let y = 4 + 72 * j;
    if !same(&a[x..x + 12], &b[y..y + 12]) {
        return false;
    }
    let v = 24 + 72 * i;
    let w = 24 + 72 * j;
    same(&a[v..v + 52], &b[w..w + 52])
}

// Rows i and j of asides are the same.
fn aside_alike(a: &[u8], i: usize, b: &[u8], j: usize) -> bool
    requires { (length a.now ≡ tree_size) × (i < 1024) × (length b.now ≡ tree_size) × (j < 1024) }
    ensures { result ≡ row_alike Asides a.now i b.now j }
{
    let x = 73732 + 12 * i;
    let y = 73732 + 12 * j;
    same(&a[x..x + 12], &b[y..y + 12])
}

// Row i of a table shows what row j of another shows.
fn row_alike(a: &[u8], i: usize, b: &[u8], j: usize, rows: Rows) -> bool
    requires { (length a.now ≡ tree_size) × (i < 1024) × (length b.now ≡ tree_size) × (j < 1024) }
    ensures { result ≡ row_alike rows a.now i b.now j }
{
    match rows {
        Rows::Entries => entry_alike(a, i, b, j),
        Rows::Asides => aside_alike(a, i, b, j),
    }
}

// The n rows of a table are noted by the slots of their identities, each as one above its number.
fn note_rows(table: &[u8], rows: Rows, n: usize, notes: &mut [u16])
    requires { Rowed rows table.now × (n ≡ row_count rows table.now) × (notes.old ≡ replicate slots_size 0) }
    ensures { Noted rows table.now (row_count rows table.now) notes.new }
{
    for i in 0..n {
        let s = slot_of(key_at(table, rows, i));
        notes[s] = (i + 1) as u16;
    }
}

// Row i of a is shown by b, whose rows are noted.
fn is_shown(a: &[u8], b: &[u8], rows: Rows, i: usize, notes: &[u16]) -> bool
    requires { Rowed rows a.now × Rowed rows b.now × Noted rows b.now (row_count rows b.now) notes.now × (i < row_count rows a.now) }
    ensures { result ≡ row_shown rows a.now b.now i }
{
    let s = slot_of(key_at(a, rows, i));
    let j = usize::from(notes[s]);
    if j == 0 {
        return false;
    }
    row_alike(a, i, b, j - 1, rows)
}

// Each of the n rows of a is shown by b.
fn all_shown(a: &[u8], b: &[u8], rows: Rows, n: usize, notes: &[u16]) -> bool
    requires { Rowed rows a.now × Rowed rows b.now × Noted rows b.now (row_count rows b.now) notes.now × (n ≡ row_count rows a.now) }
    ensures { result ≡ rows_within rows a.now b.now }
{
    for i in 0..n {
        if !is_shown(a, b, rows, i, notes) {
            return false;
        }
    }
    true
}

// Each row of a, of entries or of asides, is shown by b.
fn rows_within(a: &[u8], b: &[u8], rows: Rows) -> bool
    requires { Rowed rows a.now × Rowed rows b.now }
    ensures { result ≡ rows_within rows a.now b.now }
{
    let mut notes = [0u16; SLOTS];
    note_rows(b, rows, count_rows(b, rows), &mut notes);
    all_shown(a, b, rows, count_rows(a, rows), &notes)
}

// Each row of a is shown by b.
#[tactic(auto, unfolding(crate::specs::Compared::table_within))]
fn table_within(a: &[u8], b: &[u8]) -> bool
    requires { Table a.now × Table b.now }
    ensures { result ≡ table_within a.now b.now }
{
    rows_within(a, b, Rows::Entries) && rows_within(a, b, Rows::Asides)
}

// Two tables show the same entries and the same set of asides.
#[tactic(auto, unfolding(crate::specs::Compared::tables_alike))]
pub fn tables_alike(a: &[u8], b: &[u8]) -> bool
    requires { Table a.now × Table b.now }
    ensures { result ≡ tables_alike a.now b.now }
{
    table_within(a, b) && table_within(b, a)
}
