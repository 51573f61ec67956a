// The ordered index made afresh from a tree table: its rows put in order by their numbers, then a row written for each.
#![tactic(auto)]

ghost use Rattle.std.specs.Prelude.{◌≡◌, ◌∷◌, ◌+◌, ◌-◌, ◌*◌, ◌≤◌, ◌<◌, length, take};
ghost use Rattle.model.specs.Lengths.{tree_size};
ghost use Rattle.model.specs.Bytes.{word, part, put_at};
ghost use Rattle.index_model.specs.Index.{index_size, index_places, key_before, folder_key, halve};
ghost use Rattle.index_laws.specs.Copied.{entry_row_at, order_before, ordered_rows, copied_row, copied_rows, index_from, Low};

use index_model::INDEX_PLACES;

// Row i of a table comes before a label in the folder of a key.
fn row_before(table: &[u8], i: usize, key: u64, label: &[u8]) -> bool
    requires { (length table.now ≡ tree_size) × (i < index_places) }
    ensures { result ≡ key_before (folder_key (entry_row_at table.now i).inside) (entry_row_at table.now i).label key label.now }
{
    let folder = tree_table::inside_at(table, i);
    let from = 4 + 72 * i + 24;
    index_find::key_before(
        index_find::folder_key(folder),
        &table[from..from + 32],
        key,
        label,
    )
}

// Where a row goes among the first k of an order, by halving.
fn place(table: &[u8], order: &[u16], k: usize, row: usize) -> usize
    requires { (length table.now ≡ tree_size) × (row < index_places) × (k ≤ index_places) × (k ≤ length order.now) × Low order.now k }
    ensures { (result ≡ halve (order_before table.now order.now row) 11 0 k) × (result ≤ k) }
{
    let key = index_find::folder_key(tree_table::inside_at(table, row));
    let from = 4 + 72 * row + 24;
    let label = &table[from..from + 32];
    index_find::halve(k, |i| row_before(table, usize::from(order[i]), key, label))
}

// A row is put into an order of k rows.
fn insert(order: &mut [u16], at: usize, k: usize, row: usize)
    requires { (at ≤ k) × (k < length order.old) × (row < index_places) }
    ensures { order.new ≡ put_at order.old at (row ∷ part order.old at (k - at)) }
{
    order.copy_within(at..k, at + 1);
    order[at] = row as u16;
}

// The first n rows of a table in order, the last row first.
fn order_rows(table: &[u8], n: usize, order: &mut [u16])
    requires { (length table.now ≡ tree_size) × (n ≤ index_places) × (length order.old ≡ index_places) }
    ensures { (take n order.new ≡ ordered_rows table.now 0 n) × (length order.new ≡ index_places) }
{
    for k in 0..n {
        let row = n - k - 1;
        let at = place(table, order, k, row);
        insert(order, at, k, row);
    }
}

// The n bytes from a place on are copied to another.
fn copy_part(src: &[u8], from: usize, n: usize, dst: &mut [u8], at: usize)
    requires { (from + n ≤ length src.now) × (at + n ≤ length dst.old) }
    ensures { dst.new ≡ put_at dst.old at (part src.now from n) }
{
    byte_slice::put(dst, at, &src[from..from + n]);
}

// Row j of an index is written for a row of a table: folder, label, entry.
fn copy_row(table: &[u8], row: usize, index: &mut [u8], j: usize)
    requires { (length table.now ≡ tree_size) × (row < index_places) × (length index.old ≡ index_size) × (j < index_places) }
    ensures { index.new ≡ put_at index.old (4 + 40 * j) (copied_row table.now row) }
{
    let at = 4 + 40 * j;
    let from = 4 + 72 * row;
    copy_part(table, from + 8, 4, index, at);
    copy_part(table, from + 24, 32, index, at + 4);
    copy_part(table, from + 4, 4, index, at + 36);
}

// Rows of an index are written for the first n rows of an order.
fn write_rows(table: &[u8], order: &[u16], n: usize, index: &mut [u8])
    requires { (length table.now ≡ tree_size) × (n ≤ index_places) × (n ≤ length order.now) × Low order.now n × (length index.old ≡ index_size) }
    ensures { index.new ≡ put_at index.old 4 (copied_rows table.now (take n order.now)) }
{
    for j in 0..n {
        copy_row(table, usize::from(order[j]), index, j);
    }
}

// The index of the first n entries of a table.
fn write_index(table: &[u8], n: usize, index: &mut [u8], order: &mut [u16])
    requires { (length table.now ≡ tree_size) × (n ≤ index_places) × (length index.old ≡ index_size) × (length order.old ≡ index_places) }
    ensures { index.new ≡ index_from table.now n }
{
    index.fill(0);
    order_rows(table, n, order);
    write_rows(table, order, n, index);
    byte_slice::put16(index, 0, n as u16);
}

// The index of the entries that a table shows.
pub fn make_index(table: &[u8], index: &mut [u8])
    requires { (length table.now ≡ tree_size) × (word table.now 0 ≤ index_places) × (length index.old ≡ index_size) }
    ensures { index.new ≡ index_from table.now (word table.now 0) }
{
    let n = usize::from(byte_slice::le16(table, 0));
    let mut order = [0u16; INDEX_PLACES];
    write_index(table, n, index, &mut order);
}
