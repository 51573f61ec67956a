// One entry put into an ordered index, taken out of it, or moved within it.
#![tactic(auto)]

ghost use Rattle.std.specs.Prelude.{◌≡◌, ◌+◌, ◌-◌, ◌*◌, ◌≤◌, ◌<◌, length};
ghost use Rattle.model.specs.Bytes.{put_at};
ghost use Rattle.index_model.specs.Index.{index_size, index_places};
ghost use Rattle.index_model.specs.Change.{row_bytes, put_row, put_in, take_row, take_out, move_in};

use index_model::INDEX_PLACES;

// A row is written: folder, label, entry.
fn write_row(index: &mut [u8], at: usize, folder: u32, label: &[u8], entry: u32)
    requires { (at + 40 ≤ length index.old) × (folder < 524288) × (length label.now ≡ 32) × (entry < 524288) }
    ensures { index.new ≡ put_at index.old at (row_bytes folder label.now entry) }
{
    tree_table::put_identity(index, at, folder);
    byte_slice::put(index, at + 4, label);
    tree_table::put_identity(index, at + 36, entry);
}

// A row becomes row i of n.
fn put_row(index: &mut [u8], n: usize, i: usize, folder: u32, label: &[u8], entry: u32)
    requires { (length index.old ≡ index_size) × (n < index_places) × (i ≤ n) × (folder < 524288) × (length label.now ≡ 32) × (entry < 524288) }
    ensures { index.new ≡ put_row index.old n i (row_bytes folder label.now entry) }
{
    let at = 4 + 40 * i;
    byte_slice::move_up(index, at, 4 + 40 * n, 40);
    write_row(index, at, folder, label, entry);
    byte_slice::put16(index, 0, (n + 1) as u16);
}

// An entry is put in by folder and label; nothing is done where there is no room.
pub fn put_in(index: &mut [u8], folder: u32, label: &[u8], entry: u32)
    requires { (length index.old ≡ index_size) × (folder < 524288) × (length label.now ≡ 32) × (entry < 524288) }
    ensures { index.new ≡ put_in index.old folder label.now entry }
{
    let n = index_find::rows_in(index);
    if n < INDEX_PLACES {
        let i = index_find::seek(index, n, index_find::folder_key(folder), label);
        put_row(index, n, i, folder, label, entry);
    }
}

// Row i of n goes.
fn take_row(index: &mut [u8], n: usize, i: usize)
    requires { (length index.old ≡ index_size) × (n ≤ index_places) × (i < n) }
    ensures { index.new ≡ take_row index.old n i }
{
    let at = 4 + 40 * i;
    let last = 4 + 40 * (n - 1);
    index.copy_within(at + 40..last + 40, at);
    index[last..last + 40].fill(0);
    byte_slice::put16(index, 0, (n - 1) as u16);
}

// The entry of a folder and a label is taken out; nothing is done where there is none.
pub fn take_out(index: &mut [u8], folder: u32, label: &[u8])
    requires { length index.old ≡ index_size }
    ensures { index.new ≡ take_out index.old folder label.now }
{
    let n = index_find::rows_in(index);
    let i = index_find::seek(index, n, index_find::folder_key(folder), label);
    if index_find::row_is(index, n, i, folder, label) {
        take_row(index, n, i);
    }
}

// An entry is put under another folder and label.
pub fn move_in(index: &mut [u8], folder: u32, label: &[u8], to: u32, name: &[u8], entry: u32)
    requires { (length index.old ≡ index_size) × (to < 524288) × (length name.now ≡ 32) × (entry < 524288) }
    ensures { index.new ≡ move_in index.old folder label.now to name.now entry }
{
    take_out(index, folder, label);
    put_in(index, to, name, entry);
}
