// The base that folding leaves: the list given, the vector, the rows of the entries that are present and those of the asides, from a
// working table.
#![tactic(auto)]

ghost use Rattle.std.specs.Prelude.{◌≡◌, ◌+◌, ◌*◌, ◌≤◌, ◌<◌, length};
ghost use Rattle.model.specs.Lengths.{tree_size, base_size, base_places};
ghost use Rattle.model.specs.Bytes.{part, put_at};
ghost use Rattle.model.specs.Replay.{trim};
ghost use Rattle.model.specs.Table.{work_bytes};
ghost use Rattle.base_model.specs.Base.{base_bytes};
ghost use Rattle.tree_table.specs.Rows.{tree_in, AllProper};
ghost use Rattle.tree_finish.specs.Finishing.{kept_to, present_to};
ghost use Rattle.fold_count_laws.specs.Counted.{present_count};
ghost use Rattle.fold_base.specs.Written.{headed, base_of};

use byte_slice::{put, put16};
use tree_table::Size;
use vector::Vector;

// The rows of present entries among the first n of a table are laid one behind another; their count is returned.
fn keep_rows(base: &mut [u8], table: &[u8], n: usize) -> usize
    requires { (length base.old ≡ base_size) × (length table.now ≡ tree_size) × (n ≤ 1024) × (present_to table.now n ≤ base_places) }
    ensures counted { (result ≡ present_to table.now n) × (result ≤ base_places) }
    ensures laid { base.new ≡ put_at base.old 24 (kept_to table.now n) }
{
    let mut j: usize = 0;
    for i in 0..n {
        let at = 4 + 72 * i;
        if table[at] != 0 {
            put(base, 24 + 72 * j, &table[at..at + 72]);
            j += 1;
        }
    }
    j
}

// The rows of the first m asides of a table.
fn keep_asides(base: &mut [u8], table: &[u8], m: usize)
    requires { (length base.old ≡ base_size) × (length table.now ≡ tree_size) × (m ≤ base_places) }
    ensures { base.new ≡ put_at base.old 36888 (part table.now 73732 (12 * m)) }
{
    byte_copy::put(base, 36888, &table[73732..73732 + 12 * m]);
}

// The head: the list, the counts of the rows, the vector.
fn fill_head(base: &mut [u8], list: u8, entries: usize, asides: usize, v: Vector)
    requires { (length base.old ≡ base_size) × (entries ≤ base_places) × (asides ≤ base_places) }
    ensures { base.new ≡ headed base.old list entries asides v.counts }
{
    put(base, 0, &[list, 0]);
    put16(base, 2, entries as u16);
    put16(base, 4, asides as u16);
    vector::put_vector(base, 8, v);
}

// The base of the tree that a working table holds.
pub fn write_base(base: &mut [u8], list: u8, v: Vector, table: &[u8], size: Size)
    requires { (length base.old ≡ base_size) × (length table.now ≡ tree_size) × (table.now ≡ work_bytes (tree_in table.now size.entries size.asides)) × AllProper (tree_in table.now size.entries size.asides).entries × (size.entries ≤ 1024) × (size.asides ≤ base_places) × (present_count (tree_in table.now size.entries size.asides) ≤ base_places) }
    ensures { base.new ≡ base_bytes (base_of list v.counts (trim (tree_in table.now size.entries size.asides))) }
{
    base.fill(0);
    let present = keep_rows(base, table, size.entries);
    keep_asides(base, table, size.asides);
    fill_head(base, list, present, size.asides, v);
}
