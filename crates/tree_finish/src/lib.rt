// A working table becomes the table shown: flags for disputed entries, present rows alone, counts.
#![tactic(auto)]

ghost use Rattle.std.specs.Prelude.{◌≡◌, ◌+◌, ◌-◌, ◌*◌, ◌≤◌, ◌<◌, length, set, take, replicate};
ghost use Rattle.model.specs.Bytes.{part, put_at};
ghost use Rattle.model.specs.Table.{table_bytes};
ghost use Rattle.tree_table.specs.Rows.{asides_from, tree_in};
ghost use Rattle.tree_lookup.specs.Roles.{Holds};
ghost use Rattle.tree_finish.specs.Finishing.{Marked, Kept, Compacted, trimmed};

use tree_table::Size;

// A row with its flag set.
fn flag_row(row: &mut [u8])
    requires { length row.old ≡ 72 }
    ensures { row.new ≡ set row.old 1 1 }
{
    row[1] = 1;
}

// The entry that aside i marks is flagged, if the aside is open and the entry ever was made.
pub fn flag_one(table: &mut [u8], register: &[u16], size: Size, i: usize)
    requires { Marked (take i (asides_from table.old 0 size.asides)) table.old register.now size.entries size.asides (tree_in table.old size.entries size.asides) × (i < size.asides) }
    ensures { Marked (take (i + 1) (asides_from table.old 0 size.asides)) table.new register.now size.entries size.asides (tree_in table.old size.entries size.asides) }
{
    let note = 73732 + 12 * i;
    if table[note + 5] != 1 {
        return;
    }
    let k = tree_table::identity_at(table, note + 8);
    if k == 0 {
        return;
    }
    let role = tree_lookup::role_of(table, register, size, k);
    if role == 0 {
        return;
    }
    if size.entries < role {
        return;
    }
    let at = 4 + 72 * (role - 1);
    flag_row(&mut table[at..at + 72]);
}

// The entries that open asides mark are flagged.
pub fn flag(table: &mut [u8], register: &[u16], size: Size)
    requires { Holds table.old register.now size.entries size.asides }
    ensures { Marked (asides_from table.old 0 size.asides) table.new register.now size.entries size.asides (tree_in table.old size.entries size.asides) }
{
    for i in 0..size.asides {
        flag_one(table, register, size, i);
    }
}

// Row i becomes row j, unless its entry was removed; the row that comes next.
pub fn keep_row(table: &mut [u8], i: usize, j: usize) -> usize
    requires { (length table.old ≡ 86020) × (i < 1024) × (j ≤ i) }
    ensures { Kept table.old table.new i j result }
{
    let at = 4 + 72 * i;
    if table[at] == 0 {
        return j;
    }
    table.copy_within(at..at + 72, 4 + 72 * j);
    j + 1
}

// The rows of present entries move to the front.
pub fn compact(table: &mut [u8], n: usize) -> usize
    requires { (length table.old ≡ 86020) × (n ≤ 1024) }
    ensures { Compacted table.old table.new n result }
{
    let mut j: usize = 0;
    for i in 0..n {
        j = keep_row(table, i, j);
    }
    j
}

// The rows from one up to another become zero.
pub fn clear_rows(table: &mut [u8], from: usize, to: usize)
    requires { (length table.old ≡ 86020) × (from ≤ to) × (to ≤ 1024) }
    ensures { table.new ≡ put_at table.old (4 + 72 * from) (replicate (72 * (to - from)) 0) }
{
    let at = 4 + 72 * from;
    let n = 72 * (to - from);
    table[at..at + n].fill(0);
}

// The rows of present entries alone, zeros behind them, and the counts.
pub fn trim(table: &mut [u8], n: usize, m: usize)
    requires { (length table.old ≡ 86020) × (n ≤ 1024) × (m ≤ 1024) }
    ensures { table.new ≡ trimmed table.old n m }
{
    let present = compact(table, n);
    clear_rows(table, present, n);
    byte_slice::put16(table, 0, present as u16);
    byte_slice::put16(table, 2, m as u16);
}

// The table shown: flags for disputed entries, then present rows alone.
pub fn finish(table: &mut [u8], register: &[u16], size: Size)
    requires { Holds table.old register.now size.entries size.asides }
    ensures { table.new ≡ table_bytes (tree_in table.old size.entries size.asides) }
{
    flag(table, register, size);
    trim(table, size.entries, size.asides);
}
