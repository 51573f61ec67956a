// Looking up in a table of rows: the role of an identity, an entry by its identity, the holder of a label in a folder.
#![tactic(auto)]

ghost use Rattle.std.specs.Prelude.{◌≡◌, ◌+◌, ◌*◌, ◌≤◌, ◌<◌, length, IfSome};
ghost use Rattle.model.specs.Replay.{entry_of, is_in, holder_of, is_below};
ghost use Rattle.model.specs.Table.{entry_in};
ghost use Rattle.tree_table.specs.Rows.{entries_from, row_in, tree_in, InRange};
ghost use Rattle.tree_lookup.specs.Roles.{row_of, role_of, name_of, Role, holds_at, earlier_of, Holds, Reads};
ghost use Rattle.tree_lookup.specs.Lookup.{row_among};
ghost use Rattle.tree_lookup.specs.Found.{row_or};
ghost use Rattle.tree_maps.specs.Keys.{hash_of};

use tree_maps::LABELS;
use tree_table::Size;

// The identity that has a role.
pub fn name_at(table: &[u8], size: Size, role: usize) -> u32
    requires { (length table.now ≡ 86020) × (size.entries ≤ 1024) × (size.asides ≤ 1024) × Role size.entries size.asides role }
    ensures { result ≡ name_of (tree_in table.now size.entries size.asides) role }
{
    if role <= size.entries {
        return tree_table::made_at(table, role - 1);
    }
    tree_table::identity_at(table, 73732 + 12 * (role - 1025))
}

// The role of an identity, looked for in its chain.
pub fn role_of(table: &[u8], register: &[u16], size: Size, k: u32) -> usize
    requires { Reads table.now register.now size.entries size.asides × InRange k }
    ensures { (result ≡ role_of k (tree_in table.now size.entries size.asides)) × (result ≤ 2048) }
{
    let h = tree_maps::link(k);
    let mut q = hash_chains::first_of(register, 0, h);
    // A walk along a chain, whose next node is not the next number.
    while 0 < q {
        let role = hash_chains::row_at(register, 0, q);
        if name_at(table, size, role) == k {
            return role;
        }
        q = hash_chains::node_behind(register, 0, q);
    }
    0
}

// The place of the folder f, one above its row; 0 for the root, and for what has no row.
pub fn place_of(table: &[u8], register: &[u16], size: Size, f: u32) -> usize
    requires { Holds table.now register.now size.entries size.asides }
    ensures { (result ≡ row_of f (tree_in table.now size.entries size.asides)) × (result ≤ size.entries) }
{
    if !tree_maps::is_identity(f) {
        return 0;
    }
    let role = role_of(table, register, size, f);
    if size.entries < role {
        return 0;
    }
    role
}

// The row of the entry k, unless it is absent.
pub fn entry_of(table: &[u8], register: &[u16], size: Size, k: u32) -> Option<usize>
    requires { Holds table.now register.now size.entries size.asides × InRange k }
    ensures row { row_or size.entries result ≡ row_among (entries_from table.now 0 size.entries) (entry_of k (entries_from table.now 0 size.entries)) }
    ensures shows { row_in table.now size.entries (row_or size.entries result) ≡ entry_of k (entries_from table.now 0 size.entries) }
    ensures within { IfSome result (λ row. row < size.entries) }
{
    let role = role_of(table, register, size, k);
    if role == 0 {
        return None;
    }
    if size.entries < role {
        return None;
    }
    if !tree_table::is_present(table, role - 1) {
        return None;
    }
    Some(role - 1)
}

// The entry in row i is present and in the folder f.
pub fn is_in(table: &[u8], i: usize, f: u32) -> bool
    requires { (length table.now ≡ 86020) × (i < 1024) }
    ensures { result ≡ is_in f (entry_in table.now (4 + 72 * i)) }
{
    tree_table::is_present(table, i) && tree_table::inside_at(table, i) == f
}

// The entry in row i, which is not k, holds a label in the folder f.
pub fn holds_label(table: &[u8], i: usize, k: u32, f: u32, label: &[u8]) -> bool
    requires { (length table.now ≡ 86020) × (i < 1024) × (length label.now ≡ 32) }
    ensures { result ≡ holds_at table.now k f label.now i }
{
    if !is_in(table, i, f) {
        return false;
    }
    let at = 4 + 72 * i + 24;
    tree_table::made_at(table, i) != k && record_label::same_label(&table[at..at + 32], label)
}

// Of two rows the first, if it stands before the other and its entry, which is not k, holds a label in the folder f; otherwise the other.
pub fn earlier(table: &[u8], row: usize, best: usize, k: u32, f: u32, label: &[u8]) -> usize
    requires { (length table.now ≡ 86020) × (row < 1024) × (length label.now ≡ 32) }
    ensures { result ≡ earlier_of table.now k f label.now row best }
{
    if row < best && holds_label(table, row, k, f, label) {
        row
    } else {
        best
    }
}

// The row of the holder of a label in the folder f, other than the entry k, unless the label is free. The chain of the label is given.
pub fn holder_at(
    table: &[u8],
    register: &[u16],
    size: Size,
    k: u32,
    f: u32,
    label: &[u8],
    h: usize,
) -> Option<usize>
    requires { Holds table.now register.now size.entries size.asides × (length label.now ≡ 32) × (h ≡ hash_of f label.now) × (h < 1021) }
    ensures row { row_or size.entries result ≡ row_among (entries_from table.now 0 size.entries) (holder_of k f label.now (entries_from table.now 0 size.entries)) }
    ensures shows { row_in table.now size.entries (row_or size.entries result) ≡ holder_of k f label.now (entries_from table.now 0 size.entries) }
    ensures within { IfSome result (λ row. row < size.entries) }
{
    let mut best = size.entries;
    let mut q = hash_chains::first_of(register, LABELS, h);
    // A walk along a chain, whose next node is not the next number.
    while 0 < q {
        let row = hash_chains::row_at(register, LABELS, q);
        best = earlier(table, row, best, k, f, label);
        q = hash_chains::node_behind(register, LABELS, q);
    }
    if best < size.entries {
        return Some(best);
    }
    None
}

// The folder f is the entry k or lies below it. The way up ends after as many steps as there are entries and one.
pub fn is_below(table: &[u8], register: &[u16], size: Size, k: u32, f: u32) -> bool
    requires { Holds table.now register.now size.entries size.asides }
    ensures { result ≡ is_below k f (entries_from table.now 0 size.entries) }
{
    let mut at = f;
    for _step in 0..size.entries + 1 {
        if at == k {
            return true;
        }
        if !tree_maps::is_identity(at) {
            return false;
        }
        let Some(row) = entry_of(table, register, size, at) else {
            return false;
        };
        at = tree_table::inside_at(table, row);
    }
    false
}
