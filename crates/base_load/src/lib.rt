// The tree of a base, put into a working table and the register beside it, so that a replay goes on from it.
#![tactic(auto)]

ghost use Rattle.std.specs.Prelude.{◌≡◌, ◌+◌, ◌*◌, ◌≤◌, ◌<◌, length, replicate};
ghost use Rattle.model.specs.Table.{entry_in, aside_in, work_bytes};
ghost use Rattle.base_model.specs.Base.{base_entry};
ghost use Rattle.hash_chains.specs.Chains.{nodes_in};
ghost use Rattle.tree_maps.specs.Keys.{register_size};
ghost use Rattle.tree_lookup.specs.Roles.{row_of, Named, Works};
ghost use Rattle.base_load.specs.Loading.{Ranged, Noted, Loads, Loading, Entering, tree_to, loaded_row, state_of, loaded_aside};

use tree_table::Size;

// The row of an entry, from the 72 bytes that a base has for it.
fn load_entry(row: &mut [u8], src: &[u8])
    requires { (length row.old ≡ 72) × (length src.now ≡ 72) × Ranged (entry_in src.now 0) }
    ensures { row.new ≡ loaded_row row.old src.now }
{
    let head = [src[0], 0, 0, 0];
    byte_slice::put(row, 0, &head);
    tree_table::put_identity(row, 4, tree_table::identity_at(src, 4));
    tree_table::put_identity(row, 8, tree_table::identity_at(src, 8));
    tree_table::put_identity(row, 12, tree_table::identity_at(src, 12));
    tree_table::put_identity(row, 16, tree_table::identity_at(src, 16));
    byte_slice::put(row, 20, &src[20..72]);
}

// The state of an aside.
fn state_of(x: u8) -> u8
    ensures { result ≡ state_of x }
{
    if x == 1 { 1 } else { 2 }
}

// The row of an aside, from the 12 bytes that a base has for it.
fn load_aside(row: &mut [u8], src: &[u8])
    requires { (length row.old ≡ 12) × (length src.now ≡ 12) × Noted (aside_in src.now 0) }
    ensures { row.new ≡ loaded_aside row.old src.now }
{
    let state = [src[4], state_of(src[5]), 0, 0];
    tree_table::put_identity(row, 0, tree_table::identity_at(src, 0));
    byte_slice::put(row, 4, &state);
    tree_table::put_identity(row, 8, tree_table::identity_at(src, 8));
}

// One entry more: its row and its role.
fn add_entry(base: &[u8], size: Size, i: usize, table: &mut [u8], register: &mut [u16])
    requires { Loads base.now size.entries size.asides × Loading base.now table.old register.old i 0 × (i < size.entries) }
    ensures { Loading base.now table.new register.new (i + 1) 0 }
{
    let from = 24 + 72 * i;
    let at = 4 + 72 * i;
    load_entry(&mut table[at..at + 72], &base[from..from + 72]);
    let k = tree_table::identity_at(base, from + 4);
    tree_maps::name(register, k, i + 1);
}

// One aside more: its row and its role.
fn add_aside(base: &[u8], size: Size, j: usize, table: &mut [u8], register: &mut [u16])
    requires { Loads base.now size.entries size.asides × Loading base.now table.old register.old size.entries j × (j < size.asides) }
    ensures { Loading base.now table.new register.new size.entries (j + 1) }
{
    let from = 36888 + 12 * j;
    let at = 73732 + 12 * j;
    load_aside(&mut table[at..at + 12], &base[from..from + 12]);
    let k = tree_table::identity_at(base, from);
    tree_maps::name(register, k, 1025 + j);
}

// The rows and roles of all entries.
fn add_entries(base: &[u8], size: Size, table: &mut [u8], register: &mut [u16])
    requires { Loads base.now size.entries size.asides × Loading base.now table.old register.old 0 0 }
    ensures { Loading base.now table.new register.new size.entries 0 }
{
    for i in 0..size.entries {
        add_entry(base, size, i, table, register);
    }
}

// The rows and roles of all asides.
fn add_asides(base: &[u8], size: Size, table: &mut [u8], register: &mut [u16])
    requires { Loads base.now size.entries size.asides × Loading base.now table.old register.old size.entries 0 }
    ensures { Loading base.now table.new register.new size.entries size.asides }
{
    for j in 0..size.asides {
        add_aside(base, size, j, table, register);
    }
}

// The place of the folder of entry i: 0 for the root, else one above its row.
fn place_in(base: &[u8], table: &[u8], register: &[u16], size: Size, i: usize) -> usize
    requires { Loads base.now size.entries size.asides × (table.now ≡ work_bytes (tree_to base.now size.entries size.asides)) × Named register.now (tree_to base.now size.entries size.asides) × (i < size.entries) }
    ensures { (result ≡ row_of (base_entry base.now i).inside (tree_to base.now size.entries size.asides)) × (result ≤ size.entries) }
{
    let f = tree_table::identity_at(base, 24 + 72 * i + 8);
    if !tree_maps::is_identity(f) {
        return 0;
    }
    tree_lookup::role_of(table, register, size, f)
}

// The label of entry i.
fn enter_label(base: &[u8], table: &[u8], register: &mut [u16], size: Size, i: usize)
    requires { Loads base.now size.entries size.asides × (table.now ≡ work_bytes (tree_to base.now size.entries size.asides)) × Entering base.now register.old size.entries size.asides i × (i < size.entries) }
    ensures { Entering base.now register.new size.entries size.asides (i + 1) }
{
    let from = 24 + 72 * i;
    let place = place_in(base, table, register, size, i);
    let f = tree_table::identity_at(base, from + 8);
    tree_maps::enter(register, place, f, &base[from + 24..from + 56], i);
}

// The labels of all entries.
fn enter_labels(base: &[u8], table: &[u8], register: &mut [u16], size: Size)
    requires { Loads base.now size.entries size.asides × (table.now ≡ work_bytes (tree_to base.now size.entries size.asides)) × Entering base.now register.old size.entries size.asides 0 }
    ensures { Works table.now register.new size.entries size.asides (tree_to base.now size.entries size.asides) × (nodes_in 4097 register.new ≡ size.entries) }
{
    for i in 0..size.entries {
        enter_label(base, table, register, size, i);
    }
}

// The tree of a base of so many entries and asides, into a table and a register of zeros.
pub fn load(base: &[u8], size: Size, table: &mut [u8], register: &mut [u16])
    requires { Loads base.now size.entries size.asides × (table.old ≡ replicate 86020 0) × (register.old ≡ replicate register_size 0) }
    ensures { Works table.new register.new size.entries size.asides (tree_to base.now size.entries size.asides) × (nodes_in 4097 register.new ≡ size.entries) }
{
    add_entries(base, size, table, register);
    add_asides(base, size, table, register);
    enter_labels(base, table, register, size);
}
