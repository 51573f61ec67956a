// What a record changes of an entry or an aside that stands in a table of rows, and in the register beside it.
#![tactic(auto)]

ghost use Rattle.std.specs.Prelude.{◌≡◌, true, ◌+◌, ◌*◌, ◌≤◌, ◌<◌, length, set};
ghost use Rattle.model.specs.Record.{op, object_of, folder_of};
ghost use Rattle.model.specs.Replay.{is_present, stored, renamed, moved, removed, changed, settled};
ghost use Rattle.model.specs.Table.{entry_in};
ghost use Rattle.tree_table.specs.Rows.{entries_from, asides_from, tree_in};
ghost use Rattle.hash_chains.specs.Chains.{nodes_in};
ghost use Rattle.tree_lookup.specs.Roles.{Home, Works, Holds};
ghost use Rattle.tree_amend.specs.Effects.{with_entries, with_asides, Takes};
ghost use Rattle.tree_amend.specs.Registers.{renamed_on, removed_on, shifted_on, moved_on};

use tree_table::Size;

// A store: contents record, date and mark of the object's row.
pub fn store(rec: &[u8], table: &mut [u8], register: &[u16], size: Size)
    requires { Takes (tree_in table.old size.entries size.asides) rec.now × Holds table.old register.now size.entries size.asides × (2 < op rec.now) }
    ensures { Works table.new register.now size.entries size.asides (with_entries (tree_in table.old size.entries size.asides) (changed (stored rec.now) (object_of rec.now) (entries_from table.old 0 size.entries))) }
{
    let Some(row) = tree_lookup::entry_of(table, register, size, tree_table::object_of(rec)) else {
        return;
    };
    let at = 4 + 72 * row;
    tree_table::store_row(&mut table[at..at + 72], rec);
}

// A rename: place record and label of the object's row.
pub fn rename(rec: &[u8], table: &mut [u8], register: &mut [u16], size: Size)
    requires { Takes (tree_in table.old size.entries size.asides) rec.now × Holds table.old register.old size.entries size.asides × (nodes_in 4097 register.old < 1536) × (2 < op rec.now) }
    ensures { Works table.new register.new size.entries size.asides (with_entries (tree_in table.old size.entries size.asides) (changed (renamed rec.now) (object_of rec.now) (entries_from table.old 0 size.entries))) × (nodes_in 4097 register.new ≤ nodes_in 4097 register.old + 1) × (register.new ≡ renamed_on rec.now (tree_in table.old size.entries size.asides) register.old) }
{
    let Some(row) = tree_lookup::entry_of(table, register, size, tree_table::object_of(rec)) else {
        return;
    };
    let at = 4 + 72 * row;
    tree_maps::relabel(
        register,
        tree_table::inside_at(table, row),
        &table[at + 24..at + 56],
        &rec[32..64],
        row,
    );
    tree_table::rename_row(&mut table[at..at + 72], rec);
}

// The entry in a row leaves its folder for the one that a move names, by the register.
fn shift_entry(rec: &[u8], table: &[u8], register: &mut [u16], size: Size, row: usize)
    requires { (length rec.now ≡ 80) × Holds table.now register.old size.entries size.asides × (nodes_in 4097 register.old < 1536) × (row < size.entries) × (is_present (entry_in table.now (4 + 72 * row)) ≡ true) }
    ensures { register.new ≡ shifted_on rec.now (tree_in table.now size.entries size.asides) register.old (entry_in table.now (4 + 72 * row)) row }
{
    let f = tree_table::inside_at(table, row);
    let g = tree_table::folder_of(rec);
    let from = tree_lookup::place_of(table, register, size, f);
    let to = tree_lookup::place_of(table, register, size, g);
    let at = 4 + 72 * row;
    tree_maps::shift(
        register,
        from,
        f,
        &table[at + 24..at + 56],
        to,
        g,
        &rec[32..64],
        row,
    );
}

// A move: folder, label and place record of the object's row.
pub fn move_entry(rec: &[u8], table: &mut [u8], register: &mut [u16], size: Size)
    requires { Takes (tree_in table.old size.entries size.asides) rec.now × Holds table.old register.old size.entries size.asides × Home (folder_of rec.now) (entries_from table.old 0 size.entries) × (nodes_in 4097 register.old < 1536) × (op rec.now ≡ 7) }
    ensures { Works table.new register.new size.entries size.asides (with_entries (tree_in table.old size.entries size.asides) (changed (moved rec.now) (object_of rec.now) (entries_from table.old 0 size.entries))) × (nodes_in 4097 register.new ≤ nodes_in 4097 register.old + 1) × (register.new ≡ moved_on rec.now (tree_in table.old size.entries size.asides) register.old) }
{
    let Some(row) = tree_lookup::entry_of(table, register, size, tree_table::object_of(rec)) else {
        return;
    };
    shift_entry(rec, table, register, size, row);
    let at = 4 + 72 * row;
    tree_table::move_row(&mut table[at..at + 72], rec);
}

// A row of a removed entry: kind 0.
fn remove_row(row: &mut [u8])
    requires { length row.old ≡ 72 }
    ensures { row.new ≡ set row.old 0 0 }
{
    row[0] = 0;
}

// A remove: the object's row stays, with kind 0.
pub fn remove(rec: &[u8], table: &mut [u8], register: &mut [u16], size: Size)
    requires { Takes (tree_in table.old size.entries size.asides) rec.now × Holds table.old register.old size.entries size.asides × (2 < op rec.now) }
    ensures { Works table.new register.new size.entries size.asides (with_entries (tree_in table.old size.entries size.asides) (changed removed (object_of rec.now) (entries_from table.old 0 size.entries))) × (nodes_in 4097 register.new ≤ nodes_in 4097 register.old + 1) × (register.new ≡ removed_on rec.now (tree_in table.old size.entries size.asides) register.old) }
{
    let Some(row) = tree_lookup::entry_of(table, register, size, tree_table::object_of(rec)) else {
        return;
    };
    let f = tree_table::inside_at(table, row);
    let from = tree_lookup::place_of(table, register, size, f);
    let at = 4 + 72 * row;
    tree_maps::leave(register, from, f, &table[at + 24..at + 56], row);
    remove_row(&mut table[at..at + 72]);
}

// A row of a settled aside: state 2.
fn settle_row(row: &mut [u8])
    requires { length row.old ≡ 12 }
    ensures { row.new ≡ set row.old 5 2 }
{
    row[5] = 2;
}

// A settle: the aside that the object names is no longer open.
pub fn settle(rec: &[u8], table: &mut [u8], register: &[u16], size: Size)
    requires { Takes (tree_in table.old size.entries size.asides) rec.now × Holds table.old register.now size.entries size.asides × (2 < op rec.now) }
    ensures { Works table.new register.now size.entries size.asides (with_asides (tree_in table.old size.entries size.asides) (settled (object_of rec.now) (asides_from table.old 0 size.asides))) }
{
    let role = tree_lookup::role_of(table, register, size, tree_table::object_of(rec));
    if role <= 1024 {
        return;
    }
    let at = 73732 + 12 * (role - 1025);
    settle_row(&mut table[at..at + 12]);
}
