// What a record does to a table of rows, and to the register beside it.
#![tactic(auto)]

ghost use Rattle.std.specs.Prelude.{◌≡◌, ◌⊎◌, ◌++◌, ◌∷◌, [], ◌+◌, ◌≤◌, ◌<◌, length};
ghost use Rattle.model.specs.Record.{op, self_of, folder_of, label_of};
ghost use Rattle.model.specs.Replay.{new_entry, effect as effect_of};
ghost use Rattle.tree_table.specs.Rows.{entries_from, asides_from, tree_in, new_aside, InRange};
ghost use Rattle.hash_chains.specs.Chains.{nodes_in};
ghost use Rattle.tree_maps.specs.Keys.{hash_of};
ghost use Rattle.tree_lookup.specs.Roles.{Home, Works, Holds};
ghost use Rattle.tree_amend.specs.Effects.{with_entries, with_asides, Placed, Takes};
ghost use Rattle.tree_amend.specs.Registers.{made_on, effect_on, aside_on};

use record_uses::Operation;
use tree_table::Size;

// The register of a make: the role of the new entry, its folder's count and its label, whose chain is given.
fn enter_entry(rec: &[u8], table: &[u8], register: &mut [u16], size: Size, h: usize)
    requires { (length rec.now ≡ 80) × Holds table.now register.old size.entries size.asides × (size.entries + size.asides < 1536) × (nodes_in 4097 register.old < 1536) × (h ≡ hash_of (folder_of rec.now) (label_of rec.now)) × (h < 1021) }
    ensures { (nodes_in 4097 register.new ≤ nodes_in 4097 register.old + 1) × (register.new ≡ made_on rec.now (tree_in table.now size.entries size.asides) register.old) }
{
    let f = tree_table::folder_of(rec);
    let place = tree_lookup::place_of(table, register, size, f);
    tree_maps::name(register, tree_table::self_of(rec), size.entries + 1);
    tree_maps::enter_at(register, place, f, &rec[32..64], h, size.entries);
}

// A make: a row for the new entry, its role, its folder's count and its label, whose chain is given.
pub fn add_entry(rec: &[u8], table: &mut [u8], register: &mut [u16], size: Size, h: usize) -> Size
    requires { Takes (tree_in table.old size.entries size.asides) rec.now × Holds table.old register.old size.entries size.asides × Home (folder_of rec.now) (entries_from table.old 0 size.entries) × (size.entries < 1024) × (size.entries + size.asides < 1536) × (nodes_in 4097 register.old < 1536) × (op rec.now ≤ 2) × (h ≡ hash_of (folder_of rec.now) (label_of rec.now)) × (h < 1021) }
    ensures { Works table.new register.new result.entries result.asides (with_entries (tree_in table.old size.entries size.asides) (entries_from table.old 0 size.entries ++ (new_entry rec.now ∷ []))) × (nodes_in 4097 register.new ≤ nodes_in 4097 register.old + 1) × (register.new ≡ made_on rec.now (tree_in table.old size.entries size.asides) register.old) }
{
    enter_entry(rec, table, register, size, h);
    let at = 4 + 72 * size.entries;
    tree_table::fill_row(&mut table[at..at + 72], rec);
    Size {
        entries: size.entries + 1,
        asides: size.asides,
    }
}

// A record that stands aside: a row for it, and its role.
pub fn stand_aside(
    rec: &[u8],
    reason: u8,
    marked: u32,
    table: &mut [u8],
    register: &mut [u16],
    size: Size,
) -> Size
    requires { Takes (tree_in table.old size.entries size.asides) rec.now × Holds table.old register.old size.entries size.asides × (size.asides < 1024) × (size.entries + size.asides < 1536) × ((marked ≡ 0) ⊎ InRange marked) }
    ensures { Works table.new register.new result.entries result.asides (with_asides (tree_in table.old size.entries size.asides) (asides_from table.old 0 size.asides ++ (new_aside (self_of rec.now) reason marked ∷ []))) × (nodes_in 4097 register.new ≤ nodes_in 4097 register.old + 1) × (register.new ≡ aside_on rec.now (tree_in table.old size.entries size.asides) register.old) }
{
    let who = tree_table::self_of(rec);
    let at = 73732 + 12 * size.asides;
    tree_table::fill_aside(&mut table[at..at + 12], who, reason, marked);
    tree_maps::name(register, who, 1025 + size.asides);
    Size {
        entries: size.entries,
        asides: size.asides + 1,
    }
}

// A record that fits does what its operation says.
pub fn effect(rec: &[u8], table: &mut [u8], register: &mut [u16], size: Size) -> Size
    requires { Takes (tree_in table.old size.entries size.asides) rec.now × Holds table.old register.old size.entries size.asides × Placed rec.now (entries_from table.old 0 size.entries) × (size.entries < 1024) × (size.entries + size.asides < 1536) × (nodes_in 4097 register.old < 1536) }
    ensures { Works table.new register.new result.entries result.asides (effect_of rec.now (tree_in table.old size.entries size.asides)) × (nodes_in 4097 register.new ≤ nodes_in 4097 register.old + 1) × (register.new ≡ effect_on rec.now (tree_in table.old size.entries size.asides) register.old) }
{
    match tree_table::operation_of(rec) {
        Operation::MakeFolder | Operation::MakeTrace => {
            let h = tree_judge::label_chain(rec);
            return add_entry(rec, table, register, size, h);
        }
        Operation::Store => tree_amend::store(rec, table, register, size),
        Operation::Remove => tree_amend::remove(rec, table, register, size),
        Operation::Rename => tree_amend::rename(rec, table, register, size),
        Operation::Settle => tree_amend::settle(rec, table, register, size),
        Operation::Move => tree_amend::move_entry(rec, table, register, size),
    }
    size
}
