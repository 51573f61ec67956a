// What a record that fits does to an index: one row put in, taken out or moved. No index is made afresh.
#![tactic(auto)]

ghost use Rattle.std.specs.Prelude.{◌≡◌, true, ◌<◌, length};
ghost use Rattle.std.proofs.Math.Option.{some};
ghost use Rattle.model.specs.Lengths.{record_size, tree_size};
ghost use Rattle.model.specs.Record.{self_of};
ghost use Rattle.model.specs.Replay.{judge as judge_of, reason_of};
ghost use Rattle.refusal.specs.Refusals.{code_of};
ghost use Rattle.tree_table.specs.Rows.{InRange, tree_in};
ghost use Rattle.tree_lookup.specs.Roles.{Holds};
ghost use Rattle.tree_judge.specs.Judged.{Asks};
ghost use Rattle.index_model.specs.Index.{index_size};
ghost use Rattle.index_model.specs.Acting.{removed_in, change_in, step_in};
ghost use Rattle.index_model.specs.Kept.{index_fits, if_lent};
ghost use Rattle.index_laws.specs.Copied.{entry_row_at};
ghost use Rattle.index_act.specs.Inside.{Inside};
ghost use Rattle.index_act.specs.Moved.{put_elsewhere};

use record_uses::Operation;
use refusal::Refusal;
use tree_lookup::entry_of;
use tree_table::Size;

// The entry in a row is taken out of the index.
fn remove_from(table: &[u8], row: usize, index: &mut [u8])
    requires { (length table.now ≡ tree_size) × (row < 1024) × (length index.old ≡ index_size) }
    ensures { index.new ≡ removed_in index.old (some (entry_row_at table.now row)) }
{
    let folder = tree_table::inside_at(table, row);
    let from = 4 + 72 * row + 24;
    index_change::take_out(index, folder, &table[from..from + 32]);
}

// The entry in a row gets a folder, and the label of a record, in the index.
fn move_to(rec: &[u8], table: &[u8], row: usize, to: u32, index: &mut [u8])
    requires { (length rec.now ≡ record_size) × (length table.now ≡ tree_size) × (row < 1024) × ((entry_row_at table.now row).made < 524288) × (to < 524288) × (length index.old ≡ index_size) }
    ensures { index.new ≡ put_elsewhere rec.now to index.old (entry_row_at table.now row) }
{
    let folder = tree_table::inside_at(table, row);
    let entry = tree_table::made_at(table, row);
    let from = 4 + 72 * row + 24;
    index_change::move_in(
        index,
        folder,
        &table[from..from + 32],
        to,
        &rec[32..64],
        entry,
    );
}

// A record that fits does to the index of the tree in a table what it does to the tree.
fn change_index(rec: &[u8], table: &[u8], register: &[u16], size: Size, index: &mut [u8])
    requires { Asks rec.now × InRange (self_of rec.now) × Holds table.now register.now size.entries size.asides × Inside table.now size.entries × (length index.old ≡ index_size) }
    ensures { index.new ≡ change_in rec.now (tree_in table.now size.entries size.asides) index.old }
{
    match tree_table::operation_of(rec) {
        Operation::MakeFolder | Operation::MakeTrace => index_change::put_in(
            index,
            tree_table::folder_of(rec),
            &rec[32..64],
            tree_table::self_of(rec),
        ),
        Operation::Remove => {
            if let Some(row) = entry_of(table, register, size, tree_table::object_of(rec)) {
                remove_from(table, row, index);
            }
        }
        Operation::Rename => {
            if let Some(row) = entry_of(table, register, size, tree_table::object_of(rec)) {
                move_to(rec, table, row, tree_table::inside_at(table, row), index);
            }
        }
        Operation::Move => {
            if let Some(row) = entry_of(table, register, size, tree_table::object_of(rec)) {
                move_to(rec, table, row, tree_table::folder_of(rec), index);
            }
        }
        Operation::Settle | Operation::Store => {}
    }
}

// The same, where an index is lent.
fn change_lent(rec: &[u8], table: &[u8], register: &[u16], size: Size, index: &mut [u8])
    requires { Asks rec.now × InRange (self_of rec.now) × Holds table.now register.now size.entries size.asides × Inside table.now size.entries × (index_fits index.old ≡ true) }
    ensures { index.new ≡ if_lent index.old (change_in rec.now (tree_in table.now size.entries size.asides) index.old) }
{
    if !index.is_empty() {
        change_index(rec, table, register, size, index);
    }
}

// The reason under which a record would stand aside behind the tree in a table; if there is none, the index is changed, if one is lent.
pub fn judge_and_change(
    rec: &[u8],
    table: &[u8],
    register: &[u16],
    size: Size,
    index: &mut [u8],
) -> Result<(), Refusal>
    requires { Asks rec.now × InRange (self_of rec.now) × Holds table.now register.now size.entries size.asides × Inside table.now size.entries × (index_fits index.old ≡ true) }
    ensures reason { code_of result ≡ reason_of (judge_of rec.now (tree_in table.now size.entries size.asides)) }
    ensures index { index.new ≡ if_lent index.old (step_in (judge_of rec.now (tree_in table.now size.entries size.asides)) rec.now (tree_in table.now size.entries size.asides) index.old) }
{
    match tree_judge::judge(rec, table, register, size) {
        Ok(()) => {
            change_lent(rec, table, register, size, index);
            Ok(())
        }
        Err(aside) => Err(aside.reason),
    }
}
