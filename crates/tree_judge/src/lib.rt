// A record is judged: it fits, or stands aside under the first reason that holds.
#![tactic(auto)]

ghost use Rattle.std.specs.Prelude.{◌≡◌, cond, ◌||◌, ◌⊎◌, ◌+◌, ◌*◌, ◌≤◌, ◌<◌, ltb, length, IfSome, IfNone};
ghost use Rattle.model.specs.Record.{op, object_of, label_of, folder_of};
ghost use Rattle.model.specs.Replay.{fits, aside, unseen, entry_of, holder_of, free_label, folder_stands, judge_make, judge_store, judge_remove, judge_rename, judge_move, judge as judge_of};
ghost use Rattle.model.specs.Table.{entry_in};
ghost use Rattle.tree_table.specs.Rows.{entries_from, row_in, tree_in, InRange};
ghost use Rattle.tree_lookup.specs.Roles.{role_of, Holds};
ghost use Rattle.tree_lookup.specs.Found.{row_or};
ghost use Rattle.tree_maps.specs.Keys.{register_size, hash_of};
ghost use Rattle.tree_judge.specs.Judged.{verdict_of, full_by, Asks};
ghost use Rattle.tree_judge.specs.Asides.{aside_code, aside_marked};

use record_uses::Operation;
use refusal::Refusal;
use tree_table::Size;

// The reason under which a record stands aside, and the entry that it marks, or 0 for none, as in the table.
#[derive(Clone, Copy, Debug, PartialEq, Eq)]
pub struct Aside {
    pub reason: Refusal,
    pub marked: u32,
}

// The record k is above the count of its unit that a record has seen.
pub fn is_unseen(rec: &[u8], k: u32) -> bool
    requires { length rec.now ≡ 80 }
    ensures { result ≡ unseen rec.now k }
{
    u32::from(byte_slice::le16(rec, 4 + 2 * (k % 8) as usize)) < k / 8
}

// A label in the folder f: free but for the entry k, or 15 marks its holder. The chain of the label is given.
pub fn free_label_at(
    rec: &[u8],
    table: &[u8],
    register: &[u16],
    size: Size,
    k: u32,
    f: u32,
    h: usize,
) -> Result<(), Aside>
    requires { (length rec.now ≡ 80) × Holds table.now register.now size.entries size.asides × (h ≡ hash_of f (label_of rec.now)) × (h < 1021) }
    ensures { verdict_of (aside_code result) (aside_marked result) ≡ free_label (holder_of k f (label_of rec.now) (entries_from table.now 0 size.entries)) }
{
    match tree_lookup::holder_at(table, register, size, k, f, &rec[32..64], h) {
        Some(row) => Err(Aside {
            reason: Refusal::LabelHeld,
            marked: tree_table::made_at(table, row),
        }),
        None => Ok(()),
    }
}

// The same, its chain worked out.
pub fn free_label(
    rec: &[u8],
    table: &[u8],
    register: &[u16],
    size: Size,
    k: u32,
    f: u32,
) -> Result<(), Aside>
    requires { (length rec.now ≡ 80) × Holds table.now register.now size.entries size.asides }
    ensures { verdict_of (aside_code result) (aside_marked result) ≡ free_label (holder_of k f (label_of rec.now) (entries_from table.now 0 size.entries)) }
{
    let h = tree_maps::hash(f, &rec[32..64]);
    free_label_at(rec, table, register, size, k, f, h)
}

// The chain of a record's label in its folder.
pub fn label_chain(rec: &[u8]) -> usize
    requires { length rec.now ≡ 80 }
    ensures { (result ≡ hash_of (folder_of rec.now) (label_of rec.now)) × (result < 1021) }
{
    tree_maps::hash(tree_table::folder_of(rec), &rec[32..64])
}

// The folder f is the root, or is there and a folder: 13 if it is absent, 14 for a trace.
pub fn folder_stands(table: &[u8], register: &[u16], size: Size, f: u32) -> Result<(), Aside>
    requires { ((f ≡ 0) ⊎ InRange f) × Holds table.now register.now size.entries size.asides }
    ensures { verdict_of (aside_code result) (aside_marked result) ≡ folder_stands f (entries_from table.now 0 size.entries) }
{
    if f == 0 {
        return Ok(());
    }
    let Some(row) = tree_lookup::entry_of(table, register, size, f) else {
        return Err(Aside {
            reason: Refusal::NoFolder,
            marked: 0,
        });
    };
    if !tree_table::is_folder(table, row) {
        return Err(Aside {
            reason: Refusal::WrongKind,
            marked: tree_table::made_at(table, row),
        });
    }
    Ok(())
}

// A make: 13 for an absent folder, 14 for a trace as folder, 15 for a label that is held. The chain of the label is given.
pub fn judge_make_at(
    rec: &[u8],
    table: &[u8],
    register: &[u16],
    size: Size,
    h: usize,
) -> Result<(), Aside>
    requires { Asks rec.now × (op rec.now ≤ 2) × Holds table.now register.now size.entries size.asides × (h ≡ hash_of (folder_of rec.now) (label_of rec.now)) × (h < 1021) }
    ensures { verdict_of (aside_code result) (aside_marked result) ≡ judge_make rec.now (entries_from table.now 0 size.entries) }
{
    let f = tree_table::folder_of(rec);
    folder_stands(table, register, size, f)?;
    free_label_at(rec, table, register, size, 0, f, h)
}

// The same, its chain worked out.
pub fn judge_make(rec: &[u8], table: &[u8], register: &[u16], size: Size) -> Result<(), Aside>
    requires { Asks rec.now × (op rec.now ≤ 2) × Holds table.now register.now size.entries size.asides }
    ensures { verdict_of (aside_code result) (aside_marked result) ≡ judge_make rec.now (entries_from table.now 0 size.entries) }
{
    let h = label_chain(rec);
    judge_make_at(rec, table, register, size, h)
}

// The row of the entry that is a record's object, unless it is absent.
fn object_row(rec: &[u8], table: &[u8], register: &[u16], size: Size) -> Option<usize>
    requires { Asks rec.now × (2 < op rec.now) × Holds table.now register.now size.entries size.asides }
    ensures shows { row_in table.now size.entries (row_or size.entries result) ≡ entry_of (object_of rec.now) (entries_from table.now 0 size.entries) }
    ensures within { IfSome result (λ row. row < size.entries) }
{
    tree_lookup::entry_of(table, register, size, tree_table::object_of(rec))
}

// The row, if it is one of n: a row at or above n is none.
fn row_below(row: Option<usize>, n: usize) -> Option<usize>
    ensures within { IfSome result (λ i. i < n) }
    ensures kept { IfSome result (λ i. row_or n row ≡ i) }
    ensures absent { IfNone result (n ≤ row_or n row) }
{
    match row {
        Some(i) if i < n => Some(i),
        _ => None,
    }
}

// A store on the entry in a row: 12 for no row, 14 for a folder, 17 for unseen contents.
pub fn judge_store(rec: &[u8], table: &[u8], n: usize, row: Option<usize>) -> Result<(), Aside>
    requires { (length rec.now ≡ 80) × (length table.now ≡ 86020) × (n ≤ 1024) }
    ensures { verdict_of (aside_code result) (aside_marked result) ≡ judge_store rec.now (row_in table.now n (row_or n row)) }
{
    let Some(row) = row_below(row, n) else {
        return Err(Aside {
            reason: Refusal::NoObject,
            marked: 0,
        });
    };
    let made = tree_table::made_at(table, row);
    if tree_table::is_folder(table, row) {
        return Err(Aside {
            reason: Refusal::WrongKind,
            marked: made,
        });
    }
    if is_unseen(rec, tree_table::contents_at(table, row)) {
        return Err(Aside {
            reason: Refusal::UnseenChange,
            marked: made,
        });
    }
    Ok(())
}

// The entry in a row is a folder that has entries, by the register.
pub fn is_full(table: &[u8], register: &[u16], row: usize) -> bool
    requires { (length table.now ≡ 86020) × (length register.now ≡ register_size) × (row < 1024) }
    ensures { result ≡ full_by register.now row (entry_in table.now (4 + 72 * row)) }
{
    tree_table::is_folder(table, row) && tree_maps::children(register, row + 1) != 0
}

// The last contents or place record of the entry in a row is unseen.
pub fn is_changed(rec: &[u8], table: &[u8], row: usize) -> bool
    requires { (length rec.now ≡ 80) × (length table.now ≡ 86020) × (row < 1024) }
    ensures { result ≡ (unseen rec.now (entry_in table.now (4 + 72 * row)).contents || unseen rec.now (entry_in table.now (4 + 72 * row)).placing) }
{
    if is_unseen(rec, tree_table::contents_at(table, row)) {
        return true;
    }
    is_unseen(rec, tree_table::placing_at(table, row))
}

// A remove of the entry in a row: 12 for no row, 16 for a folder with entries, 17 for unseen contents or place.
pub fn judge_remove(
    rec: &[u8],
    table: &[u8],
    register: &[u16],
    size: Size,
    row: Option<usize>,
) -> Result<(), Aside>
    requires { (length rec.now ≡ 80) × Holds table.now register.now size.entries size.asides }
    ensures { verdict_of (aside_code result) (aside_marked result) ≡ judge_remove rec.now (entries_from table.now 0 size.entries) (row_in table.now size.entries (row_or size.entries row)) }
{
    let Some(row) = row_below(row, size.entries) else {
        return Err(Aside {
            reason: Refusal::NoObject,
            marked: 0,
        });
    };
    let made = tree_table::made_at(table, row);
    if is_full(table, register, row) {
        return Err(Aside {
            reason: Refusal::NotEmpty,
            marked: made,
        });
    }
    if is_changed(rec, table, row) {
        return Err(Aside {
            reason: Refusal::UnseenChange,
            marked: made,
        });
    }
    Ok(())
}

// A rename of the entry in a row: 12 for no row, 17 for an unseen place, 15 for a label that another entry holds.
pub fn judge_rename(
    rec: &[u8],
    table: &[u8],
    register: &[u16],
    size: Size,
    row: Option<usize>,
) -> Result<(), Aside>
    requires { (length rec.now ≡ 80) × Holds table.now register.now size.entries size.asides }
    ensures { verdict_of (aside_code result) (aside_marked result) ≡ judge_rename rec.now (entries_from table.now 0 size.entries) (row_in table.now size.entries (row_or size.entries row)) }
{
    let Some(row) = row_below(row, size.entries) else {
        return Err(Aside {
            reason: Refusal::NoObject,
            marked: 0,
        });
    };
    let made = tree_table::made_at(table, row);
    let inside = tree_table::inside_at(table, row);
    if is_unseen(rec, tree_table::placing_at(table, row)) {
        return Err(Aside {
            reason: Refusal::UnseenChange,
            marked: made,
        });
    }
    free_label(rec, table, register, size, made, inside)
}

// A move of the entry in a row: 12 for no row, 17 for an unseen place, 13 for an absent folder, 14 for a trace as folder, 25 for a folder at or below the entry, 15 for a label that another entry holds.
pub fn judge_move(
    rec: &[u8],
    table: &[u8],
    register: &[u16],
    size: Size,
    row: Option<usize>,
) -> Result<(), Aside>
    requires { Asks rec.now × (op rec.now ≡ 7) × Holds table.now register.now size.entries size.asides }
    ensures { verdict_of (aside_code result) (aside_marked result) ≡ judge_move rec.now (entries_from table.now 0 size.entries) (row_in table.now size.entries (row_or size.entries row)) }
{
    let Some(row) = row_below(row, size.entries) else {
        return Err(Aside {
            reason: Refusal::NoObject,
            marked: 0,
        });
    };
    let made = tree_table::made_at(table, row);
    if is_unseen(rec, tree_table::placing_at(table, row)) {
        return Err(Aside {
            reason: Refusal::UnseenChange,
            marked: made,
        });
    }
    let f = tree_table::folder_of(rec);
    folder_stands(table, register, size, f)?;
    if tree_lookup::is_below(table, register, size, made, f) {
        return Err(Aside {
            reason: Refusal::IntoItself,
            marked: made,
        });
    }
    free_label(rec, table, register, size, made, f)
}

// A settle of the record k: 18 if it does not stand aside.
pub fn judge_settle(table: &[u8], register: &[u16], size: Size, k: u32) -> Result<(), Aside>
    requires { InRange k × Holds table.now register.now size.entries size.asides }
    ensures { verdict_of (aside_code result) (aside_marked result) ≡ cond (ltb 1024 (role_of k (tree_in table.now size.entries size.asides))) fits (aside 18 0) }
{
    if 1024 < tree_lookup::role_of(table, register, size, k) {
        return Ok(());
    }
    Err(Aside {
        reason: Refusal::NotAside,
        marked: 0,
    })
}

// A record of any operation.
pub fn judge(rec: &[u8], table: &[u8], register: &[u16], size: Size) -> Result<(), Aside>
    requires { Asks rec.now × Holds table.now register.now size.entries size.asides }
    ensures { verdict_of (aside_code result) (aside_marked result) ≡ judge_of rec.now (tree_in table.now size.entries size.asides) }
{
    match tree_table::operation_of(rec) {
        Operation::MakeFolder | Operation::MakeTrace => judge_make(rec, table, register, size),
        Operation::Store => {
            let row = object_row(rec, table, register, size);
            judge_store(rec, table, size.entries, row)
        }
        Operation::Remove => {
            let row = object_row(rec, table, register, size);
            judge_remove(rec, table, register, size, row)
        }
        Operation::Rename => {
            let row = object_row(rec, table, register, size);
            judge_rename(rec, table, register, size, row)
        }
        Operation::Settle => judge_settle(table, register, size, tree_table::object_of(rec)),
        Operation::Move => {
            let row = object_row(rec, table, register, size);
            judge_move(rec, table, register, size, row)
        }
    }
}
