// Trying a row of blocks: what taking it would do, on a copy of the log. The base is only read.
#![tactic(auto)]

ghost use Rattle.std.specs.Prelude.{◌≡◌, true, ◌∷◌, ◌++◌, ◌≤◌, IfOk, length, get_or, take};
ghost use Rattle.model.specs.Lengths.{log_size, file_size, tree_size, base_size};
ghost use Rattle.model.specs.Log.{records_of};
ghost use Rattle.model.specs.Bytes.{word, two, padded};
ghost use Rattle.model.specs.Vector.{vector_bytes};
ghost use Rattle.model.specs.Table.{table_bytes};
ghost use Rattle.base_model.specs.Base.{base_vector, held_on, sound_state, tree_of};
ghost use Rattle.row_model.specs.Row.{row_fits, tried, try_all, report_size, trial, reported, trial_lent, try_of};
ghost use Rattle.log_closure.specs.Tables.{Indexed};
ghost use Rattle.log_check.specs.declared.Layout.TheVariants.{Log};
ghost use Rattle.log_check.specs.Places.{laid_at};
ghost use Rattle.refusal.specs.Refusals.{code_of};
ghost use Rattle.call_guard.specs.Opened.{open_of};
ghost use Rattle.call_guard.specs.Told.{opening};
ghost use Rattle.state_check.specs.Stands.{Stands};
ghost use Rattle.take_row_judge.specs.Stopped.{stop_code};
ghost use Rattle.state_tree.specs.Small.{Small};
ghost use Rattle.try_row_report.specs.Listed.{notes_size, noted, listed_count, listed};

use base_head::Head;
use call_guard::open_into;
use log_closure::Tables;
use model::{LOG_BYTES, TREE_BYTES};
use refusal::Refusal;
use row_model::REPORT_BYTES;
use show_tree::lay_tree;
use state_check::State;
use take_row::{row_fits, take_blocks};
use take_row_judge::RowJudged;
use take_row_store::WORK_BYTES;
use try_row_report::NOTES;
use vector::Vector;

// The three lent buffers have their stated lengths.
fn lent_fits(copy: &[u8], tree: &[u8], report: &[u8]) -> bool
    ensures { result ≡ trial_lent copy.now tree.now report.now }
{
    if copy.len() != LOG_BYTES {
        return false;
    }
    if tree.len() != TREE_BYTES {
        return false;
    }
    report.len() == REPORT_BYTES
}

// The state of a trial, checked in this order: 1 (the three buffers too), 21, 2, 19; the records of its log are noted in the tables.
fn open_trial(
    log: &[u8],
    base: &[u8],
    unit: u8,
    row: &[u8],
    copy: &[u8],
    tree: &[u8],
    report: &[u8],
    tables: &mut Tables,
) -> Result<State, Refusal>
    ensures outright { opening result ≡ open_of unit log.now base.now (trial_lent copy.now tree.now report.now) (row_fits (length row.now)) }
    ensures holds { IfOk result (λ state. Indexed (base_vector base.now) (laid_at Log log.now) state.used (records_of log.now) state.held.counts tables.new.places tables.new.seens) }
{
    let lent = lent_fits(copy, tree, report);
    open_into(log, base, unit, lent, row_fits(row.len()), tables)
}

// The log is copied.
fn copy_log(log: &[u8], copy: &mut [u8])
    requires { (length log.now ≡ log_size) × (length copy.old ≡ log_size) }
    ensures { copy.new ≡ log.now }
{
    byte_copy::put(copy, 0, log);
}

// The row is taken into the log of a sound state whose records the tables have. The front of the tree table is the memory to judge it in.
fn take_by(
    list: u8,
    folded: Vector,
    base: &[u8],
    copy: &mut [u8],
    archive: u32,
    unit: u8,
    row: &[u8],
    used: usize,
    held: Vector,
    tree: &mut [u8],
    tables: &mut Tables,
) -> RowJudged
    requires { (length row.now ≤ file_size) × (unit ≤ 7) × (length copy.old ≡ log_size) × (length base.now ≡ base_size) × (sound_state copy.old base.now ≡ true) × (list ≡ get_or base.now 0 0) × (folded.counts ≡ base_vector base.now) × (used ≡ length (records_of copy.old)) × (length tree.old ≡ tree_size) × Indexed (base_vector base.now) (laid_at Log copy.old) used (records_of copy.old) held.counts tables.old.places tables.old.seens }
    ensures took { tried result.taken (stop_code result.stopped) copy.new ≡ try_all archive unit copy.old base.now row.now }
    ensures counted { (result.used ≡ length (records_of copy.new)) × (result.held.counts ≡ held_on copy.new base.now) }
{
    take_blocks(
        list,
        folded,
        base,
        copy,
        archive,
        unit,
        row,
        used,
        held,
        &mut tree[0..WORK_BYTES],
        tables,
    )
}

// The row is taken into a copy of the log of a sound state whose records the tables have.
fn take_copy(
    list: u8,
    folded: Vector,
    base: &[u8],
    log: &[u8],
    archive: u32,
    unit: u8,
    row: &[u8],
    used: usize,
    held: Vector,
    copy: &mut [u8],
    tree: &mut [u8],
    tables: &mut Tables,
) -> RowJudged
    requires { (length row.now ≤ file_size) × (unit ≤ 7) × (length log.now ≡ log_size) × (length base.now ≡ base_size) × (sound_state log.now base.now ≡ true) × (list ≡ get_or base.now 0 0) × (folded.counts ≡ base_vector base.now) × (used ≡ length (records_of log.now)) × (length copy.old ≡ log_size) × (length tree.old ≡ tree_size) × Indexed (base_vector base.now) (laid_at Log log.now) used (records_of log.now) held.counts tables.old.places tables.old.seens }
    ensures took { tried result.taken (stop_code result.stopped) copy.new ≡ try_all archive unit log.now base.now row.now }
    ensures counted { (result.used ≡ length (records_of copy.new)) × (result.held.counts ≡ held_on copy.new base.now) }
{
    copy_log(log, copy);
    take_by(
        list, folded, base, copy, archive, unit, row, used, held, tree, tables,
    )
}

// The disputed entries of the tree of a sound state are noted; their count is returned. The tree table holds this tree afterwards.
fn note_before(log: &[u8], base: &[u8], state: State, tree: &mut [u8], notes: &mut [u32]) -> usize
    requires { Stands log.now base.now state × (length tree.old ≡ tree_size) × (length notes.old ≡ notes_size) }
    ensures few { result ≤ 1024 }
    ensures made { take result notes.new ≡ noted (table_bytes (tree_of log.now base.now)) (word (table_bytes (tree_of log.now base.now)) 0) }
    ensures small { Small state.held.counts }
{
    state_tree::small_counts(state.held);
    lay_tree(log, base, state, tree);
    try_row_report::note_disputed(tree, notes)
}

// The tree of the copy, into which the row was taken, is laid, and the report is written by it and the notes.
fn report_by(
    copy: &[u8],
    base: &[u8],
    head: Head,
    t: RowJudged,
    notes: &[u32],
    count: usize,
    tree: &mut [u8],
    report: &mut [u8],
)
    requires { Stands copy.now base.now (record { head = head; held = t.held; used = t.used }) × (count ≤ length notes.now) × (length tree.old ≡ tree_size) × (length report.old ≡ report_size) }
    ensures laid { tree.new ≡ table_bytes (tree_of copy.now base.now) }
    ensures told { report.new ≡ (t.taken ∷ stop_code t.stopped ∷ two (listed_count tree.new (take count notes.now) (word tree.new 0))) ++ (vector_bytes t.held.counts ++ padded 4096 (listed tree.new (take count notes.now) (word tree.new 0))) }
    ensures small { Small t.held.counts }
{
    let held = t.held;
    state_tree::small_counts(held);
    let state = State {
        head,
        held,
        used: t.used,
    };
    lay_tree(copy, base, state, tree);
    try_row_report::write_report(tree, notes, count, t.taken, t.stopped, held, report);
}

// The row was taken into the copy: the disputed entries of the tree before are noted, and the report is written.
fn report_trial(
    log: &[u8],
    base: &[u8],
    state: State,
    copy: &[u8],
    t: RowJudged,
    tree: &mut [u8],
    report: &mut [u8],
)
    requires { Stands log.now base.now state × (length copy.now ≡ log_size) × (sound_state copy.now base.now ≡ true) × (t.used ≡ length (records_of copy.now)) × (t.held.counts ≡ held_on copy.now base.now) × (length tree.old ≡ tree_size) × (length report.old ≡ report_size) }
    ensures { trial 0 0 copy.now tree.new report.new ≡ reported log.now base.now (tried t.taken (stop_code t.stopped) copy.now) }
{
    let mut notes = [0u32; NOTES];
    let count = note_before(log, base, state, tree, &mut notes);
    report_by(copy, base, state.head, t, &notes, count, tree, report);
}

// What taking a row would do: the copy as the log would be, its tree in the table, and the report. Checked in this order: 1, 21, 2, 19. Log
// and base are only read.
pub fn try_row(
    log: &[u8],
    base: &[u8],
    archive: u32,
    unit: u8,
    row: &[u8],
    copy: &mut [u8],
    tree: &mut [u8],
    report: &mut [u8],
) -> Result<(), Refusal>
    ensures { trial (code_of result) 0 copy.new tree.new report.new ≡ try_of archive unit log.now base.now row.now copy.old tree.old report.old }
{
    let mut tables = Tables::fresh();
    let state = open_trial(log, base, unit, row, copy, tree, report, &mut tables)?;
    let t = take_copy(
        state.head.list,
        state.head.folded,
        base,
        log,
        archive,
        unit,
        row,
        state.used,
        state.held,
        copy,
        tree,
        &mut tables,
    );
    report_trial(log, base, state, copy, t, tree, report);
    Ok(())
}
