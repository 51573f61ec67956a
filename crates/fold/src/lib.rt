// Folding: the records that every listed unit has heard of leave the log, and the base keeps what they left.
#![tactic(auto)]

ghost use Rattle.std.specs.Prelude.{◌≡◌, true, ◌≤◌, ◌<◌, length, take, drop};
ghost use Rattle.model.specs.Lengths.{tree_size};
ghost use Rattle.model.specs.Log.{records_of, log_bytes};
ghost use Rattle.model.specs.Replay.{replay_from};
ghost use Rattle.model.specs.Table.{work_bytes};
ghost use Rattle.base_model.specs.Base.{is_listed, base_bytes, base_vector, base_tree};
ghost use Rattle.call_model.specs.Outcome.{outcome};
ghost use Rattle.call_model.specs.Fold.{run_in, folded_base, list_fits, fold_of, fold_work};
ghost use Rattle.refusal.specs.Refusals.{code_of};
ghost use Rattle.fold_tree.specs.Table.{Table};
ghost use Rattle.state_check.specs.Stands.{Stands};
ghost use Rattle.fold.specs.Records.{records_folded};

use fold_tree::Folded;
use model::TREE_BYTES;
use refusal::Refusal;
use state_check::State;
use vector::Vector;

// A list names the own unit and each unit of which records are held.
#[tactic(auto, unfolding(call_model::specs::Fold::list_fits))]
fn list_fits(list: u8, unit: u8, held: Vector) -> bool
    requires { unit < 8 }
    ensures { result ≡ list_fits list unit held.counts }
{
    base_head::is_listed(list, usize::from(unit)) && base_head::lists_all(list, held)
}

// The run that folds, replayed into the work memory.
fn run_in(log: &[u8], base: &[u8], state: State, unit: u8, list: u8, work: &mut [u8]) -> Folded
    requires { Stands log.now base.now state × (state.head.folded.counts ≡ base_vector base.now) × (unit < 8) × (is_listed list unit ≡ true) × (length work.old ≡ tree_size) }
    ensures run { (result.records ≡ run_in list unit log.now base.now) × (result.records ≤ state.used) }
    ensures laid { Table work.new result.size.entries result.size.asides (replay_from (base_tree base.now) (take result.records (records_of log.now))) }
{
    let folded = state.head.folded;
    let n = fold_heard::heard_run(log, state.used, unit, folded, state.held, list);
    fold_tree::fold_tree(log, n, base, state, work)
}

// A sound state is folded by a list that has its own unit; how many records were.
fn fold_state(
    log: &mut [u8],
    base: &mut [u8],
    state: State,
    unit: u8,
    list: u8,
    work: &mut [u8],
) -> usize
    requires { Stands log.old base.old state × (state.head.folded.counts ≡ base_vector base.old) × (unit < 8) × (is_listed list unit ≡ true) × (length work.old ≡ tree_size) }
    ensures run { (result ≡ run_in list unit log.old base.old) × (result ≤ state.used) }
    ensures left { log.new ≡ log_bytes (drop result (records_of log.old)) }
    ensures based { base.new ≡ base_bytes (folded_base list (base_vector base.old) (base_tree base.old) (records_of log.old) result) }
    ensures worked { work.new ≡ work_bytes (replay_from (base_tree base.old) (take result (records_of log.old))) }
{
    let f = run_in(log, base, state, unit, list, work);
    let n = f.records;
    let folded = state.head.folded;
    let v = fold_log::counted(folded, log, n);
    fold_base::write_base(base, list, v, work, f.size);
    fold_log::drop_front(folded, log, state.used, n);
    n
}

// Records are folded by a given list, which is stored also where none is; how many were is told. Checked in this order: 1, 21, 19, 26. A refusal
// leaves log, base and work memory as they were. The archive is not asked.
pub fn fold(
    log: &mut [u8],
    base: &mut [u8],
    archive: u32,
    unit: u8,
    list: u8,
    work: &mut [u8],
) -> Result<u16, Refusal>
    ensures folded { outcome (code_of result) 0 log.new base.new (records_folded result) ≡ fold_of unit log.old base.old list work.old }
    ensures worked { work.new ≡ fold_work unit log.old base.old list work.old }
{
    let state = call_guard::open(log, base, unit, work.len() == TREE_BYTES, true)?;
    if !list_fits(list, unit, state.held) {
        return Err(Refusal::Unlisted);
    }
    let n = fold_state(log, base, state, unit, list, work);
    Ok(n as u16)
}
