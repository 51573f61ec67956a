// The ordered index of a state, made afresh: the tree is laid in memory to work in, and the index made of this table.
#![tactic(auto)]

ghost use Rattle.std.specs.Prelude.{◌≡◌, true, length};
ghost use Rattle.model.specs.Lengths.{log_size, base_size, tree_size};
ghost use Rattle.model.specs.Table.{table_bytes};
ghost use Rattle.base_model.specs.Base.{sound_state, tree_of};
ghost use Rattle.call_model.specs.Outcome.{outcome};
ghost use Rattle.index_model.specs.Index.{index_size};
ghost use Rattle.index_model.specs.Kept.{index_of_log, index_lent, indexed_of, indexed_work, table_if, if_lent, both_fit};
ghost use Rattle.refusal.specs.Refusals.{code_of};
ghost use Rattle.state_check.specs.Stands.{Stands};

use refusal::Refusal;
use state_check::State;

// The index of the tree of a sound state.
pub fn lay_index(log: &[u8], base: &[u8], state: State, index: &mut [u8], work: &mut [u8])
    requires { Stands log.now base.now state × (length index.old ≡ index_size) × (length work.old ≡ tree_size) }
    ensures index { index.new ≡ index_of_log log.now base.now }
    ensures work { work.new ≡ table_bytes (tree_of log.now base.now) }
{
    state_tree::small_counts(state.held);
    show_tree::lay_tree(log, base, state, work);
    index_make::make_index(work, index);
}

// The index of a sound state.
pub fn renew(log: &[u8], base: &[u8], index: &mut [u8], work: &mut [u8])
    requires { (length log.now ≡ log_size) × (length base.now ≡ base_size) × (sound_state log.now base.now ≡ true) × (length index.old ≡ index_size) × (length work.old ≡ tree_size) }
    ensures index { index.new ≡ index_of_log log.now base.now }
    ensures work { work.new ≡ table_bytes (tree_of log.now base.now) }
{
    let used = log_check::used(log);
    let head = base_head::head_of(base);
    let held = fold_log::counted(head.folded, log, used);
    lay_index(log, base, State { head, held, used }, index, work);
}

// The same, if an index is lent.
pub fn renew_lent(log: &[u8], base: &[u8], index: &mut [u8], work: &mut [u8])
    requires { (length log.now ≡ log_size) × (length base.now ≡ base_size) × (sound_state log.now base.now ≡ true) × (both_fit index.old work.old ≡ true) }
    ensures index { index.new ≡ if_lent index.old (index_of_log log.now base.now) }
    ensures work { work.new ≡ table_if (index_lent index.old work.old) log.now base.now work.old }
{
    if !index.is_empty() {
        renew(log, base, index, work);
    }
}

// The lent index becomes that of the lent state, and the memory to work in the table of its tree. A refusal leaves both as they were. No
// unit is asked: 0 passes.
pub fn index_log(log: &[u8], base: &[u8], index: &mut [u8], work: &mut [u8]) -> Result<(), Refusal>
    ensures answer { outcome (code_of result) 0 log.now index.new 0 ≡ indexed_of log.now base.now index.old work.old }
    ensures work { work.new ≡ indexed_work log.now base.now index.old work.old }
{
    let lent = keep_lent::index_lent(index, work);
    let state = call_guard::open(log, base, 0, lent, true)?;
    lay_index(log, base, state, index, work);
    Ok(())
}
