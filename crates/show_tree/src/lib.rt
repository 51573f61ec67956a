// Showing the tree: the replay of a sound state, laid in a lent table.
#![tactic(auto)]

ghost use Rattle.std.specs.Prelude.{◌≡◌, true, length, replicate};
ghost use Rattle.model.specs.Lengths.{log_size, tree_size};
ghost use Rattle.model.specs.Log.{records_of, sound_log};
ghost use Rattle.model.specs.Replay.{replay};
ghost use Rattle.model.specs.Table.{table_bytes};
ghost use Rattle.base_model.specs.Base.{tree_of};
ghost use Rattle.call_model.specs.Outcome.{outcome, show_of};
ghost use Rattle.refusal.specs.Refusals.{code_of};
ghost use Rattle.tree_maps.specs.Keys.{register_size};
ghost use Rattle.state_check.specs.Stands.{Stands};

use model::TREE_BYTES;
use refusal::Refusal;
use state_check::State;
use tree_maps::REGISTER;

// The tree of a sound log that stands alone is laid in a table of zeros, by a register of zeros.
fn fill_log(log: &[u8], n: usize, tree: &mut [u8], register: &mut [u16])
    requires { (length log.now ≡ log_size) × (sound_log log.now ≡ true) × (n ≡ length (records_of log.now)) × (tree.old ≡ replicate tree_size 0) × (register.old ≡ replicate register_size 0) }
    ensures { tree.new ≡ table_bytes (replay (records_of log.now)) }
{
    let size = tree_replay::replay_log(log, n, tree, register);
    tree_finish::finish(tree, register, size);
}

// The tree of the n records of a sound log that stands alone is laid in a lent table, which may hold anything before.
pub fn lay_log(log: &[u8], n: usize, tree: &mut [u8])
    requires { (length log.now ≡ log_size) × (sound_log log.now ≡ true) × (n ≡ length (records_of log.now)) × (length tree.old ≡ tree_size) }
    ensures { tree.new ≡ table_bytes (replay (records_of log.now)) }
{
    tree.fill(0);
    let mut register = [0u16; REGISTER];
    fill_log(log, n, tree, &mut register);
}

// The tree of a sound state is laid in a table of zeros, by a register of zeros.
fn fill_tree(log: &[u8], base: &[u8], state: State, tree: &mut [u8], register: &mut [u16])
    requires { Stands log.now base.now state × (tree.old ≡ replicate tree_size 0) × (register.old ≡ replicate register_size 0) }
    ensures { tree.new ≡ table_bytes (tree_of log.now base.now) }
{
    let size = state_tree::replay_state(log, base, state, tree, register);
    tree_finish::finish(tree, register, size);
}

// The tree of a sound state is laid in a lent table, which may hold anything before.
pub fn lay_tree(log: &[u8], base: &[u8], state: State, tree: &mut [u8])
    requires { Stands log.now base.now state × (length tree.old ≡ tree_size) }
    ensures { tree.new ≡ table_bytes (tree_of log.now base.now) }
{
    tree.fill(0);
    let mut register = [0u16; REGISTER];
    fill_tree(log, base, state, tree, &mut register);
}

// The lent table shows the tree and the asides of the lent state. A refusal leaves the table as it was. No unit is asked: 0 passes.
pub fn show_tree(log: &[u8], base: &[u8], tree: &mut [u8]) -> Result<(), Refusal>
    ensures { outcome (code_of result) 0 log.now tree.new 0 ≡ show_of log.now base.now tree.old }
{
    let state = call_guard::open(log, base, 0, tree.len() == TREE_BYTES, true)?;
    lay_tree(log, base, state, tree);
    Ok(())
}
