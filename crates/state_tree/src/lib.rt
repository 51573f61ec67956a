// The tree of a state: that of its base, with the records of its log replayed from there on.
#![tactic(auto)]

ghost use Rattle.std.specs.Prelude.{◌≡◌, ◌<◌, get_or, replicate};
ghost use Rattle.model.specs.Lengths.{tree_size};
ghost use Rattle.base_model.specs.Base.{tree_of};
ghost use Rattle.state_check.specs.Stands.{Stands};
ghost use Rattle.tree_maps.specs.Keys.{register_size};
ghost use Rattle.tree_lookup.specs.Roles.{Works};
ghost use Rattle.state_tree.specs.Small.{Small};

use log_check::Layout;
use state_check::State;
use tree_table::Size;
use vector::Vector;

// The counts of a vector are numbers of 16 bits.
pub fn small_counts(held: Vector)
    ensures { Small held.counts }
{
    let counts = held.counts;
    for u in 0..8 {
        let _count = u32::from(counts[u]);
    }
}

// The records of the log of a sound state, from the tree of its base on, into a table and a register of zeros.
pub fn replay_state(
    log: &[u8],
    base: &[u8],
    state: State,
    table: &mut [u8],
    register: &mut [u16],
) -> Size
    requires { Stands log.now base.now state × (table.old ≡ replicate tree_size 0) × (register.old ≡ replicate register_size 0) }
    ensures { Works table.new register.new result.entries result.asides (tree_of log.now base.now) }
{
    small_counts(state.held);
    let size = state.head.size();
    base_load::load(base, size, table, register);
    tree_replay::replay(log, Layout::Log, state.used, table, register, size)
}
