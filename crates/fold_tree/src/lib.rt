// How many records of a sound state are folded, and their tree in the work memory, from the base on.
#![tactic(auto)]

ghost use Rattle.std.specs.Prelude.{◌≡◌, ◌≤◌, length, take};
ghost use Rattle.model.specs.Lengths.{tree_size};
ghost use Rattle.model.specs.Log.{records_of};
ghost use Rattle.model.specs.Replay.{replay_from};
ghost use Rattle.base_model.specs.Base.{base_tree};
ghost use Rattle.call_model.specs.Fold.{longest};
ghost use Rattle.state_check.specs.Stands.{Known};
ghost use Rattle.fold_tree.specs.Table.{Table};

use log_check::Layout;
use state_check::State;
use tree_maps::REGISTER;
use tree_table::Size;

// How many records are folded, and how many rows their table has.
#[derive(Drop)]
pub struct Folded {
    pub records: usize,
    pub size: Size,
}

// Of the first n records the longest run that counts, and its table in the work memory, which may hold anything before. Where all n count,
// they are replayed once.
pub fn fold_tree(log: &[u8], n: usize, base: &[u8], state: State, work: &mut [u8]) -> Folded
    requires { Known log.now base.now state × (n ≤ length (records_of log.now)) × (length work.old ≡ tree_size) }
    ensures run { (result.records ≡ longest (base_tree base.now) (records_of log.now) n) × (result.records ≤ n) }
    ensures laid { Table work.new result.size.entries result.size.asides (replay_from (base_tree base.now) (take result.records (records_of log.now))) }
{
    state_tree::small_counts(state.held);
    let size = state.head.size();
    work.fill(0);
    let mut register = [0u16; REGISTER];
    base_load::load(base, size, work, &mut register);
    let run = fold_run::longest_run(log, n, work, &mut register, size);
    let records = run.best;
    if records == n {
        return Folded {
            records,
            size: run.size,
        };
    }
    work.fill(0);
    register.fill(0);
    base_load::load(base, size, work, &mut register);
    let size = tree_replay::replay(log, Layout::Log, records, work, &mut register, size);
    Folded { records, size }
}
