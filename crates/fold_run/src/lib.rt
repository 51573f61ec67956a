// The longest run of records that counts: replayed once, with the entries that are present and the asides counted on the way.
#![tactic(auto)]

ghost use Rattle.std.specs.Prelude.{◌≡◌, cond, ◌+◌, ◌≤◌, ◌<◌, ltb, length, take};
ghost use Rattle.model.specs.Log.{records_of};
ghost use Rattle.model.specs.Replay.{replay_from};
ghost use Rattle.call_model.specs.Fold.{longest};
ghost use Rattle.fold_count_laws.specs.Counted.{present_count, count_after, room_in};
ghost use Rattle.hash_chains.specs.Chains.{nodes_in};
ghost use Rattle.record_uses.specs.Operations.{number_of};
ghost use Rattle.tree_table.specs.Rows.{tree_in};
ghost use Rattle.tree_lookup.specs.Roles.{Works, Holds};
ghost use Rattle.log_check.specs.declared.Layout.TheVariants.{Log};
ghost use Rattle.log_check.specs.Places.{laid_at, Laid};
ghost use Rattle.tree_replay.specs.Playable.{Playable};

use log_check::Layout;
use model::BASE_PLACES;
use record_uses::Operation;
use tree_table::Size;

// The longest run that counts, and how many rows the table has after all records.
#[derive(Drop)]
pub struct Run {
    pub best: usize,
    pub size: Size,
}

// How many entries are present after a record, of n before it: by what it does, unless there is an aside more.
#[tactic(auto, unfolding(fold_count_laws::specs::Counted::count_after))]
fn count_after(operation: Operation, before: usize, after: usize, n: usize) -> usize
    requires { n ≤ 1024 }
    ensures { result ≡ count_after (number_of operation) (ltb before after) n }
{
    if before < after {
        return n;
    }
    match operation {
        Operation::MakeFolder | Operation::MakeTrace => n + 1,
        Operation::Remove => n.saturating_sub(1),
        Operation::Store | Operation::Rename | Operation::Settle | Operation::Move => n,
    }
}

// The longer run, if so many entries and asides have room in a base.
#[tactic(auto, unfolding(fold_count_laws::specs::Counted::room_in))]
fn better(entries: usize, asides: usize, longer: usize, best: usize) -> usize
    ensures { result ≡ cond (room_in entries asides) longer best }
{
    if entries <= BASE_PLACES && asides <= BASE_PLACES {
        longer
    } else {
        best
    }
}

// The first n records of a log are replayed from the tree that a table holds on, all of whose entries are present.
pub fn longest_run(log: &[u8], n: usize, table: &mut [u8], register: &mut [u16], start: Size) -> Run
    requires { (n ≤ length (records_of log.now)) × Laid Log log.now n × Playable (tree_in table.old start.entries start.asides) (laid_at Log log.now) n × Holds table.old register.old start.entries start.asides × (present_count (tree_in table.old start.entries start.asides) ≡ start.entries) × (start.entries + n ≤ 1024) × (start.asides + n ≤ 1024) × (start.entries + start.asides + n ≤ 1536) × (nodes_in 4097 register.old + n ≤ 1536) }
    ensures best { (result.best ≡ longest (tree_in table.old start.entries start.asides) (records_of log.now) n) × (result.best ≤ n) }
    ensures replayed { Works table.new register.new result.size.entries result.size.asides (replay_from (tree_in table.old start.entries start.asides) (take n (records_of log.now))) }
{
    let mut size = start;
    let mut present = start.entries;
    let mut best: usize = 0;
    for i in 0..n {
        let at = log_check::offset(Layout::Log, i);
        let rec = &log[at..at + 80];
        let next = tree_replay::step(rec, table, register, size);
        let operation = tree_table::operation_of(rec);
        present = count_after(operation, size.asides, next.asides, present);
        best = better(present, next.asides, i + 1, best);
        size = next;
    }
    Run { best, size }
}
