// Replay: records are taken into a tree table one after another.
#![tactic(auto)]

ghost use Rattle.std.specs.Prelude.{◌≡◌, true, ◌+◌, ◌≤◌, ◌<◌, length, replicate};
ghost use Rattle.model.specs.Record.{op};
ghost use Rattle.model.specs.Log.{records_of, sound_log};
ghost use Rattle.model.specs.Replay.{empty_tree, step as step_of, replay_from, replay as replayOf};
ghost use Rattle.tree_table.specs.Rows.{tree_in};
ghost use Rattle.hash_chains.specs.Chains.{nodes_in};
ghost use Rattle.tree_maps.specs.Keys.{register_size};
ghost use Rattle.tree_lookup.specs.Roles.{Works, Holds};
ghost use Rattle.tree_amend.specs.Effects.{Takes};
ghost use Rattle.log_check.specs.Places.{laid_at, Laid};
ghost use Rattle.log_check.specs.InOrder.{listed};
ghost use Rattle.tree_replay.specs.Playable.{Playable};
ghost use Rattle.tree_replay.specs.Registers.{step_on, replay_on};

use log_check::Layout;
use record_uses::Operation;
use tree_table::Size;

// A make: the chain of its label is worked out once, for its judgement and its effect.
fn make_at(
    rec: &[u8],
    table: &mut [u8],
    register: &mut [u16],
    entries: usize,
    asides: usize,
) -> Size
    requires { Takes (tree_in table.old entries asides) rec.now × Holds table.old register.old entries asides × (entries < 1024) × (asides < 1024) × (entries + asides < 1536) × (nodes_in 4097 register.old < 1536) × (op rec.now ≤ 2) }
    ensures { Works table.new register.new result.entries result.asides (step_of (tree_in table.old entries asides) rec.now) × (nodes_in 4097 register.new ≤ nodes_in 4097 register.old + 1) × (register.new ≡ step_on rec.now (tree_in table.old entries asides) register.old) }
{
    let h = tree_judge::label_chain(rec);
    match tree_judge::judge_make_at(rec, table, register, Size { entries, asides }, h) {
        Ok(()) => tree_effect::add_entry(rec, table, register, Size { entries, asides }, h),
        Err(aside) => {
            tree_effect::stand_aside(
                rec,
                u8::from(aside.reason),
                aside.marked,
                table,
                register,
                Size { entries, asides },
            )
        }
    }
}

// One record: it acts, or stands aside. The size is given as two numbers: a struct that was written field by field and is then read whole waits for its writes.
fn step_at(
    rec: &[u8],
    table: &mut [u8],
    register: &mut [u16],
    entries: usize,
    asides: usize,
) -> Size
    requires { Takes (tree_in table.old entries asides) rec.now × Holds table.old register.old entries asides × (entries < 1024) × (asides < 1024) × (entries + asides < 1536) × (nodes_in 4097 register.old < 1536) }
    ensures { Works table.new register.new result.entries result.asides (step_of (tree_in table.old entries asides) rec.now) × (nodes_in 4097 register.new ≤ nodes_in 4097 register.old + 1) × (register.new ≡ step_on rec.now (tree_in table.old entries asides) register.old) }
{
    if let Operation::MakeFolder | Operation::MakeTrace = tree_table::operation_of(rec) {
        return make_at(rec, table, register, entries, asides);
    }
    match tree_judge::judge(rec, table, register, Size { entries, asides }) {
        Ok(()) => tree_effect::effect(rec, table, register, Size { entries, asides }),
        Err(aside) => {
            tree_effect::stand_aside(
                rec,
                u8::from(aside.reason),
                aside.marked,
                table,
                register,
                Size { entries, asides },
            )
        }
    }
}

// One record, from a size on.
pub fn step(rec: &[u8], table: &mut [u8], register: &mut [u16], size: Size) -> Size
    requires { Takes (tree_in table.old size.entries size.asides) rec.now × Holds table.old register.old size.entries size.asides × (size.entries < 1024) × (size.asides < 1024) × (size.entries + size.asides < 1536) × (nodes_in 4097 register.old < 1536) }
    ensures { Works table.new register.new result.entries result.asides (step_of (tree_in table.old size.entries size.asides) rec.now) × (nodes_in 4097 register.new ≤ nodes_in 4097 register.old + 1) × (register.new ≡ step_on rec.now (tree_in table.old size.entries size.asides) register.old) }
{
    step_at(rec, table, register, size.entries, size.asides)
}

// The first n records of a log or a file, from the tree that a table holds on.
pub fn replay(
    bytes: &[u8],
    layout: Layout,
    n: usize,
    table: &mut [u8],
    register: &mut [u16],
    start: Size,
) -> Size
    requires { Laid layout bytes.now n × Playable (tree_in table.old start.entries start.asides) (laid_at layout bytes.now) n × Holds table.old register.old start.entries start.asides × (start.entries + n ≤ 1024) × (start.asides + n ≤ 1024) × (start.entries + start.asides + n ≤ 1536) × (nodes_in 4097 register.old + n ≤ 1536) }
    ensures { Works table.new register.new result.entries result.asides (replay_from (tree_in table.old start.entries start.asides) (listed (laid_at layout bytes.now) 0 n)) × (register.new ≡ replay_on (tree_in table.old start.entries start.asides) register.old (listed (laid_at layout bytes.now) 0 n)) }
{
    let mut entries = start.entries;
    let mut asides = start.asides;
    for i in 0..n {
        let at = log_check::offset(layout, i);
        let next = step_at(&bytes[at..at + 80], table, register, entries, asides);
        entries = next.entries;
        asides = next.asides;
    }
    Size { entries, asides }
}

// The n records of a sound log, from the root alone on, into a table and a register of zeros.
pub fn replay_log(log: &[u8], n: usize, table: &mut [u8], register: &mut [u16]) -> Size
    requires { (length log.now ≡ 40960) × (sound_log log.now ≡ true) × (n ≡ length (records_of log.now)) × (table.old ≡ replicate 86020 0) × (register.old ≡ replicate register_size 0) }
    ensures { Works table.new register.new result.entries result.asides (replayOf (records_of log.now)) × (register.new ≡ replay_on empty_tree (replicate register_size 0) (records_of log.now)) }
{
    replay(
        log,
        Layout::Log,
        n,
        table,
        register,
        Size {
            entries: 0,
            asides: 0,
        },
    )
}
