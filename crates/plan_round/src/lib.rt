// An event of a plan, and the events of a block one after another.
#![tactic(auto)]

ghost use Rattle.std.specs.Prelude.{◌≡◌, true, ◌+◌, ◌≤◌, ◌<◌, length};
ghost use Rattle.model.specs.Lengths.{block_size, tree_size};
ghost use Rattle.model.specs.Block.{count_in};
ghost use Rattle.base_model.specs.Base.{empty_base};
ghost use Rattle.plan_model.specs.Plan.{round, event_holds, event_done, plan_block_fault, block_done};
ghost use Rattle.plan_units.specs.Units.{Units};

use plan_act::Tally;

// An event happens.
fn event(logs: &mut [u8], base: &[u8], archive: u32, e: &[u8], work: &mut [u8], t: Tally) -> Tally
    requires { Units logs.old × (base.now ≡ empty_base) × (length e.now ≡ 84) × (event_holds e.now ≡ true) × (length work.old ≡ tree_size) × (t.skipped < 65535) }
    ensures { round logs.new result.made result.skipped ≡ event_done archive (round logs.old t.made t.skipped) e.now }
{
    let unit = e[1];
    if e[0] == 1 {
        return plan_act::act(logs, base, unit, &e[4..84], work, t);
    }
    plan_pass::pass(logs, base, archive, unit, e[2]);
    t
}

// The events of a block that passed its checks happen one after another.
pub fn block(
    logs: &mut [u8],
    base: &[u8],
    archive: u32,
    b: &[u8],
    work: &mut [u8],
    t: Tally,
) -> Tally
    requires { Units logs.old × (base.now ≡ empty_base) × (length b.now ≡ block_size) × (plan_block_fault archive b.now ≡ 0) × (length work.old ≡ tree_size) × (t.skipped + 5 < 65536) }
    ensures { round logs.new result.made result.skipped ≡ block_done archive (round logs.old t.made t.skipped) b.now }
{
    let n = block_read::count_in(b) as usize;
    let mut tally = t;
    for i in 0..n {
        let at = 28 + 84 * i;
        tally = event(logs, base, archive, &b[at..at + 84], work, tally);
    }
    tally
}
