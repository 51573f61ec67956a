// An act of one of eight units whose logs lie end to end.
#![tactic(auto)]

ghost use Rattle.std.specs.Prelude.{◌≡◌, [], ◌+◌, ◌<◌, length, replicate};
ghost use Rattle.model.specs.Lengths.{record_size, tree_size};
ghost use Rattle.base_model.specs.Base.{empty_base};
ghost use Rattle.call_model.specs.Outcome.{outcome, act_of};
ghost use Rattle.refusal.specs.Refusals.{code_of};
ghost use Rattle.call_laws.specs.Keeps.{Good};
ghost use Rattle.plan_model.specs.Plan.{round, act_tried, act_done};
ghost use Rattle.plan_units.specs.Units.{Units};

use refusal::Refusal;
use state_check::State;

// How many records the acts have made, and how many acts were skipped.
#[derive(Clone, Copy, Debug, PartialEq, Eq)]
pub struct Tally {
    pub made: u16,
    pub skipped: u16,
}

// The act of one unit, whose log is good: it is not checked again.
fn act_unit(
    log: &mut [u8],
    base: &[u8],
    unit: u8,
    wish: &[u8],
    work: &mut [u8],
) -> Result<(), Refusal>
    requires { Good log.old empty_base × (base.now ≡ empty_base) × (unit < 8) × (length wish.now ≡ record_size) × (length work.old ≡ tree_size) }
    ensures { outcome (code_of result) 0 log.new [] 0 ≡ act_of unit log.old empty_base wish.now (replicate tree_size 0) }
{
    let head = base_head::head_of(base);
    let used = log_check::used(log);
    let held = plan_units::held_counts(log, used);
    act::act_on(log, base, State { head, held, used }, unit, wish, work)
}

// One more act is skipped.
fn skip(t: Tally) -> Tally
    requires { t.skipped < 65535 }
    ensures { (result.made ≡ t.made) × (result.skipped ≡ t.skipped + 1) }
{
    Tally {
        made: t.made,
        skipped: t.skipped + 1,
    }
}

// An act: its record is made, or it is skipped and every log is left. Behind the 512th record among all units each is skipped.
pub fn act(logs: &mut [u8], base: &[u8], unit: u8, wish: &[u8], work: &mut [u8], t: Tally) -> Tally
    requires { Units logs.old × (base.now ≡ empty_base) × (unit < 8) × (length wish.now ≡ record_size) × (length work.old ≡ tree_size) × (t.skipped < 65535) }
    ensures { round logs.new result.made result.skipped ≡ act_done (round logs.old t.made t.skipped) unit (act_tried logs.old unit wish.now) }
{
    if 512 <= t.made {
        return skip(t);
    }
    let at = 40960 * (unit as usize);
    match act_unit(&mut logs[at..at + 40960], base, unit, wish, work) {
        Ok(_) => Tally {
            made: t.made + 1,
            skipped: t.skipped,
        },
        Err(_) => skip(t),
    }
}
