// Trying a plan in memory: it is checked wholly, and then run on eight lent logs.
#![tactic(auto)]

ghost use Rattle.std.specs.Prelude.{◌≡◌, length, replicate};
ghost use Rattle.model.specs.Lengths.{tree_size, base_size};
ghost use Rattle.base_model.specs.Base.{empty_base};
ghost use Rattle.plan_model.specs.Plan.{round_size, Round, round, plan_fault, round_of, planned, planned_of};
ghost use Rattle.refusal.specs.Refusals.{fault_code, fault_place};
ghost use Rattle.plan_units.specs.Units.{Units};

use byte_slice::clear;
use model::{BASE_BYTES, TREE_BYTES};
use plan_act::Tally;
use plan_model::{PLAN_TEXT_BYTES, ROUND_BYTES};
use refusal::{Fault, Refusal};

// What trying a plan answers: whether it was refused, with the place, and how long the text is.
#[derive(Clone, Copy, Debug, PartialEq, Eq)]
pub struct Planned {
    pub judged: Result<(), Fault<u16>>,
    pub length: u16,
}

// The blocks of a plan that passed its checks, one after another, from empty logs on.
fn run_blocks(plan: &[u8], logs: &mut [u8], base: &[u8], work: &mut [u8]) -> Tally
    requires { ((plan_fault plan.now).number ≡ 0) × (logs.old ≡ replicate round_size 0) × (base.now ≡ empty_base) × (length work.old ≡ tree_size) }
    ensures happened { round logs.new result.made result.skipped ≡ round_of plan.now }
    ensures good { Units logs.new }
{
    let archive = plan_check::archive_of(plan);
    let n = plan_check::pieces(plan.len());
    let mut t = Tally {
        made: 0,
        skipped: 0,
    };
    for k in 0..n {
        let at = 512 * k;
        t = plan_round::block(logs, base, archive, &plan[at..at + 512], work, t);
    }
    t
}

// A plan that passed its checks, from whatever was lent. Answers how many acts were skipped.
fn run(plan: &[u8], logs: &mut [u8], base: &mut [u8], work: &mut [u8]) -> u16
    requires { ((plan_fault plan.now).number ≡ 0) × (length logs.old ≡ round_size) × (length base.old ≡ base_size) × (length work.old ≡ tree_size) }
    ensures good { Units logs.new }
    ensures ran { (logs.new ≡ (round_of plan.now).logs) × (result ≡ (round_of plan.now).skipped) }
    ensures emptied { (base.new ≡ empty_base) × (work.new ≡ replicate tree_size 0) }
{
    clear(logs);
    base_empty::write_empty(base);
    let t = run_blocks(plan, logs, base, work);
    clear(work);
    t.skipped
}

// A refusal of what is lent: nothing is written.
fn not_lent() -> Planned
    ensures { (fault_code result.judged ≡ 1) × (fault_place result.judged ≡ 0) × (result.length ≡ 0) }
{
    Planned {
        judged: Err(Fault {
            refusal: Refusal::BadBuffer,
            place: 0,
        }),
        length: 0,
    }
}

// A plan is tried. Lent memory that is not of its stated length is refused, and then all is left as it was. A refused plan writes its line into
// the text and nothing else. Otherwise the logs are those of the units at the end, the base is that of a start, and the work memory is zero.
pub fn try_plan(
    plan: &[u8],
    logs: &mut [u8],
    base: &mut [u8],
    work: &mut [u8],
    text: &mut [u8],
) -> Planned
    ensures { planned (fault_code result.judged) (fault_place result.judged) result.length logs.new base.new work.new text.new ≡ planned_of plan.now logs.old base.old work.old text.old }
{
    if text.len() != PLAN_TEXT_BYTES {
        return not_lent();
    }
    if base.len() != BASE_BYTES {
        return not_lent();
    }
    if work.len() != TREE_BYTES {
        return not_lent();
    }
    if logs.len() != ROUND_BYTES {
        return not_lent();
    }
    if let Err(fault) = plan_check::plan_fault(plan) {
        let n = line_refusal::refused_line(text, 0, u8::from(fault.refusal), fault.place);
        return Planned {
            judged: Err(fault),
            length: n as u16,
        };
    }
    let skipped = run(plan, logs, base, work);
    let n = plan_lines::round_text(text, logs, skipped);
    Planned {
        judged: Ok(()),
        length: n as u16,
    }
}
