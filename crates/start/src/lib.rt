// Starting: the lent log becomes all zeros, and the lent base the empty one.
#![tactic(auto)]

ghost use Rattle.std.specs.Prelude.{◌≡◌};
ghost use Rattle.refusal.specs.Refusals.{code_of};
ghost use Rattle.call_model.specs.Outcome.{outcome, start_of};

use call_answer::early_check;
use refusal::Refusal;

// The lent log and base are emptied, whatever stood in them. The archive is not asked.
pub fn start(log: &mut [u8], base: &mut [u8], archive: u32, unit: u8) -> Result<(), Refusal>
    ensures { outcome (code_of result) 0 log.new base.new 0 ≡ start_of unit log.old base.old }
{
    early_check(log, base, unit, true, true)?;
    log.fill(0);
    base_empty::write_empty(base);
    Ok(())
}
