// The checks that come before the log and base of a call are judged.
#![tactic(auto)]

ghost use Rattle.std.specs.Prelude.{◌≡◌};
ghost use Rattle.refusal.specs.Refusals.{code_of};
ghost use Rattle.call_model.specs.Outcome.{early_number};

use model::{BASE_BYTES, LOG_BYTES};
use refusal::Refusal;

// The first refusal for a log, a base or another lent buffer that is not of its stated length, for a unit above 7, and for a row of
// blocks.
pub fn early_check(log: &[u8], base: &[u8], unit: u8, lent: bool, row: bool) -> Result<(), Refusal>
    ensures { code_of result ≡ early_number unit log.now base.now lent row }
{
    if log.len() != LOG_BYTES {
        return Err(Refusal::BadBuffer);
    }
    if base.len() != BASE_BYTES {
        return Err(Refusal::BadBuffer);
    }
    if !lent {
        return Err(Refusal::BadBuffer);
    }
    if 7 < unit {
        return Err(Refusal::BadUnit);
    }
    if !row {
        return Err(Refusal::BadLength);
    }
    Ok(())
}
