// The held vector of a lent state: of each unit, how many records it holds, folded ones with them.
#![tactic(auto)]

ghost use Rattle.std.specs.Prelude.{◌≡◌};
ghost use Rattle.call_model.specs.Outcome.{outcome};
ghost use Rattle.refusal.specs.Refusals.{code_of};
ghost use Rattle.held_vector.specs.Held.{held_of};
ghost use Rattle.held_vector.specs.Records.{records_told};

use call_guard::open;
use refusal::Refusal;
use vector::put_vector;

// The vector of a lent state is written into 16 lent bytes, and how many records the log has is told. A refusal leaves the bytes as they were.
pub fn held_vector(log: &[u8], base: &[u8], vector: &mut [u8]) -> Result<u16, Refusal>
    ensures { outcome (code_of result) 0 log.now vector.new (records_told result) ≡ held_of log.now base.now vector.old }
{
    let state = open(log, base, 0, vector.len() == 16, true)?;
    put_vector(vector, 0, state.held);
    Ok(state.used as u16)
}
