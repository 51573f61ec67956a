// The checks that come first in every call: lengths, unit, a row of blocks, the sound state.
#![tactic(auto)]

ghost use Rattle.std.specs.Prelude.{◌≡◌, IfOk, length};
ghost use Rattle.model.specs.Log.{records_of};
ghost use Rattle.base_model.specs.Base.{base_vector};
ghost use Rattle.log_closure.specs.Tables.{Indexed};
ghost use Rattle.log_check.specs.declared.Layout.TheVariants.{Log};
ghost use Rattle.log_check.specs.Places.{laid_at};
ghost use Rattle.call_guard.specs.Opened.{open_of, fill_of};
ghost use Rattle.call_guard.specs.Told.{opening};

use call_answer::early_check;
use log_closure::Tables;
use refusal::Refusal;
use state_check::{State, check_state, check_state_into};

// The log and the base of a call, checked in this order: 1 (`lent` says that the other lent buffers have their stated lengths), 21, 2 (`row`
// says that a row of blocks has a length that it may have), 19.
pub fn open(log: &[u8], base: &[u8], unit: u8, lent: bool, row: bool) -> Result<State, Refusal>
    ensures { opening result ≡ open_of unit log.now base.now lent row }
{
    early_check(log, base, unit, lent, row)?;
    check_state(log, base).ok_or(Refusal::UnsoundState)
}

// The same, and the records of the log are noted in the tables.
pub fn open_into(
    log: &[u8],
    base: &[u8],
    unit: u8,
    lent: bool,
    row: bool,
    tables: &mut Tables,
) -> Result<State, Refusal>
    ensures outright { opening result ≡ open_of unit log.now base.now lent row }
    ensures filled { tables.new ≡ fill_of unit log.now base.now lent row tables.old }
    ensures holds { IfOk result (λ state. Indexed (base_vector base.now) (laid_at Log log.now) state.used (records_of log.now) state.held.counts tables.new.places tables.new.seens) }
{
    early_check(log, base, unit, lent, row)?;
    check_state_into(log, base, tables).ok_or(Refusal::UnsoundState)
}
