// The check of a state: a sound base, a log that is sound behind it, and every unit that either counts listed.
#![tactic(auto)]

ghost use Rattle.std.specs.Prelude.{◌≡◌, IfSome, length};
ghost use Rattle.model.specs.Lengths.{log_size, base_size};
ghost use Rattle.model.specs.Log.{records_of};
ghost use Rattle.base_model.specs.Base.{base_vector};
ghost use Rattle.log_closure.specs.Tables.{Indexed};
ghost use Rattle.log_check.specs.declared.Layout.TheVariants.{Log};
ghost use Rattle.log_check.specs.Places.{laid_at};
ghost use Rattle.state_check.specs.State.{state_of, note_of};
ghost use Rattle.state_check.specs.Told.{state_told};

use base_head::Head;
use log_closure::Tables;
use vector::Vector;

// Of a sound state: the head of its base, the base vector with the records of the log counted, and how many these are.
#[derive(Clone, Copy, Drop)]
pub struct State {
    pub head: Head,
    pub held: Vector,
    pub used: usize,
}

// A state is checked, and the records of the log are noted in the tables, if the base is sound: none if the state is not.
pub fn check_state_into(log: &[u8], base: &[u8], tables: &mut Tables) -> Option<State>
    requires { (length log.now ≡ log_size) × (length base.now ≡ base_size) }
    ensures outright { state_told result ≡ state_of log.now base.now }
    ensures filled { tables.new ≡ note_of log.now base.now tables.old }
    ensures holds { IfSome result (λ state. Indexed (base_vector base.now) (laid_at Log log.now) state.used (records_of log.now) state.held.counts tables.new.places tables.new.seens) }
{
    if !base_check::check_base(base) {
        return None;
    }
    let head = base_head::head_of(base);
    let Ok(checked) = log_check::check_into(head.folded, log, tables) else {
        return None;
    };
    if !base_head::lists_all(head.list, checked.held) {
        return None;
    }
    Some(State {
        head,
        held: checked.held,
        used: checked.used,
    })
}

// A state is checked: none if it is not sound.
pub fn check_state(log: &[u8], base: &[u8]) -> Option<State>
    requires { (length log.now ≡ log_size) × (length base.now ≡ base_size) }
    ensures { state_told result ≡ state_of log.now base.now }
{
    let mut tables = Tables::fresh();
    check_state_into(log, base, &mut tables)
}
