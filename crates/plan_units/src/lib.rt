// Eight units whose logs lie end to end, each with the base of a start: the true vector of one.
#![tactic(auto)]

ghost use Rattle.std.specs.Prelude.{◌≡◌, ◌<◌, length};
ghost use Rattle.model.specs.Log.{records_of};
ghost use Rattle.base_model.specs.Base.{empty_base, held_on};
ghost use Rattle.call_laws.specs.Keeps.{Good};
ghost use Rattle.plan_model.specs.Plan.{true_vector};
ghost use Rattle.plan_units.specs.Units.{Units};

use vector::Vector;

// The held vector of a log of so many records. Nothing of it is checked again.
pub fn held_counts(log: &[u8], used: usize) -> Vector
    requires { Good log.now empty_base × (used ≡ length (records_of log.now)) }
    ensures { result.counts ≡ held_on log.now empty_base }
{
    let none = vector::zero_vector();
    fold_log::counted(none, log, used)
}

// The true vector of a unit.
pub fn true_vector(logs: &[u8], u: usize) -> Vector
    requires { Units logs.now × (u < 8) }
    ensures { result.counts ≡ true_vector logs.now u }
{
    let at = 40960 * u;
    let used = log_check::used(&logs[at..at + 40960]);
    held_counts(&logs[at..at + 40960], used)
}
