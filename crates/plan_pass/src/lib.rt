// A pass of one block between two of eight units whose logs lie end to end.
#![tactic(auto)]

ghost use Rattle.std.specs.Prelude.{◌≡◌, ◌<◌};
ghost use Rattle.model.specs.Vector.{covers};
ghost use Rattle.base_model.specs.Base.{empty_base};
ghost use Rattle.plan_model.specs.Plan.{true_vector, with_log, pass_taken};
ghost use Rattle.plan_units.specs.Units.{Units};

use plan_units::true_vector;
use vector::{Vector, covers};

// One unit hands out to the true vector of another, which takes the block.
fn pass_block(logs: &mut [u8], base: &[u8], archive: u32, a: u8, b: u8, asked: Vector)
    requires { Units logs.old × (base.now ≡ empty_base) × (a < 8) × (b < 8) × (asked.counts ≡ true_vector logs.old b) }
    ensures { logs.new ≡ with_log logs.old b (pass_taken archive logs.old a b).log }
{
    let from = 40960 * (a as usize);
    let to = 40960 * (b as usize);
    let mut block = [0u8; 512];
    let _ = hand_out::hand_out(
        &logs[from..from + 40960],
        base,
        archive,
        a,
        asked,
        &mut block,
    );
    let _ = take::take(&mut logs[to..to + 40960], base, archive, b, &block);
}

// The second unit has all that the first holds: its counts cover the first's.
fn has_all(logs: &[u8], a: u8, b: u8) -> bool
    requires { Units logs.now × (a < 8) × (b < 8) }
    ensures { result ≡ covers (true_vector logs.now b) (true_vector logs.now a) }
{
    let asked = true_vector(logs, b as usize);
    let held = true_vector(logs, a as usize);
    covers(asked, held)
}

// A pass. Where the second unit has all, there is nothing to pass.
pub fn pass(logs: &mut [u8], base: &[u8], archive: u32, a: u8, b: u8)
    requires { Units logs.old × (base.now ≡ empty_base) × (a < 8) × (b < 8) }
    ensures { logs.new ≡ with_log logs.old b (pass_taken archive logs.old a b).log }
{
    if has_all(logs, a, b) {
        return;
    }
    let asked = true_vector(logs, b as usize);
    pass_block(logs, base, archive, a, b, asked);
}
