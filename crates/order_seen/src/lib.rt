// Another maker's order, the second condition: running counts that cover what each record has seen.
#![tactic(auto)]

ghost use Rattle.std.specs.Prelude.{◌≡◌, ◌≤◌, length, replicate};
ghost use Rattle.model.specs.Lengths.{log_size, log_places};
ghost use Rattle.log_check.specs.InOrder.{listed};
ghost use Rattle.order_laws.specs.Marking.{covers_each};
ghost use Rattle.order_names.specs.Named.{named_at, Named};
ghost use Rattle.order_seen.specs.Units.{Units};

use order_names::place_named;

// The counts of the records before each of the n named cover what it has seen.
pub fn seen_first(log: &[u8], list: &[u8], n: usize, places: &[u16]) -> bool
    requires { (length log.now ≡ log_size) × (n ≤ log_places) × Named list.now places.now n × Units log.now list.now places.now n }
    ensures { result ≡ covers_each (replicate 8 0) (listed (named_at log.now list.now places.now) 0 n) }
{
    let mut had = vector::zero_vector();
    for i in 0..n {
        let at = 80 * place_named(list, i, places, n);
        let s = record::seen_vector(&log[at..at + 80]);
        if !vector::covers(had, s) {
            return false;
        }
        let u = usize::from(record::unit_of(&log[at..at + 80]));
        had = vector::bump(had, u);
    }
    true
}
