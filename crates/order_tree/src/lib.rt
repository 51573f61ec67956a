// Another maker's order, for the third condition: the records named are replayed in that order, and their tree is laid in a table.
#![tactic(auto)]

ghost use Rattle.std.specs.Prelude.{◌≡◌, ◌≤◌, length, replicate};
ghost use Rattle.model.specs.Lengths.{log_size, log_places, tree_size};
ghost use Rattle.model.specs.Replay.{empty_tree, replay};
ghost use Rattle.model.specs.Table.{table_bytes};
ghost use Rattle.tree_maps.specs.Keys.{register_size};
ghost use Rattle.tree_lookup.specs.Roles.{Works};
ghost use Rattle.log_check.specs.InOrder.{listed};
ghost use Rattle.tree_replay.specs.Playable.{Playable};
ghost use Rattle.order_names.specs.Named.{named_at, Named};

use order_names::place_named;
use tree_maps::REGISTER;
use tree_table::Size;

// The n records named, one after another, from the root alone on, into a table and a register of zeros.
fn replay_order(
    log: &[u8],
    list: &[u8],
    n: usize,
    places: &[u16],
    table: &mut [u8],
    register: &mut [u16],
) -> Size
    requires { (length log.now ≡ log_size) × (n ≤ log_places) × Named list.now places.now n × Playable empty_tree (named_at log.now list.now places.now) n × (table.old ≡ replicate tree_size 0) × (register.old ≡ replicate register_size 0) }
    ensures { Works table.new register.new result.entries result.asides (replay (listed (named_at log.now list.now places.now) 0 n)) }
{
    let mut size = Size {
        entries: 0,
        asides: 0,
    };
    for i in 0..n {
        let at = 80 * place_named(list, i, places, n);
        size = tree_replay::step(&log[at..at + 80], table, register, size);
    }
    size
}

// Their tree is laid in a table of zeros, by a register of zeros.
fn fill_order(
    log: &[u8],
    list: &[u8],
    n: usize,
    places: &[u16],
    tree: &mut [u8],
    register: &mut [u16],
)
    requires { (length log.now ≡ log_size) × (n ≤ log_places) × Named list.now places.now n × Playable empty_tree (named_at log.now list.now places.now) n × (tree.old ≡ replicate tree_size 0) × (register.old ≡ replicate register_size 0) }
    ensures { tree.new ≡ table_bytes (replay (listed (named_at log.now list.now places.now) 0 n)) }
{
    let size = replay_order(log, list, n, places, tree, register);
    tree_finish::finish(tree, register, size);
}

// Their tree is laid in a lent table, which may hold anything before.
pub fn lay_order(log: &[u8], list: &[u8], n: usize, places: &[u16], tree: &mut [u8])
    requires { (length log.now ≡ log_size) × (n ≤ log_places) × Named list.now places.now n × Playable empty_tree (named_at log.now list.now places.now) n × (length tree.old ≡ tree_size) }
    ensures { tree.new ≡ table_bytes (replay (listed (named_at log.now list.now places.now) 0 n)) }
{
    tree.fill(0);
    let mut register = [0u16; REGISTER];
    fill_order(log, list, n, places, tree, &mut register);
}
