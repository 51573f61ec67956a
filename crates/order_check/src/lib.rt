// Checking another maker's order: the log and its base, the three conditions, and the two trees for the caller to see what differs.
#![tactic(auto)]

ghost use Rattle.std.specs.Prelude.{◌≡◌, true, length, IfOk};
ghost use Rattle.model.specs.Lengths.{log_size, tree_size};
ghost use Rattle.model.specs.Log.{vector_of, records_of, sound_log};
ghost use Rattle.model.specs.Replay.{replay};
ghost use Rattle.model.specs.Table.{table_bytes};
ghost use Rattle.base_model.specs.Base.{base_vector};
ghost use Rattle.order_model.specs.Order.{names_given, in_order_of, seen_first, shown_alike, ordered, judged_order, order_lent, order_of};
ghost use Rattle.log_closure.specs.Tables.{Indexed};
ghost use Rattle.log_check.specs.declared.Layout.TheVariants.{Log};
ghost use Rattle.log_check.specs.Places.{laid_at};
ghost use Rattle.call_guard.specs.Opened.{open_of};
ghost use Rattle.call_guard.specs.Told.{opening};
ghost use Rattle.order_names.specs.Named.{Positions};
ghost use Rattle.order_check.specs.Given.{Given};
ghost use Rattle.order_check.specs.Failed.{condition_number, failed_number, ordered_by};

use log_closure::Tables;
use model::TREE_BYTES;
use refusal::Refusal;
use state_check::State;
use vector::Vector;
use write_file::is_zero;

// The three conditions of an order, with their numbers: each record is named once, none stands before one that it has seen, and the tree
// is ours.
#[derive(Clone, Copy, Debug, PartialEq, Eq)]
pub enum Condition {
    Names = 1,
    Seen = 2,
    Tree = 3,
}

impl From<Condition> for u8 {
    ghost from_gives = { λ condition number. number ≡ condition_number condition };

    fn from(condition: Condition) -> u8 {
        condition as u8
    }
}

// The two lent tables have their stated lengths.
fn lent_fits(ours: &[u8], theirs: &[u8]) -> bool
    ensures { result ≡ order_lent ours.now theirs.now }
{
    ours.len() == TREE_BYTES && theirs.len() == TREE_BYTES
}

// The state, checked in this order: 1 (the two tables too), 19; the records of its log are noted in the tables of positions.
fn open_order(
    log: &[u8],
    base: &[u8],
    ours: &[u8],
    theirs: &[u8],
    tables: &mut Tables,
) -> Result<State, Refusal>
    ensures outright { opening result ≡ open_of 0 log.now base.now (order_lent ours.now theirs.now) true }
    ensures holds { IfOk result (λ state. Indexed (base_vector base.now) (laid_at Log log.now) state.used (records_of log.now) state.held.counts tables.new.places tables.new.seens) }
{
    let lent = lent_fits(ours, theirs);
    call_guard::open_into(log, base, 0, lent, true, tables)
}

// The second condition, of a list that meets the first.
fn seen_first(log: &[u8], list: &[u8], n: usize, places: &[u16]) -> bool
    requires { Given log.now list.now places.now n }
    ensures { result ≡ seen_first (in_order_of (names_given list.now) (records_of log.now)) }
{
    order_seen::seen_first(log, list, n, places)
}

// The third condition, of a list that meets the first: our tree and that of the order are laid in the lent tables, which may hold anything
// before, and compared.
fn trees_alike(
    log: &[u8],
    list: &[u8],
    n: usize,
    places: &[u16],
    ours: &mut [u8],
    theirs: &mut [u8],
) -> bool
    requires { Given log.now list.now places.now n × (length ours.old ≡ tree_size) × (length theirs.old ≡ tree_size) }
    ensures told { result ≡ shown_alike (replay (records_of log.now)) (replay (in_order_of (names_given list.now) (records_of log.now))) }
    ensures mine { ours.new ≡ table_bytes (replay (records_of log.now)) }
    ensures other { theirs.new ≡ table_bytes (replay (in_order_of (names_given list.now) (records_of log.now))) }
{
    show_tree::lay_log(log, n, ours);
    order_tree::lay_order(log, list, n, places, theirs);
    order_rows::tables_alike(ours, theirs)
}

// The condition that fails first, of a list that meets the first one.
fn judge_named(
    log: &[u8],
    list: &[u8],
    n: usize,
    places: &[u16],
    ours: &mut [u8],
    theirs: &mut [u8],
) -> Option<Condition>
    requires { Given log.now list.now places.now n × (length ours.old ≡ tree_size) × (length theirs.old ≡ tree_size) }
    ensures { ordered 0 0 (failed_number result) ours.new theirs.new ≡ judged_order (names_given list.now) (records_of log.now) ours.old theirs.old }
{
    if !seen_first(log, list, n, places) {
        return Some(Condition::Seen);
    }
    if !trees_alike(log, list, n, places, ours, theirs) {
        return Some(Condition::Tree);
    }
    None
}

// The condition that fails first of the n records of a sound log that stands alone, whose counts and positions are given.
fn judge_order(
    log: &[u8],
    list: &[u8],
    n: usize,
    held: Vector,
    places: &[u16],
    ours: &mut [u8],
    theirs: &mut [u8],
) -> Option<Condition>
    requires { (length log.now ≡ log_size) × (sound_log log.now ≡ true) × (n ≡ length (records_of log.now)) × (held.counts ≡ vector_of (records_of log.now)) × Positions log.now places.now n × (length ours.old ≡ tree_size) × (length theirs.old ≡ tree_size) }
    ensures { ordered 0 0 (failed_number result) ours.new theirs.new ≡ judged_order (names_given list.now) (records_of log.now) ours.old theirs.old }
{
    if !order_names::names_all(log, list, n, held) {
        return Some(Condition::Names);
    }
    judge_named(log, list, n, places, ours, theirs)
}

// Another maker's order is checked against a log: the condition that fails first, none where the order is accepted. Checked in this order:
// 1, 19, 29 where records are folded; then the conditions. Where the first two hold, our tree and that of the order stand in the lent
// tables; otherwise both are left as they were. Log, base and list are only read. No unit is asked: 0 passes.
pub fn check_order(
    log: &[u8],
    base: &[u8],
    list: &[u8],
    ours: &mut [u8],
    theirs: &mut [u8],
) -> Result<Option<Condition>, Refusal>
    ensures { ordered_by result ours.new theirs.new ≡ order_of log.now base.now list.now ours.old theirs.old }
{
    let mut tables = Tables::fresh();
    let state = open_order(log, base, ours, theirs, &mut tables)?;
    if !is_zero(state.head.folded) {
        return Err(Refusal::FoldedRecords);
    }
    Ok(judge_order(
        log,
        list,
        state.used,
        state.held,
        &tables.places,
        ours,
        theirs,
    ))
}
