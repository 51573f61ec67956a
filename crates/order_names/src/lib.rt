// Another maker's order, the first condition: it names each record once, and nothing else. And the record that a name names.
#![tactic(auto)]

ghost use Rattle.std.specs.Prelude.{◌≡◌, true, cond, ◌+◌, ◌*◌, ◌≤◌, ◌<◌, length, set, replicate};
ghost use Rattle.model.specs.Lengths.{log_size, log_places};
ghost use Rattle.model.specs.Log.{vector_of, records_of, sound_log};
ghost use Rattle.order_model.specs.Order.{name_at, names_from, name_count, names_given, names_all};
ghost use Rattle.order_laws.specs.Marking.{mark_slot, is_new, marks_all};
ghost use Rattle.order_names.specs.Named.{marks_size, Few, place_named, Named};

use byte_slice::le16;
use log_closure::{position, slot};
use vector::Vector;

// A mark for each unit and number.
const MARKS: usize = 4096;

// How many names: a part of four bytes behind the last is a name too.
fn count_names(list: &[u8]) -> usize
    ensures { result ≡ name_count list.now }
{
    list.len().div_ceil(4)
}

// The name at place i of the list, or 0, which is no record's: the tables of the definitions hold it so.
fn name_at(list: &[u8], i: usize) -> u32
    requires { 4 * i < length list.now }
    ensures { (result ≡ name_at list.now i) × (result < 524288) }
{
    let at = 4 * i;
    if list.len() - at < 4 {
        return 0;
    }
    let u = list[at];
    if 7 < u {
        return 0;
    }
    if list[at + 1] != 0 {
        return 0;
    }
    8 * u32::from(le16(list, at + 2)) + u32::from(u)
}

// The name k is marked, if it is ours and has no mark yet.
fn mark(k: u32, held: Vector, marks: &mut [u8]) -> bool
    requires { (k < 524288) × (length marks.old ≡ marks_size) × Few held.counts }
    ensures { (result ≡ is_new held.counts marks.old k) × (marks.new ≡ cond (is_new held.counts marks.old k) (set marks.old (mark_slot k) 1) marks.old) }
{
    let u = (k % 8) as usize;
    let c = (k / 8) as u16;
    if c == 0 {
        return false;
    }
    if held.counts[u] < c {
        return false;
    }
    let i = slot(u, c);
    if marks[i] != 0 {
        return false;
    }
    marks[i] = 1;
    true
}

// Each of the first n names is ours, and none has a mark before its turn.
fn mark_names(list: &[u8], n: usize, held: Vector, marks: &mut [u8]) -> bool
    requires { (n ≤ log_places) × (4 * n < length list.now + 4) × (length marks.old ≡ marks_size) × Few held.counts }
    ensures { result ≡ marks_all held.counts marks.old (names_from list.now 0 n) }
{
    for i in 0..n {
        let k = name_at(list, i);
        if !mark(k, held, marks) {
            return false;
        }
    }
    true
}

// The list names each of the n records of a sound log once, and nothing else. The counts of the records are given. A list of any other
// number of names is turned away by its length alone.
pub fn names_all(log: &[u8], list: &[u8], n: usize, held: Vector) -> bool
    requires { (length log.now ≡ log_size) × (sound_log log.now ≡ true) × (n ≡ length (records_of log.now)) × (held.counts ≡ vector_of (records_of log.now)) }
    ensures { result ≡ names_all (names_given list.now) (records_of log.now) }
{
    if count_names(list) != n {
        return false;
    }
    let mut marks = [0u8; MARKS];
    mark_names(list, n, held, &mut marks)
}

// Where the record that the name at place i names stands in a log, by the table of positions.
pub fn place_named(list: &[u8], i: usize, places: &[u16], n: usize) -> usize
    requires { Named list.now places.now n × (i < n) }
    ensures { (result ≡ place_named list.now places.now i) × (result < log_places) }
{
    let k = name_at(list, i);
    position(places, (k % 8) as usize, (k / 8) as u16)
}
