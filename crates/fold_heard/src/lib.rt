// What each unit has heard, as one row of counts a unit, and how many records from the first on all listed units have heard of.
#![tactic(auto)]

ghost use Rattle.std.specs.Prelude.{◌≡◌, true, ◌≤◌, ◌<◌, leb, length, get_or, set, replicate};
ghost use Rattle.model.specs.Lengths.{log_size};
ghost use Rattle.model.specs.Record.{unit, num, seen_vector};
ghost use Rattle.model.specs.Log.{vector_on, records_of, sound_log_on};
ghost use Rattle.base_model.specs.Base.{is_listed};
ghost use Rattle.call_model.specs.Fold.{heard_run};
ghost use Rattle.fold_heard.specs.Rows.{heard_rows, lower_of, lowers_to, least_of, run_within};

use base_head::is_listed;
use record::{number_of, seen_vector, unit_of};
use vector::Vector;

// ---- the rows

// Every unit has heard the base vector.
fn fresh(base: Vector) -> [[u16; 8]; 8]
    ensures { result ≡ replicate 8 base.counts }
{
    let row = base.counts;
    [row; 8]
}

// What the maker of a record has heard: its seen, with the record counted.
fn told(rec: &[u8]) -> Vector
    requires { (length rec.now ≡ 80) × (unit rec.now < 8) }
    ensures { result.counts ≡ set (seen_vector rec.now) (unit rec.now) (num rec.now) }
{
    let u = usize::from(unit_of(rec));
    let mut v = seen_vector(rec);
    v.counts[u] = number_of(rec);
    v
}

// A row is replaced.
fn with_row(rows: [[u16; 8]; 8], u: usize, v: Vector) -> [[u16; 8]; 8]
    requires { u < 8 }
    ensures { result ≡ set rows u v.counts }
{
    let mut changed = rows;
    let row = v.counts;
    changed[u] = row;
    changed
}

// The row of a record's maker is replaced.
fn hear(rows: [[u16; 8]; 8], rec: &[u8]) -> [[u16; 8]; 8]
    requires { (length rec.now ≡ 80) × (unit rec.now < 8) }
    ensures { result ≡ set rows (unit rec.now) (set (seen_vector rec.now) (unit rec.now) (num rec.now)) }
{
    with_row(rows, usize::from(unit_of(rec)), told(rec))
}

// What each unit has heard, as the own unit can tell from a sound log and its base vector; of itself it is the held vector.
pub fn heard(log: &[u8], used: usize, unit: u8, base: Vector, held: Vector) -> [[u16; 8]; 8]
    requires { (length log.now ≡ log_size) × (sound_log_on base.counts log.now ≡ true) × (used ≡ length (records_of log.now)) × (unit < 8) × (held.counts ≡ vector_on base.counts (records_of log.now)) }
    ensures { result ≡ heard_rows unit base.counts (records_of log.now) }
{
    let mut rows = fresh(base);
    for i in 0..used {
        let at = 80 * i;
        let next = hear(rows, &log[at..at + 80]);
        rows = next;
    }
    with_row(rows, usize::from(unit), held)
}

// ---- the least

// Of each unit the lower of two counts.
fn lower(a: Vector, b: [u16; 8]) -> Vector
    ensures { result.counts ≡ lowers_to a.counts b 8 }
{
    Vector {
        counts: [
            a.counts[0].min(b[0]),
            a.counts[1].min(b[1]),
            a.counts[2].min(b[2]),
            a.counts[3].min(b[3]),
            a.counts[4].min(b[4]),
            a.counts[5].min(b[5]),
            a.counts[6].min(b[6]),
            a.counts[7].min(b[7]),
        ],
    }
}

// Of each unit the least count in the held vector and in the rows of the listed units.
pub fn least(rows: [[u16; 8]; 8], held: Vector, list: u8) -> Vector
    ensures { result.counts ≡ least_of list rows held.counts }
{
    let mut v = held;
    for w in 0..8 {
        if is_listed(list, w) {
            v = lower(v, rows[w]);
        }
    }
    v
}

// ---- the run

// A vector counts the record.
fn counts(v: Vector, rec: &[u8]) -> bool
    requires { (length rec.now ≡ 80) × (unit rec.now < 8) }
    ensures { result ≡ leb (num rec.now) (get_or v.counts (unit rec.now) 0) }
{
    number_of(rec) <= v.counts[usize::from(unit_of(rec))]
}

// How many records from the first on a vector counts.
fn run_within(log: &[u8], used: usize, base: Vector, v: Vector) -> usize
    requires { (length log.now ≡ log_size) × (sound_log_on base.counts log.now ≡ true) × (used ≡ length (records_of log.now)) }
    ensures { (result ≡ run_within v.counts (records_of log.now)) × (result ≤ used) }
{
    for i in 0..used {
        let at = 80 * i;
        if !counts(v, &log[at..at + 80]) {
            return i;
        }
    }
    used
}

// How many records from the first on are within what every listed unit has heard. The own unit is listed.
pub fn heard_run(log: &[u8], used: usize, unit: u8, base: Vector, held: Vector, list: u8) -> usize
    requires { (length log.now ≡ log_size) × (sound_log_on base.counts log.now ≡ true) × (used ≡ length (records_of log.now)) × (unit < 8) × (held.counts ≡ vector_on base.counts (records_of log.now)) × (is_listed list unit ≡ true) }
    ensures { (result ≡ heard_run list unit base.counts (records_of log.now) (records_of log.now)) × (result ≤ used) }
{
    let rows = heard(log, used, unit, base, held);
    run_within(log, used, base, least(rows, held, list))
}
