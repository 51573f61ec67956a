// The lent log: its records checked in order, behind a base vector.
#![tactic(auto)]

ghost use Rattle.std.specs.Prelude.{◌≡◌, true, ◌+◌, ◌≤◌, ◌<◌, ◌↔◌, IsOk, IfOk, length};
ghost use Rattle.model.specs.Lengths.{log_size, log_places};
ghost use Rattle.model.specs.Bytes.{blank};
ghost use Rattle.model.specs.Log.{records_of, sound_log_on};
ghost use Rattle.refusal.specs.Refusals.{fault_code, fault_place};
ghost use Rattle.log_closure.specs.Tables.{places_size, seens_size, Indexed};
ghost use Rattle.log_check.specs.declared.Layout.TheVariants.{Log};
ghost use Rattle.log_check.specs.Places.{offset_of, laid_at, Laid};
ghost use Rattle.log_check.specs.InOrder.{scan_of, ScanGives, held_of, check_of};
ghost use Rattle.log_check.specs.Told.{held_in, scan_told, told_in, check_told};

use log_admit::Before;
use log_closure::Tables;
use model::{LOG_BYTES, LOG_PLACES};
use refusal::Fault;
use vector::Vector;

// Where records stand: places of 80 bytes, or six to a block of 512 bytes behind its header.
#[derive(Clone, Copy, Debug, PartialEq, Eq)]
pub enum Layout {
    Log,
    File,
}

// Of a log: how many records it has, and the base vector with them counted, zeros if one has a fault.
#[derive(Clone, Copy, Drop)]
pub struct Checked {
    pub used: usize,
    pub held: Vector,
}

// Where record i stands.
pub fn offset(layout: Layout, i: usize) -> usize
    requires { i < 65536 }
    ensures { (result ≡ offset_of layout i) × (result < 8388608) }
{
    match layout {
        Layout::Log => 80 * i,
        Layout::File => 512 * (i / 6) + (28 + 80 * (i % 6)),
    }
}

// The first n records are judged one after another, and noted up to the first that has a fault: the base vector with them counted, or
// that fault and its record.
pub fn scan(
    base: Vector,
    bytes: &[u8],
    layout: Layout,
    n: usize,
    places: &mut [u16],
    seens: &mut [u16],
) -> Result<Vector, Fault<usize>>
    requires { (n ≤ log_places) × Laid layout bytes.now n × (length places.old ≡ places_size) × (length seens.old ≡ seens_size) }
    ensures outright { scan_told result places.new seens.new ≡ scan_of base.counts (laid_at layout bytes.now) n places.old seens.old }
    ensures gives { ScanGives base.counts (laid_at layout bytes.now) n (fault_code result) (fault_place result) (held_in result) places.new seens.new }
{
    let mut b = Before {
        held: base,
        floor: 0,
    };
    for i in 0..n {
        let at = offset(layout, i);
        match log_admit::admit(base, &bytes[at..at + 80], i, b, places, seens) {
            Ok(next) => b = next,
            Err(refusal) => return Err(Fault { refusal, place: i }),
        }
    }
    Ok(b.held)
}

// A place is all zero. No record has a zero for its operation, so that byte mostly tells.
fn is_free(place: &[u8]) -> bool
    requires { length place.now ≡ 80 }
    ensures { result ≡ blank place.now }
{
    if place[1] != 0 {
        return false;
    }
    byte_slice::is_blank(place)
}

// How many places stand before the first that is all zero.
pub fn used(log: &[u8]) -> usize
    requires { length log.now ≡ log_size }
    ensures { (result ≡ length (records_of log.now)) × (result ≤ log_places) }
{
    for i in 0..LOG_PLACES {
        let at = 80 * i;
        if is_free(&log[at..at + 80]) {
            return i;
        }
    }
    LOG_PLACES
}

// A log is checked, and its records are noted in the tables up to the first that has a fault: what is known of it, an error if it is not
// sound.
pub fn check_into(base: Vector, log: &[u8], tables: &mut Tables) -> Result<Checked, Checked>
    requires { length log.now ≡ log_size }
    ensures outright { check_told result tables.new.places tables.new.seens ≡ check_of base.counts log.now tables.old.places tables.old.seens }
    ensures holds { IfOk result (λ told. Indexed base.counts (laid_at Log log.now) told.used (records_of log.now) told.held.counts tables.new.places tables.new.seens) }
{
    let n = used(log);
    let Ok(held) = scan(
        base,
        log,
        Layout::Log,
        n,
        &mut tables.places,
        &mut tables.seens,
    ) else {
        return Err(Checked {
            used: n,
            held: vector::zero_vector(),
        });
    };
    let at = 80 * n;
    if byte_slice::is_blank(&log[at..LOG_BYTES]) {
        Ok(Checked { used: n, held })
    } else {
        Err(Checked { used: n, held })
    }
}

// A log is checked: how many records it has and what they count, an error if it is not sound.
pub fn check(base: Vector, log: &[u8]) -> Result<Checked, Checked>
    requires { length log.now ≡ log_size }
    ensures sound { IsOk result ↔ (sound_log_on base.counts log.now ≡ true) }
    ensures told { ((told_in result).used ≡ length (records_of log.now)) × ((told_in result).held.counts ≡ held_of base.counts log.now) }
{
    let mut tables = Tables::fresh();
    check_into(base, log, &mut tables)
}
