// A wish becomes a record: it is given its number and the held vector, and asked all that comes before the replay.
#![tactic(auto)]

ghost use Rattle.std.specs.Prelude.{◌≡◌, ◌+◌, ◌%◌, ◌<◌, length, get_or};
ghost use Rattle.model.specs.Lengths.{record_size};
ghost use Rattle.refusal.specs.Refusals.{code_of};
ghost use Rattle.act_wish.specs.Stamp.{stamped_by, number_as, room_as, early_as};

use base_head::is_listed;
use model::{LOG_PLACES, RECORD_BYTES};
use refusal::Refusal;
use state_check::State;
use vector::Vector;

// The wish with the unit's next number and the held vector. Behind 65,535 the number is 0: `check_early` answers 28 then.
pub fn stamp(wish: &[u8], unit: u8, held: Vector) -> [u8; RECORD_BYTES]
    requires { (length wish.now ≡ record_size) × (unit < 8) }
    ensures { result ≡ stamped_by ((get_or held.counts unit 0 + 1) % 65536) held.counts wish.now }
{
    let mut bytes = [0u8; RECORD_BYTES];
    bytes.copy_from_slice(wish);
    let count = held.counts[unit as usize];
    byte_slice::put16(&mut bytes, 2, count.wrapping_add(1));
    vector::put_vector(&mut bytes, 4, held);
    bytes
}

// Refused: 7 for a wish that is not the unit's own, or whose number and seen are not zero, or whose record is not well formed; 24 for a
// stroke in its label. The number of the record is not read.
fn check_wish(wish: &[u8], unit: u8, rec: &[u8]) -> Result<(), Refusal>
    requires { (length wish.now ≡ record_size) × (length rec.now ≡ record_size) }
    ensures { code_of result ≡ number_as unit wish.now rec.now }
{
    if wish[0] != unit {
        return Err(Refusal::Malformed);
    }
    if !byte_slice::is_blank(&wish[2..20]) {
        return Err(Refusal::Malformed);
    }
    if !act_label::body_fits(rec) {
        return Err(Refusal::Malformed);
    }
    act_label::check_field(rec)
}

// Refused: 28 if the unit has used its last number, 11 if the log is full.
fn check_room(count: u16, used: usize) -> Result<(), Refusal>
    ensures { code_of result ≡ room_as count used }
{
    if count == u16::MAX {
        return Err(Refusal::LastNumber);
    }
    if LOG_PLACES <= used {
        return Err(Refusal::FullLog);
    }
    Ok(())
}

// What comes before the replay, in this order: 26 for a unit that the list does not name, 7, 24, 28, 11.
pub fn check_early(state: State, unit: u8, wish: &[u8], rec: &[u8]) -> Result<(), Refusal>
    requires { (unit < 8) × (length wish.now ≡ record_size) × (length rec.now ≡ record_size) }
    ensures { code_of result ≡ early_as state.head.list unit state.held.counts state.used wish.now rec.now }
{
    if !is_listed(state.head.list, unit as usize) {
        return Err(Refusal::Unlisted);
    }
    check_wish(wish, unit, rec)?;
    check_room(state.held.counts[unit as usize], state.used)
}
