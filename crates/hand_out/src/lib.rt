// Handing out: the block of the first six or fewer records that another unit lacks.
#![tactic(auto)]

ghost use Rattle.std.specs.Prelude.{◌≡◌, true, length};
ghost use Rattle.model.specs.Lengths.{log_size};
ghost use Rattle.model.specs.Log.{records_of, sound_log_on};
ghost use Rattle.call_model.specs.Outcome.{outcome, hand_block, hand_of};
ghost use Rattle.refusal.specs.Refusals.{code_of};

use block_write::{Block, block_of, empty_block};
use call_guard::open;
use hand_out_pick::gather;
use model::BLOCK_BYTES;
use refusal::Refusal;
use state_check::State;
use vector::{Vector, covers};

// The block that is handed out, with the held vector in its header. The base vector only says behind which records the log is sound.
fn block_for(log: &[u8], state: State, archive: u32, unit: u8, asked: Vector) -> Block
    requires { (length log.now ≡ log_size) × (sound_log_on state.head.folded.counts log.now ≡ true) × (state.used ≡ length (records_of log.now)) }
    ensures { result.bytes ≡ hand_block archive unit state.held.counts (records_of log.now) asked.counts }
{
    let mut recs = [0u8; 480];
    let n = gather(state.head.folded, log, state.used, asked, &mut recs);
    if n == 0 {
        return empty_block(archive, unit, 0, state.held);
    }
    block_of(archive, unit, n, 0, state.held, &recs)
}

// The first six or fewer records that the asked vector lacks are handed out in the lent block. Checked in this order: 1, 21, 19, 27. Log and
// base are only read.
pub fn hand_out(
    log: &[u8],
    base: &[u8],
    archive: u32,
    unit: u8,
    asked: Vector,
    block: &mut [u8],
) -> Result<(), Refusal>
    ensures { outcome (code_of result) 0 log.now block.new 0 ≡ hand_of archive unit log.now base.now asked.counts block.old }
{
    let state = open(log, base, unit, block.len() == BLOCK_BYTES, true)?;
    if !covers(asked, state.head.folded) {
        return Err(Refusal::BelowBase);
    }
    let b = block_for(log, state, archive, unit, asked);
    block.copy_from_slice(&b.bytes);
    Ok(())
}
