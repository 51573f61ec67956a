// Taking a row of blocks with an index: it is made afresh once, whatever the number of blocks.
#![tactic(auto)]

ghost use Rattle.std.specs.Prelude.{◌≡◌};
ghost use Rattle.refusal.specs.Refusals.{code_of};
ghost use Rattle.take_row.specs.Answer.{taken_of, stopped_of};
ghost use Rattle.index_model.specs.Kept.{row_kept, take_row_kept, take_row_kept_work};

use refusal::Refusal;
use take_row::RowTaken;

// The blocks of a row are taken in turn, up to the first refusal. If any was taken, a lent index becomes that of log and base, by way of
// the memory to work in that is lent with it; else both are left.
pub fn take_row(
    log: &mut [u8],
    base: &[u8],
    index: &mut [u8],
    work: &mut [u8],
    archive: u32,
    unit: u8,
    row: &[u8],
) -> Result<RowTaken, Refusal>
    ensures answer { row_kept (code_of result) 0 (taken_of result) (stopped_of result) log.new index.new ≡ take_row_kept archive unit log.old base.now index.old row.now work.old }
    ensures work { work.new ≡ take_row_kept_work archive unit log.old base.now index.old row.now work.old }
{
    if !keep_lent::both_fit(index, work) {
        return Err(Refusal::BadBuffer);
    }
    let t = take_row::take_row(log, base, archive, unit, row)?;
    if t.taken != 0 {
        index_log::renew_lent(log, base, index, work);
    }
    Ok(t)
}
