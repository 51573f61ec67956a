// Taking a block with an index: a block that is taken may put records anywhere among those held, so the index is made afresh.
#![tactic(auto)]

ghost use Rattle.std.specs.Prelude.{◌≡◌, []};
ghost use Rattle.refusal.specs.Refusals.{code_of};
ghost use Rattle.index_model.specs.Kept.{kept, take_kept, take_kept_work};

use refusal::Refusal;

// A block is taken into the log, and a lent index becomes that of log and base, by way of the memory to work in that is lent with it. A
// refusal leaves all as they were.
pub fn take(
    log: &mut [u8],
    base: &[u8],
    index: &mut [u8],
    work: &mut [u8],
    archive: u32,
    unit: u8,
    b: &[u8],
) -> Result<(), Refusal>
    ensures answer { kept (code_of result) 0 log.new index.new [] ≡ take_kept archive unit log.old base.now index.old b.now work.old }
    ensures work { work.new ≡ take_kept_work archive unit log.old base.now index.old b.now work.old }
{
    if !keep_lent::both_fit(index, work) {
        return Err(Refusal::BadBuffer);
    }
    take::take(log, base, archive, unit, b)?;
    index_log::renew_lent(log, base, index, work);
    Ok(())
}
