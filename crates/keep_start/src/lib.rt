// Starting with an index: the lent log becomes all zeros and the lent base empty, and the lent index that of an empty tree, which is all
// zeros too.
#![tactic(auto)]

ghost use Rattle.std.specs.Prelude.{◌≡◌};
ghost use Rattle.refusal.specs.Refusals.{code_of};
ghost use Rattle.index_model.specs.Kept.{kept, start_kept};

use refusal::Refusal;

// The lent log and base are emptied, and the index with them, if one is lent. A refusal leaves all as they were. The archive is not asked.
pub fn start(
    log: &mut [u8],
    base: &mut [u8],
    index: &mut [u8],
    archive: u32,
    unit: u8,
) -> Result<(), Refusal>
    ensures { kept (code_of result) 0 log.new index.new base.new ≡ start_kept unit log.old base.old index.old }
{
    if !keep_lent::index_fits(index) {
        return Err(Refusal::BadBuffer);
    }
    start::start(log, base, archive, unit)?;
    index.fill(0);
    Ok(())
}
