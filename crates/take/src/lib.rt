// Taking a block: wholly, or not at all.
#![tactic(auto)]

ghost use Rattle.std.specs.Prelude.{◌≡◌, true, [], length};
ghost use Rattle.model.specs.Lengths.{log_size};
ghost use Rattle.model.specs.Log.{records_of, sound_log_on};
ghost use Rattle.call_model.specs.Outcome.{outcome, or_refused, takes_all, took_all, take_of};
ghost use Rattle.model.specs.Block.{block_records, given_fault};
ghost use Rattle.log_closure.specs.Tables.{places_size, seens_size, Indexed};
ghost use Rattle.log_check.specs.declared.Layout.TheVariants.{Log};
ghost use Rattle.log_check.specs.Places.{laid_at};
ghost use Rattle.refusal.specs.Refusals.{code_of};
ghost use Rattle.take_beside.specs.Judging.{judgement, judge_given};

use call_guard::open_into;
use log_closure::Tables;
use refusal::Refusal;
use take_beside::Counts;
use vector::Vector;

// A block is taken into a log that is sound behind the base vector, or refused: 2 to 6, then each record 7, 26, and 10 if held, else 8, 27,
// 9, 11. A record that the base vector counts is passed over.
pub fn take_block(
    list: u8,
    folded: Vector,
    log: &mut [u8],
    archive: u32,
    b: &[u8],
    used: usize,
    held: Vector,
    places: &mut [u16],
    seens: &mut [u16],
) -> Result<(), Refusal>
    requires { (length log.old ≡ log_size) × (sound_log_on folded.counts log.old ≡ true) × (used ≡ length (records_of log.old)) × (length places.old ≡ places_size) × (length seens.old ≡ seens_size) × Indexed folded.counts (laid_at Log log.old) used (records_of log.old) held.counts places.old seens.old }
    ensures took { outcome (code_of result) 0 log.new [] 0 ≡ or_refused (given_fault archive b.now) log.old [] (took_all log.old (takes_all list folded.counts (records_of log.old) (block_records b.now))) }
    ensures tables { judgement (code_of result) places.new seens.new ≡ judge_given list folded.counts (given_fault archive b.now) log.old b.now held.counts used places.old seens.old }
{
    take_beside::given_fault(archive, b)?;
    let n = usize::from(block_read::count_in(b));
    take_judge::judge_block(list, folded, b, n, log, held, used, places, seens)?;
    take_store::store(list, folded, log, b, n, Counts { held, used });
    Ok(())
}

// A block is taken into the log. Checked in this order: 1, 21, 19, 2 to 6, then each record 7, 26, and 10 if held, else 8, 27, 9, 11. A
// folded record is passed over. The base is only read.
pub fn take(log: &mut [u8], base: &[u8], archive: u32, unit: u8, b: &[u8]) -> Result<(), Refusal>
    ensures { outcome (code_of result) 0 log.new [] 0 ≡ take_of archive unit log.old base.now b.now }
{
    let mut tables = Tables::fresh();
    let state = open_into(log, base, unit, true, true, &mut tables)?;
    take_block(
        state.head.list,
        state.head.folded,
        log,
        archive,
        b,
        state.used,
        state.held,
        &mut tables.places,
        &mut tables.seens,
    )
}
