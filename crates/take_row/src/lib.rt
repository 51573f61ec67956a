// Taking a row of blocks with one check of the log: the blocks are judged one after another, and all new records go in at once.
#![tactic(auto)]

ghost use Rattle.std.specs.Prelude.{◌≡◌, true, ◌≤◌, length, get_or};
ghost use Rattle.model.specs.Lengths.{log_size, file_size, base_size};
ghost use Rattle.model.specs.Log.{records_of};
ghost use Rattle.base_model.specs.Base.{base_vector, held_on, sound_state};
ghost use Rattle.row_model.specs.Row.{row_fits, tried, try_all, row_taken, take_row_of};
ghost use Rattle.refusal.specs.Refusals.{code_of};
ghost use Rattle.log_closure.specs.Tables.{Indexed};
ghost use Rattle.log_check.specs.declared.Layout.TheVariants.{Log};
ghost use Rattle.log_check.specs.Places.{laid_at};
ghost use Rattle.take_row_store.specs.Grown.{work_size};
ghost use Rattle.take_row_judge.specs.Stopped.{stop_code};
ghost use Rattle.take_row.specs.Answer.{taken_of, stopped_of};

use call_guard::open_into;
use log_closure::Tables;
use model::BLOCK_BYTES;
use refusal::Refusal;
use take_row_judge::RowJudged;
use take_row_store::WORK_BYTES;
use vector::Vector;

// What taking a row comes to: how many of its blocks were taken, and what stopped it.
#[derive(Clone, Copy, Debug, PartialEq, Eq)]
pub struct RowTaken {
    pub taken: u8,
    pub stopped: Option<Refusal>,
}

// Memory to judge a row in.
fn fresh_work() -> [u8; 41440]
    ensures { length result ≡ work_size }
{
    [0u8; WORK_BYTES]
}

// A row may have n bytes: 0 to 86 whole blocks.
pub fn row_fits(n: usize) -> bool
    ensures { result ≡ row_fits n }
{
    if n % BLOCK_BYTES != 0 {
        return false;
    }
    n / BLOCK_BYTES <= 86
}

// A row is taken into the log of a sound state whose records the tables have, up to the first block that is refused. List and base vector
// are those of the base. What work holds before does not matter.
pub fn take_blocks(
    list: u8,
    folded: Vector,
    base: &[u8],
    log: &mut [u8],
    archive: u32,
    unit: u8,
    row: &[u8],
    used: usize,
    held: Vector,
    work: &mut [u8],
    tables: &mut Tables,
) -> RowJudged
    requires { (length row.now ≤ file_size) × (unit ≤ 7) × (length log.old ≡ log_size) × (length base.now ≡ base_size) × (sound_state log.old base.now ≡ true) × (list ≡ get_or base.now 0 0) × (folded.counts ≡ base_vector base.now) × (used ≡ length (records_of log.old)) × (length work.old ≡ work_size) × Indexed (base_vector base.now) (laid_at Log log.old) used (records_of log.old) held.counts tables.old.places tables.old.seens }
    ensures took { tried result.taken (stop_code result.stopped) log.new ≡ try_all archive unit log.old base.now row.now }
    ensures counted { (result.used ≡ length (records_of log.new)) × (result.held.counts ≡ held_on log.new base.now) }
{
    byte_copy::put(work, 0, log);
    let t = take_row_judge::judge_row(
        list, folded, base, row, archive, unit, log, used, held, work, tables,
    );
    take_row_store::put_in(folded, log, used, work, t.used);
    t
}

// The blocks of a row are taken in turn, up to the first refusal. Checked in this order: 1, 21, 2, 19; then the blocks. The base is only read.
// A frame of its own: its tables are off the stack before an index is made afresh.
#[inline(never)]
pub fn take_row(
    log: &mut [u8],
    base: &[u8],
    archive: u32,
    unit: u8,
    row: &[u8],
) -> Result<RowTaken, Refusal>
    ensures { row_taken (code_of result) 0 (taken_of result) (stopped_of result) log.new ≡ take_row_of archive unit log.old base.now row.now }
{
    let mut tables = Tables::fresh();
    let state = open_into(log, base, unit, true, row_fits(row.len()), &mut tables)?;
    let mut work = fresh_work();
    let judged = take_blocks(
        state.head.list,
        state.head.folded,
        base,
        log,
        archive,
        unit,
        row,
        state.used,
        state.held,
        &mut work,
        &mut tables,
    );
    Ok(RowTaken {
        taken: judged.taken,
        stopped: judged.stopped,
    })
}
