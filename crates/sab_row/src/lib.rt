// The calls of a row of blocks, as the static library calls them: the unit a 32-bit number, the answer in one word.
#![tactic(auto)]

ghost use Rattle.std.specs.Prelude.{◌≡◌, ◌+◌, ◌*◌};
ghost use Rattle.take_row_judge.specs.Stopped.{stop_code};
ghost use Rattle.index_model.specs.Kept.{take_row_kept, take_row_kept_work};
ghost use Rattle.sab_words.specs.Called.{called, called_both};
ghost use Rattle.sab_index.specs.Told.{told_row_kept};
ghost use Rattle.sab_row.specs.Rows.{row_handed_of, tried_call, row_tried_of};

use refusal::Refusal;
use sab_words::{answer_word, blocks_word, narrow, pack};
use take_row::RowTaken;
use vector::vector_at;

// Hands out all blocks of what the asked vector lacks; the count is that of the blocks.
pub fn hand_out_row(
    log: &[u8],
    base: &[u8],
    archive: u32,
    unit: u32,
    asked: &[u8],
    row: &mut [u8],
) -> u32
    ensures { called result log.now row.new ≡ row_handed_of archive unit log.now base.now asked.now row.old }
{
    if asked.len() != 16 {
        return answer_word(Err(Refusal::BadBuffer));
    }
    let v = vector_at(asked, 0);
    blocks_word(hand_out_row::hand_out_row(log, base, archive, narrow(unit), v, row))
}

// The count of a row that is taken: how many of its blocks were, with the number of what stopped it in the upper half.
fn row_count(row: RowTaken) -> u16
    ensures { result ≡ row.taken + 256 * stop_code row.stopped }
{
    match row.stopped {
        None => u16::from(row.taken),
        Some(refusal) => u16::from(row.taken) + 256 * u16::from(u8::from(refusal)),
    }
}

// Takes the blocks of a row in turn; the count is that of the blocks taken, with what stopped the row in its upper half.
pub fn take_row(
    log: &mut [u8],
    base: &[u8],
    index: &mut [u8],
    archive: u32,
    unit: u32,
    row: &[u8],
    work: &mut [u8],
) -> u32
    ensures { called_both result log.new index.new work.new ≡ told_row_kept (take_row_kept archive unit log.old base.now index.old row.now work.old) (take_row_kept_work archive unit log.old base.now index.old row.now work.old) }
{
    match keep_take_row::take_row(log, base, index, work, archive, narrow(unit), row) {
        Ok(taken) => pack(0, 0, row_count(taken)),
        Err(refusal) => answer_word(Err(refusal)),
    }
}

// Tries a row on a copy of the log.
pub fn try_row(
    log: &[u8],
    base: &[u8],
    archive: u32,
    unit: u32,
    row: &[u8],
    copy: &mut [u8],
    tree: &mut [u8],
    report: &mut [u8],
) -> u32
    ensures { tried_call result copy.new tree.new report.new ≡ row_tried_of archive unit log.now base.now row.now copy.old tree.old report.old }
{
    answer_word(try_row::try_row(log, base, archive, narrow(unit), row, copy, tree, report))
}
