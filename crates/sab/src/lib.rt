// The entry points as C and Rust programs call them: numbers and byte slices in, one word out. include/sab.h is the manual.
#![tactic(auto)]

ghost use Rattle.std.specs.Prelude.{◌≡◌, []};
ghost use Rattle.call_model.specs.Outcome.{write_of, show_of};
ghost use Rattle.call_model.specs.Fold.{fold_of, fold_work};
ghost use Rattle.model.specs.Merge.{merge_of};
ghost use Rattle.index_model.specs.Index.{find_of};
ghost use Rattle.index_model.specs.Kept.{indexed_of, indexed_work, start_kept, act_kept, act_kept_work, take_kept, take_kept_work, take_row_kept, take_row_kept_work};
ghost use Rattle.held_vector.specs.Held.{held_of};
ghost use Rattle.sab_words.specs.Called.{called, told, called_both, told_work};
ghost use Rattle.sab_index.specs.Told.{told_start, told_kept, told_row_kept, folder_asked, found_word, listed_of};
ghost use Rattle.sab_block.specs.Handed.{handed_of};
ghost use Rattle.sab_row.specs.Rows.{row_handed_of, tried_call, row_tried_of};
ghost use Rattle.sab_fold.specs.Given.{list_given};
ghost use Rattle.order_model.specs.Order.{order_of};
ghost use Rattle.sab_order.specs.Ordered.{order_call, told_order};
ghost use Rattle.sab_file.specs.Loaded.{loaded, loaded_of};
ghost use Rattle.sab2_model.specs.Calls.{write_sab2_of, to_sab2_of, to_sab1_of};
ghost use Rattle.sab_convert.specs.Turned.{turned, turned_of};
ghost use Rattle.sab_merge.specs.Joined.{joined};
ghost use Rattle.sab_listing.specs.Printed.{printed, printed_of};
ghost use Rattle.sab_plan.specs.Told.{plan_told, plan_told_of};
ghost use Rattle.sab_vectors.specs.Compared.{compared_of};

// Starts a unit.
#[unsafe(no_mangle)]
pub extern "C" fn sab_start(
    log: &mut [u8],
    base: &mut [u8],
    index: &mut [u8],
    archive: u32,
    unit: u32,
) -> u32
    ensures { called_both result log.new index.new base.new ≡ told_start (start_kept unit log.old base.old index.old) }
{
    sab_unit::start(log, base, index, archive, unit)
}

// Makes a record of the own unit.
#[unsafe(no_mangle)]
pub extern "C" fn sab_act(
    log: &mut [u8],
    base: &[u8],
    index: &mut [u8],
    archive: u32,
    unit: u32,
    wish: &[u8],
    work: &mut [u8],
) -> u32
    ensures { called_both result log.new index.new work.new ≡ told_kept (act_kept unit log.old base.now index.old wish.now work.old) (act_kept_work unit log.old base.now index.old wish.now work.old) }
{
    sab_unit::act(log, base, index, archive, unit, wish, work)
}

// Hands out a block of what the asked vector lacks.
#[unsafe(no_mangle)]
pub extern "C" fn sab_hand_out(
    log: &[u8],
    base: &[u8],
    archive: u32,
    unit: u32,
    asked: &[u8],
    block: &mut [u8],
) -> u32
    ensures { called result log.now block.new ≡ handed_of archive unit log.now base.now asked.now block.old }
{
    sab_block::hand_out(log, base, archive, unit, asked, block)
}

// Takes a block, wholly or not at all.
#[unsafe(no_mangle)]
pub extern "C" fn sab_take(
    log: &mut [u8],
    base: &[u8],
    index: &mut [u8],
    archive: u32,
    unit: u32,
    block: &[u8],
    work: &mut [u8],
) -> u32
    ensures { called_both result log.new index.new work.new ≡ told_kept (take_kept archive unit log.old base.now index.old block.now work.old) (take_kept_work archive unit log.old base.now index.old block.now work.old) }
{
    sab_block::take(log, base, index, archive, unit, block, work)
}

// Hands out all blocks of what the asked vector lacks; the count is that of the blocks.
#[unsafe(no_mangle)]
pub extern "C" fn sab_hand_out_row(
    log: &[u8],
    base: &[u8],
    archive: u32,
    unit: u32,
    asked: &[u8],
    row: &mut [u8],
) -> u32
    ensures { called result log.now row.new ≡ row_handed_of archive unit log.now base.now asked.now row.old }
{
    sab_row::hand_out_row(log, base, archive, unit, asked, row)
}

// Takes the blocks of a row in turn, up to the first refusal; the count is that of the blocks taken, and what stopped the row.
#[unsafe(no_mangle)]
pub extern "C" fn sab_take_row(
    log: &mut [u8],
    base: &[u8],
    index: &mut [u8],
    archive: u32,
    unit: u32,
    row: &[u8],
    work: &mut [u8],
) -> u32
    ensures { called_both result log.new index.new work.new ≡ told_row_kept (take_row_kept archive unit log.old base.now index.old row.now work.old) (take_row_kept_work archive unit log.old base.now index.old row.now work.old) }
{
    sab_row::take_row(log, base, index, archive, unit, row, work)
}

// Tries a row on a copy of the log.
#[unsafe(no_mangle)]
pub extern "C" fn sab_try(
    log: &[u8],
    base: &[u8],
    archive: u32,
    unit: u32,
    row: &[u8],
    copy: &mut [u8],
    tree: &mut [u8],
    report: &mut [u8],
) -> u32
    ensures { tried_call result copy.new tree.new report.new ≡ row_tried_of archive unit log.now base.now row.now copy.old tree.old report.old }
{
    sab_row::try_row(log, base, archive, unit, row, copy, tree, report)
}

// Lists the units of the archive and folds; the count is that of the records folded.
#[unsafe(no_mangle)]
pub extern "C" fn sab_fold(
    log: &mut [u8],
    base: &mut [u8],
    archive: u32,
    unit: u32,
    list: u32,
    work: &mut [u8],
) -> u32
    ensures { called_both result log.new base.new work.new ≡ told_work (fold_of unit log.old base.old (list_given list) work.old) (fold_work unit log.old base.old (list_given list) work.old) }
{
    sab_fold::fold(log, base, archive, unit, list, work)
}

// Checks another maker's order; the count is the condition that failed first, 0 where the order is accepted.
#[unsafe(no_mangle)]
pub extern "C" fn sab_check_order(
    log: &[u8],
    base: &[u8],
    list: &[u8],
    ours: &mut [u8],
    theirs: &mut [u8],
) -> u32
    ensures { order_call result ours.new theirs.new ≡ told_order (order_of log.now base.now list.now ours.old theirs.old) }
{
    sab_order::check_order(log, base, list, ours, theirs)
}

// Writes the whole log as a file; the count is that of its blocks.
#[unsafe(no_mangle)]
pub extern "C" fn sab_write_file(
    log: &[u8],
    base: &[u8],
    archive: u32,
    unit: u32,
    file: &mut [u8],
) -> u32
    ensures { called result log.now file.new ≡ told (write_of archive unit log.now base.now file.old) }
{
    sab_file::write_file(log, base, archive, unit, file)
}

// Writes list, base and log as an SAB2 file; the count is that of its blocks.
#[unsafe(no_mangle)]
pub extern "C" fn sab_write_sab2(
    log: &[u8],
    base: &[u8],
    archive: u32,
    unit: u32,
    file: &mut [u8],
) -> u32
    ensures { called result log.now file.new ≡ told (write_sab2_of archive unit log.now base.now file.old) }
{
    sab_file::write_sab2(log, base, archive, unit, file)
}

// Makes an SAB2 file of an SAB1 file; the count is that of its blocks.
#[unsafe(no_mangle)]
pub extern "C" fn sab_to_sab2(file: &[u8], out: &mut [u8]) -> u32
    ensures { turned result out.new ≡ turned_of (to_sab2_of file.now out.old) }
{
    sab_convert::to_sab2(file, out)
}

// Makes an SAB1 file of an SAB2 file without folded records; the count is that of its blocks.
#[unsafe(no_mangle)]
pub extern "C" fn sab_to_sab1(file: &[u8], out: &mut [u8]) -> u32
    ensures { turned result out.new ≡ turned_of (to_sab1_of file.now out.old) }
{
    sab_convert::to_sab1(file, out)
}

// Reads a file of either form into a lent log and base; the count is that of the records of the log.
#[unsafe(no_mangle)]
pub extern "C" fn sab_read_file(
    log: &mut [u8],
    base: &mut [u8],
    file: &[u8],
    head: &mut [u8],
) -> u32
    ensures { loaded result log.new base.new head.new ≡ loaded_of log.old base.old file.now head.old }
{
    sab_file::read_file(log, base, file, head)
}

// Makes one file of two, by way of a lent log; the count is that of its blocks, or the file at fault.
#[unsafe(no_mangle)]
pub extern "C" fn sab_merge(first: &[u8], second: &[u8], log: &mut [u8], file: &mut [u8]) -> u32
    ensures { called result log.new file.new ≡ joined (merge_of first.now second.now log.old file.old) }
{
    sab_merge::merge(first, second, log, file)
}

// Shows the tree of a state.
#[unsafe(no_mangle)]
pub extern "C" fn sab_show(log: &[u8], base: &[u8], tree: &mut [u8]) -> u32
    ensures { called result log.now tree.new ≡ told (show_of log.now base.now tree.old) }
{
    sab_tree::show(log, base, tree)
}

// Makes the index of a log and its base afresh.
#[unsafe(no_mangle)]
pub extern "C" fn sab_index(log: &[u8], base: &[u8], index: &mut [u8], work: &mut [u8]) -> u32
    ensures { called_both result log.now index.new work.new ≡ told_work (indexed_of log.now base.now index.old work.old) (indexed_work log.now base.now index.old work.old) }
{
    sab_index::index(log, base, index, work)
}

// Looks up a label in a folder; the place is the unit of the entry, the count its number, and 0 for none.
#[unsafe(no_mangle)]
pub extern "C" fn sab_find(index: &[u8], unit: u32, number: u32, label: &[u8]) -> u32
    ensures { result ≡ found_word (find_of index.now (folder_asked unit number) label.now) }
{
    sab_index::find(index, unit, number, label)
}

// Lists a folder; the count is that of its entries. The first row and the count are written into the 4 lent bytes.
#[unsafe(no_mangle)]
pub extern "C" fn sab_list(index: &[u8], unit: u32, number: u32, range: &mut [u8]) -> u32
    ensures { called result [] range.new ≡ listed_of index.now (folder_asked unit number) range.old }
{
    sab_index::list(index, unit, number, range)
}

// Lists a file of either form as text, by way of a lent log, base and tree table.
#[unsafe(no_mangle)]
pub extern "C" fn sab_listing(
    file: &[u8],
    log: &mut [u8],
    base: &mut [u8],
    tree: &mut [u8],
    out: &mut [u8],
    length: &mut [u8],
) -> u32
    ensures { printed result log.new base.new tree.new out.new length.new ≡ printed_of file.now log.old base.old tree.old out.old length.old }
{
    sab_listing::listing(file, log, base, tree, out, length)
}

// Tries a plan of visits on eight lent logs, by way of a lent base and work memory; the count is the place of a refused plan. What is
// printed of it is written into the text.
#[unsafe(no_mangle)]
pub extern "C" fn sab_try_plan(
    plan: &[u8],
    logs: &mut [u8],
    base: &mut [u8],
    work: &mut [u8],
    text: &mut [u8],
    length: &mut [u8],
) -> u32
    ensures { plan_told result logs.new base.new work.new text.new length.new ≡ plan_told_of plan.now logs.old base.old work.old text.old length.old }
{
    sab_plan::try_plan(plan, logs, base, work, text, length)
}

// Gives the held vector; the count is that of the records of the log.
#[unsafe(no_mangle)]
pub extern "C" fn sab_vector(log: &[u8], base: &[u8], vector: &mut [u8]) -> u32
    ensures { called result log.now vector.new ≡ told (held_of log.now base.now vector.old) }
{
    sab_vectors::vector(log, base, vector)
}

// Compares two vectors; the count is the answer. What each lacks is written into the 8 lent bytes.
#[unsafe(no_mangle)]
pub extern "C" fn sab_compare(first: &[u8], second: &[u8], lacks: &mut [u8]) -> u32
    ensures { called result [] lacks.new ≡ compared_of first.now second.now lacks.old }
{
    sab_vectors::compare(first, second, lacks)
}
