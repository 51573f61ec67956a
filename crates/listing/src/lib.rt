// The listing of a file of either form: what `readout` prints, written into lent memory.
#![tactic(auto)]

ghost use Rattle.std.specs.Prelude.{◌≡◌, ◌++◌, ◌≤◌, length, replicate, true};
ghost use Rattle.model.specs.Lengths.{log_size, base_size, tree_size};
ghost use Rattle.model.specs.Bytes.{word};
ghost use Rattle.model.specs.Log.{records_of};
ghost use Rattle.model.specs.Listing.{head_line, seen_line, tree_lines, refused_line};
ghost use Rattle.model.specs.Table.{table_bytes};
ghost use Rattle.base_model.specs.Base.{sound_state, held_on, tree_of};
ghost use Rattle.sab2_model.specs.Calls.{read_either_of, listing_size, listed, either_listed};
ghost use Rattle.sab2_check.specs.Told.{number_told, place_told, file_code, file_place};
ghost use Rattle.read_either.specs.Told.{either_told};
ghost use Rattle.line_text.specs.Written.{Wrote};
ghost use Rattle.listing.specs.Lists.{Lists};

use model::{BASE_BYTES, LOG_BYTES, TREE_BYTES};
use read_file::ReadFile;
use refusal::{Fault, Refusal};
use sab2_check::FileFault;
use sab2_model::LISTING_BYTES;
use state_check::State;
use vector::Vector;

// The lines of an accepted file: its head, its vector and its tree.
fn file_lines(out: &mut [u8], tree: &[u8], archive: u32, unit: u8, records: u16, v: Vector) -> usize
    requires { (length tree.now ≡ tree_size) × (word tree.now 0 ≤ 1024) × (word tree.now 2 ≤ 1024)
        × (length (head_line archive unit records ++ (seen_line v.counts ++ tree_lines tree.now)) ≤ length out.old) }
    ensures { Wrote out.old out.new 0 result (head_line archive unit records ++ (seen_line v.counts ++ tree_lines tree.now)) }
{
    let a = line_head::head_line(out, 0, archive, unit, records);
    let b = line_head::seen_line(out, a, v);
    line_tree::tree_lines(out, b, tree)
}

// The tree of a sound state, with so many records in its log and its held vector, in the lent table, which may hold anything before.
fn lay_state(log: &[u8], base: &[u8], records: u16, held: Vector, tree: &mut [u8])
    requires { (length log.now ≡ log_size) × (length base.now ≡ base_size) × (sound_state log.now base.now ≡ true) × (records ≡ length (records_of log.now)) × (held.counts ≡ held_on log.now base.now) × (length tree.old ≡ tree_size) }
    ensures { tree.new ≡ table_bytes (tree_of log.now base.now) }
{
    let head = base_head::head_of(base);
    let state = State {
        head,
        held,
        used: records as usize,
    };
    show_tree::lay_tree(log, base, state, tree);
}

// The lines of a sound state, behind its archive number and unit; the lent table shows its tree.
fn state_lines(
    text: &mut [u8],
    log: &[u8],
    base: &[u8],
    tree: &mut [u8],
    archive: u32,
    unit: u8,
    records: u16,
    held: Vector,
) -> u32
    requires { (length text.old ≡ listing_size) × (length log.now ≡ log_size) × (length base.now ≡ base_size) × (sound_state log.now base.now ≡ true) × (records ≡ length (records_of log.now)) × (held.counts ≡ held_on log.now base.now) × (length tree.old ≡ tree_size) × (unit ≤ 7) }
    ensures { Lists archive unit log.now base.now tree.new text.old text.new result }
{
    state_tree::small_counts(held);
    lay_state(log, base, records, held, tree);
    file_lines(text, tree, archive, unit, records, held) as u32
}

// A file of either form is read by way of the tree table, whose bytes are not promised.
fn read_by(
    file: &[u8],
    log: &mut [u8],
    base: &mut [u8],
    tree: &mut [u8],
) -> Result<ReadFile, FileFault>
    requires { length tree.old ≡ tree_size }
    ensures { either_told result log.new base.new ≡ read_either_of log.old base.old file.now }
{
    read_either::read_beside(log, base, file, &mut tree[0..43032])
}

// The line of a refused file; the tree table is cleared.
fn refuse(text: &mut [u8], tree: &mut [u8], fault: FileFault) -> u32
    requires { (length text.old ≡ listing_size) × (length tree.old ≡ tree_size) }
    ensures line { Wrote text.old text.new 0 result (refused_line (number_told fault) (place_told fault)) }
    ensures cleared { tree.new ≡ replicate tree_size 0 }
{
    tree.fill(0);
    line_refusal::refused_line(text, 0, fault.number(), u16::from(fault.place())) as u32
}

// What listing a file answers: whether the file was refused, with the place, and the length of the listing.
#[derive(Clone, Copy, Debug, PartialEq, Eq)]
pub struct Listed {
    pub judged: Result<(), FileFault>,
    pub length: u32,
}

// Lent memory that is not of its stated length.
fn wrong_lent() -> Listed
    ensures { (file_code result.judged ≡ 1) × (file_place result.judged ≡ 0) × (result.length ≡ 0) }
{
    Listed {
        judged: Err(FileFault::Block(Fault {
            refusal: Refusal::BadBuffer,
            place: 0,
        })),
        length: 0,
    }
}

// A file of either form is listed into lent memory of its stated lengths.
fn list_file(
    file: &[u8],
    log: &mut [u8],
    base: &mut [u8],
    tree: &mut [u8],
    text: &mut [u8],
) -> Listed
    requires { (length log.old ≡ log_size) × (length base.old ≡ base_size) × (length tree.old ≡ tree_size) × (length text.old ≡ listing_size) }
    ensures { listed (file_code result.judged) (file_place result.judged) result.length log.new base.new tree.new text.new ≡ either_listed file.now log.old base.old tree.old text.old }
{
    match read_by(file, log, base, tree) {
        Ok(r) => {
            let length = state_lines(
                text, log, base, tree, r.archive, r.unit, r.records, r.vector,
            );
            Listed {
                judged: Ok(()),
                length,
            }
        }
        Err(fault) => {
            let length = refuse(text, tree, fault);
            Listed {
                judged: Err(fault),
                length,
            }
        }
    }
}

// A file of either form is listed into the lent text, by way of the lent log, base and tree table; a refused one gives its line, leaves log
// and base, and clears the table. Lent memory that is not of its stated length is refused, and then all is left as it was.
pub fn listing(
    file: &[u8],
    log: &mut [u8],
    base: &mut [u8],
    tree: &mut [u8],
    text: &mut [u8],
) -> Listed
    ensures { listed (file_code result.judged) (file_place result.judged) result.length log.new base.new tree.new text.new ≡ either_listed file.now log.old base.old tree.old text.old }
{
    if log.len() != LOG_BYTES {
        return wrong_lent();
    }
    if base.len() != BASE_BYTES {
        return wrong_lent();
    }
    if tree.len() != TREE_BYTES {
        return wrong_lent();
    }
    if text.len() != LISTING_BYTES {
        return wrong_lent();
    }
    list_file(file, log, base, tree, text)
}
