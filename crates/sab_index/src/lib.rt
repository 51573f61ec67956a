// The ordered index, as the static library calls it: made from a log and its base, a label looked up, a folder listed. A folder is given by unit and number.
#![tactic(auto)]

ghost use Rattle.std.specs.Prelude.{◌≡◌, [], ◌/◌, ◌%◌, ◌≤◌, length};
ghost use Rattle.index_model.specs.Index.{index_places, find_of, range};
ghost use Rattle.index_model.specs.Kept.{indexed_of, indexed_work};
ghost use Rattle.sab_words.specs.Called.{called, called_both, told_work};
ghost use Rattle.sab_index.specs.Told.{range_size, folder_asked, found_word, told_range, listed_of};

use byte_slice::put16;
use refusal::Refusal;
use sab_words::{answer_word, pack};

// The bytes lent for the range of a listing.
pub const RANGE_BYTES: usize = 4;

// Makes the index of a log and its base afresh.
pub fn index(log: &[u8], base: &[u8], index: &mut [u8], work: &mut [u8]) -> u32
    ensures { called_both result log.now index.new work.new ≡ told_work (indexed_of log.now base.now index.old work.old) (indexed_work log.now base.now index.old work.old) }
{
    answer_word(index_log::index_log(log, base, index, work))
}

// The folder asked, as one number; C gives unit and number in 32 bits each. Where it is no identity, one that no entry has.
fn folder_asked(unit: u32, number: u32) -> u32
    ensures { result ≡ folder_asked unit number }
{
    if 7 < unit {
        return 4294967295;
    }
    if 65535 < number {
        return 4294967295;
    }
    8 * number + unit
}

// The unit of an identity.
fn unit_in(k: u32) -> u8
    ensures { result ≡ k % 8 }
{
    (k % 8) as u8
}

// The number of an identity, in 16 bits.
fn number_in(k: u32) -> u16
    ensures { result ≡ k / 8 % 65536 }
{
    (k / 8 % 65536) as u16
}

// Looks up a label in a folder; the place is the unit of the entry, the count its number, and 0 for none.
pub fn find(index: &[u8], unit: u32, number: u32, label: &[u8]) -> u32
    ensures { result ≡ found_word (find_of index.now (folder_asked unit number) label.now) }
{
    let folder = folder_asked(unit, number);
    match index_find::find(index, folder, label) {
        Ok(entry) => pack(0, unit_in(entry), number_in(entry)),
        Err(refusal) => answer_word(Err(refusal)),
    }
}

// The first row of a folder and how many it has are told: the count in the word, both in the lent bytes.
fn tell(first: usize, count: usize, lent: &mut [u8]) -> u32
    requires { (length lent.old ≡ range_size) × (first ≤ index_places) × (count ≤ index_places) }
    ensures { called result [] lent.new ≡ told_range lent.old (range 0 first count) }
{
    let n = count as u16;
    put16(lent, 0, first as u16);
    put16(lent, 2, n);
    pack(0, 0, n)
}

// Lists a folder; the count is that of its entries. The first row and the count are written into the 4 lent bytes.
pub fn list(index: &[u8], unit: u32, number: u32, lent: &mut [u8]) -> u32
    ensures { called result [] lent.new ≡ listed_of index.now (folder_asked unit number) lent.old }
{
    if lent.len() != RANGE_BYTES {
        return answer_word(Err(Refusal::BadBuffer));
    }
    let folder = folder_asked(unit, number);
    match index_find::list(index, folder) {
        Ok(rows) => tell(rows.first, rows.count, lent),
        Err(refusal) => answer_word(Err(refusal)),
    }
}
