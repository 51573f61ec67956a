// What a trial reports: the disputed entries of a tree table are noted by their identities, those of another table that were not noted are
// listed, and the report is written.
#![tactic(auto)]

ghost use Rattle.std.specs.Prelude.{◌≡◌, ◌∷◌, ◌++◌, ◌≤◌, ◌<◌, length, take, drop, replicate};
ghost use Rattle.model.specs.Lengths.{tree_size};
ghost use Rattle.row_model.specs.Row.{report_size};
ghost use Rattle.model.specs.Bytes.{word, two, padded};
ghost use Rattle.model.specs.Vector.{vector_bytes};
ghost use Rattle.take_row_judge.specs.Stopped.{stop_code};
ghost use Rattle.try_row_report.specs.Listed.{notes_size, disputed_in, Shown, noted, is_among, is_new_in, listed_count, listed};

use refusal::Refusal;
use row_model::REPORT_BYTES;
use vector::Vector;

// Room to note an entry of each row.
pub const NOTES: usize = 1024;

// How many entries a table shows.
fn entries_in(tree: &[u8]) -> usize
    requires { length tree.now ≡ tree_size }
    ensures { result ≡ word tree.now 0 }
{
    usize::from(byte_slice::le16(tree, 0))
}

// The entry in row i is disputed.
fn is_disputed(tree: &[u8], i: usize) -> bool
    requires { (length tree.now ≡ tree_size) × (i < 1024) }
    ensures { result ≡ disputed_in tree.now i }
{
    tree[5 + 72 * i] == 1
}

// The identities of the disputed entries of a table are noted one behind another; their count is returned. What stood there before does
// not matter.
pub fn note_disputed(tree: &[u8], notes: &mut [u32]) -> usize
    requires { (length tree.now ≡ tree_size) × (word tree.now 0 ≤ 1024) × (length notes.old ≡ notes_size) }
    ensures few { result ≤ 1024 }
    ensures made { take result notes.new ≡ noted tree.now (word tree.now 0) }
{
    let n = entries_in(tree);
    let mut c: usize = 0;
    for i in 0..n {
        if !is_disputed(tree, i) {
            continue;
        }
        notes[c] = tree_table::made_at(tree, i);
        c += 1;
    }
    c
}

// The identity k is one of the first `count` noted.
fn is_noted(notes: &[u32], count: usize, k: u32) -> bool
    requires { count ≤ length notes.now }
    ensures { result ≡ is_among k (take count notes.now) }
{
    for i in 0..count {
        if notes[i] == k {
            return true;
        }
    }
    false
}

// The entry in row i is disputed and was not noted.
fn is_new(tree: &[u8], i: usize, notes: &[u32], count: usize) -> bool
    requires { (length tree.now ≡ tree_size) × (i < 1024) × (count ≤ length notes.now) }
    ensures { result ≡ is_new_in tree.now (take count notes.now) i }
{
    if !is_disputed(tree, i) {
        return false;
    }
    !is_noted(notes, count, tree_table::made_at(tree, i))
}

// The disputed entries of a table that were not noted are laid one behind another, in the order of the table; their count is returned.
fn list_new(tree: &[u8], notes: &[u32], count: usize, list: &mut [u8]) -> usize
    requires { Shown tree.now × (count ≤ length notes.now) × (list.old ≡ replicate 4096 0) }
    ensures counted { (result ≡ listed_count tree.now (take count notes.now) (word tree.now 0)) × (result ≤ 1024) }
    ensures laid { list.new ≡ padded 4096 (listed tree.now (take count notes.now) (word tree.now 0)) }
{
    let n = entries_in(tree);
    let mut c: usize = 0;
    for i in 0..n {
        if !is_new(tree, i, notes, count) {
            continue;
        }
        tree_table::put_identity(list, 4 * c, tree_table::made_at(tree, i));
        c += 1;
    }
    c
}

// The list is laid from byte 20 of a report on, behind zeros; the count of the entries is returned.
fn lay_list(tree: &[u8], notes: &[u32], count: usize, report: &mut [u8]) -> usize
    requires { Shown tree.now × (count ≤ length notes.now) × (length report.old ≡ report_size) }
    ensures counted { (result ≡ listed_count tree.now (take count notes.now) (word tree.now 0)) × (result ≤ 1024) }
    ensures laid { report.new ≡ replicate 20 0 ++ padded 4096 (listed tree.now (take count notes.now) (word tree.now 0)) }
{
    report.fill(0);
    list_new(tree, notes, count, &mut report[20..REPORT_BYTES])
}

// The number of what stops a row, 0 where nothing does.
fn stop_number(stopped: Option<Refusal>) -> u8
    ensures { result ≡ stop_code stopped }
{
    match stopped {
        Some(refusal) => u8::from(refusal),
        None => 0,
    }
}

// The first 20 bytes of a report: how many blocks were taken, what stopped the row, how many entries are listed, and the vector.
fn put_head(report: &mut [u8], taken: u8, stopped: Option<Refusal>, n: usize, held: Vector)
    requires { (length report.old ≡ report_size) × (n ≤ 1024) }
    ensures { report.new ≡ (taken ∷ stop_code stopped ∷ two n) ++ (vector_bytes held.counts ++ drop 20 report.old) }
{
    let pair = [taken, stop_number(stopped)];
    byte_slice::put(report, 0, &pair);
    byte_slice::put16(report, 2, n as u16);
    vector::put_vector(report, 4, held);
}

// The report: how many blocks were taken, what stopped the row, how many entries are listed, the vector, and the list of the disputed entries
// that are not among the first `count` noted.
pub fn write_report(
    tree: &[u8],
    notes: &[u32],
    count: usize,
    taken: u8,
    stopped: Option<Refusal>,
    held: Vector,
    report: &mut [u8],
)
    requires { Shown tree.now × (count ≤ length notes.now) × (length report.old ≡ report_size) }
    ensures { report.new ≡ (taken ∷ stop_code stopped ∷ two (listed_count tree.now (take count notes.now) (word tree.now 0))) ++ (vector_bytes held.counts ++ padded 4096 (listed tree.now (take count notes.now) (word tree.now 0))) }
{
    let n = lay_list(tree, notes, count, report);
    put_head(report, taken, stopped, n, held);
}
