// Looking up and listing in the ordered index. Any bytes are an index here: both end, whatever stands in it.
#![tactic(auto)]

ghost use Rattle.std.specs.Prelude.{◌≡◌, ℕ, Bool, ◌+◌, ◌*◌, ◌≤◌, ◌<◌, length};
ghost use Rattle.model.specs.Replay.{label_key};
ghost use Rattle.index_model.specs.Index.{index_size, index_places, comes_before, folder_key, key_before, row_before, rows_in, row_is, entry_at, halve, find_of, range_of};
ghost use Rattle.index_find.specs.Answers.{found_by, listed_by};

use index_model::{INDEX_BYTES, INDEX_PLACES};
use record_label::lower;
use refusal::Refusal;

// So often at most are the rows of an index halved.
const HALVINGS: usize = 11;

// The rows of a folder: the first, and how many they are.
#[derive(Clone, Copy, Debug, PartialEq, Eq)]
pub struct Range {
    pub first: usize,
    pub count: usize,
}

// A label comes before another, byte by byte, A to Z as a to z; one that is a front of the other comes first.
pub fn comes_before(a: &[u8], b: &[u8]) -> bool
    ensures { result ≡ comes_before (label_key a.now) (label_key b.now) }
{
    for (x, y) in a.iter().zip(b) {
        let p = lower(*x);
        let q = lower(*y);
        if p != q {
            return p < q;
        }
    }
    a.len() < b.len()
}

// A folder's identity as one number, by unit, then by number.
pub fn folder_key(k: u32) -> u64
    ensures { (result ≡ folder_key k) × (result < 4294967296) }
{
    let wide = u64::from(k);
    536870912 * (wide % 8) + wide / 8
}

// One key comes before another: by folder, then by label.
pub fn key_before(f: u64, t: &[u8], g: u64, s: &[u8]) -> bool
    ensures { result ≡ key_before f t.now g s.now }
{
    if f < g {
        return true;
    }
    if g < f {
        return false;
    }
    comes_before(t, s)
}

// How many rows an index has, at most 1,024.
pub fn rows_in(index: &[u8]) -> usize
    requires { length index.now ≡ index_size }
    ensures { (result ≡ rows_in index.now) × (result ≤ index_places) }
{
    INDEX_PLACES.min(usize::from(byte_slice::le16(index, 0)))
}

// Row i comes before a label in the folder of a key.
fn row_before(index: &[u8], i: usize, key: u64, label: &[u8]) -> bool
    requires { (length index.now ≡ index_size) × (i < index_places) }
    ensures { result ≡ row_before index.now key label.now i }
{
    let at = 4 + 40 * i;
    let folder = tree_table::identity_at(index, at);
    let from = at + 4;
    key_before(folder_key(folder), &index[from..from + 32], key, label)
}

// The first of n places that a test does not say to come before, by halving.
pub fn halve<F: Fn(usize) -> bool>(n: usize, before: F) -> usize
    requires few { n ≤ index_places }
    requires asked { (i : ℕ) → i < n → F.pre before i }
    ensures halved { (p : ℕ → Bool) → ((i : ℕ) (t : Bool) → i < n → F.post before i t → t ≡ p i) → result ≡ halve p 11 0 n }
    ensures within { result ≤ n }
{
    let mut lo: usize = 0;
    let mut hi = n;
    for _ in 0..HALVINGS {
        if hi <= lo {
            return lo;
        }
        let mid = lo + (hi - lo) / 2;
        if before(mid) {
            lo = mid + 1;
        } else {
            hi = mid;
        }
    }
    lo
}

// The first of n rows that does not come before a label in the folder of a key, by halving.
pub fn seek(index: &[u8], n: usize, key: u64, label: &[u8]) -> usize
    requires { (length index.now ≡ index_size) × (n ≤ index_places) }
    ensures { (result ≡ halve (row_before index.now key label.now) 11 0 n) × (result ≤ n) }
{
    halve(n, |i| row_before(index, i, key, label))
}

// Row i is one of n rows, of the folder, and has the label, in capitals or small letters.
pub fn row_is(index: &[u8], n: usize, i: usize, folder: u32, label: &[u8]) -> bool
    requires { (length index.now ≡ index_size) × (n ≡ rows_in index.now) × (n ≤ index_places) }
    ensures { result ≡ row_is index.now folder label.now i }
{
    if n <= i {
        return false;
    }
    let at = 4 + 40 * i;
    if tree_table::identity_at(index, at) != folder {
        return false;
    }
    if label.len() != 32 {
        return false;
    }
    let from = at + 4;
    record_label::same_label(&index[from..from + 32], label)
}

// The entry in row i.
pub fn entry_at(index: &[u8], i: usize) -> u32
    requires { (length index.now ≡ index_size) × (i < index_places) }
    ensures { result ≡ entry_at index.now i }
{
    tree_table::identity_at(index, 4 + 40 * i + 36)
}

// The entry of a folder that has a label, 0 for none. 1 for a wrong length.
pub fn find(index: &[u8], folder: u32, label: &[u8]) -> Result<u32, Refusal>
    ensures { found_by result ≡ find_of index.now folder label.now }
{
    if index.len() != INDEX_BYTES {
        return Err(Refusal::BadBuffer);
    }
    if label.len() != 32 {
        return Err(Refusal::BadBuffer);
    }
    let n = rows_in(index);
    let i = seek(index, n, folder_key(folder), label);
    if !row_is(index, n, i, folder, label) {
        return Ok(0);
    }
    Ok(entry_at(index, i))
}

// The rows of a folder. 1 for a wrong length.
pub fn list(index: &[u8], folder: u32) -> Result<Range, Refusal>
    ensures { listed_by result ≡ range_of index.now folder }
{
    if index.len() != INDEX_BYTES {
        return Err(Refusal::BadBuffer);
    }
    let n = rows_in(index);
    let key = folder_key(folder);
    let zeros = [0u8; 32];
    let first = seek(index, n, key, &zeros);
    let end = seek(index, n, key + 1, &zeros);
    Ok(Range {
        first,
        count: end.saturating_sub(first),
    })
}
