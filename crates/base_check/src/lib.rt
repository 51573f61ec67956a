// The check of a lent base.
#![tactic(auto)]

ghost use Rattle.std.specs.Prelude.{◌≡◌, true, ◌≤◌, ◌<◌, length};
ghost use Rattle.model.specs.Bytes.{word};
ghost use Rattle.model.specs.Log.{all_to};
ghost use Rattle.base_model.specs.Base.{base_vector, base_head_fits, entry_row_fits, aside_row_fits, rest_blank, rows_fit, sound_base};

use byte_slice::le16;
use vector::Vector;

// The zeros of the head, and the two counts.
fn head_fits(base: &[u8]) -> bool
    requires { length base.now ≡ 43032 }
    ensures { result ≡ base_head_fits base.now }
{
    (base[1] == 0) & ((le16(base, 2) <= 512) & ((le16(base, 4) <= 512) & (le16(base, 6) == 0)))
}

// A count of the head. Where the head fits, it is at most 512.
fn count_at(base: &[u8], at: usize) -> usize
    requires { (length base.now ≡ 43032) × (at < 24) }
    ensures { result ≡ word base.now at }
{
    usize::from(le16(base, at))
}

// The rows of n entries.
fn entries_fit(base: &[u8], v: Vector, n: usize) -> bool
    requires { (length base.now ≡ 43032) × (n ≤ 512) × (v.counts ≡ base_vector base.now) }
    ensures { result ≡ all_to n (entry_row_fits base.now) }
{
    let mut all = true;
    for i in 0..n {
        all = all & base_rows::entry_fits(v, base, 24 + 72 * i);
    }
    all
}

// The rows of m asides.
fn asides_fit(base: &[u8], v: Vector, m: usize) -> bool
    requires { (length base.now ≡ 43032) × (m ≤ 512) × (v.counts ≡ base_vector base.now) }
    ensures { result ≡ all_to m (aside_row_fits base.now) }
{
    let mut all = true;
    for i in 0..m {
        all = all & base_rows::aside_fits(v, base, 36888 + 12 * i);
    }
    all
}

// The rows behind n entries and m asides are zero.
fn rest_blank(base: &[u8], n: usize, m: usize) -> bool
    requires { (length base.now ≡ 43032) × (n ≤ 512) × (m ≤ 512) }
    ensures { result ≡ rest_blank base.now n m }
{
    let a = 24 + 72 * n;
    let c = 36888 + 12 * m;
    byte_slice::is_blank(&base[a..36888]) & byte_slice::is_blank(&base[c..43032])
}

// All rows.
fn rows_fit(base: &[u8], n: usize, m: usize) -> bool
    requires { (length base.now ≡ 43032) × (n ≤ 512) × (m ≤ 512) }
    ensures { result ≡ rows_fit base.now n m }
{
    let v = vector::vector_at(base, 8);
    entries_fit(base, v, n) & (asides_fit(base, v, m) & rest_blank(base, n, m))
}

// The base is sound.
pub fn check_base(base: &[u8]) -> bool
    requires { length base.now ≡ 43032 }
    ensures { result ≡ sound_base base.now }
{
    if !head_fits(base) {
        return false;
    }
    let n = count_at(base, 2);
    let m = count_at(base, 4);
    if 512 < n {
        return false;
    }
    if 512 < m {
        return false;
    }
    if !rows_fit(base, n, m) {
        return false;
    }
    base_ids::ids_fit(base, n, m) & base_names::names_fit(base, n)
}
