// List and base as places of 80 bytes, called rows: how many there are, where each stands, six of them for a block, and the base that the
// rows of a file leave.
#![tactic(auto)]

ghost use Rattle.std.specs.Prelude.{◌≡◌, true, ◌+◌, ◌*◌, ◌/◌, ◌<◌, ◌≤◌, length, take, drop};
ghost use Rattle.model.specs.Lengths.{base_size, base_places};
ghost use Rattle.model.specs.Bytes.{word, blank, padded, put_at, joined};
ghost use Rattle.model.specs.Vector.{blocks_for};
ghost use Rattle.model.specs.Log.{all_to};
ghost use Rattle.model.specs.File.{file_record, file_records_from};
ghost use Rattle.sab2_model.specs.Rows.{row_count, row_start, row_long, base_rows, base_to, tail_blank, rows_hold};
ghost use Rattle.sab2_model.specs.Sab2.{said_rows, row_blocks, sab2_rows, sab2_base};

use byte_slice::{is_blank, le16, put};
use model::BASE_PLACES;

// How many rows so many entries and asides have: the head, a row an entry, a row for six asides.
pub fn row_count(entries: usize, asides: usize) -> usize
    requires { (entries < 65536) × (asides < 65536) }
    ensures { (result ≡ row_count entries asides) × (result < 131072) }
{
    1 + entries + (asides + 5) / 6
}

// Where the bytes of a row stand in the base, and how many they are.
#[derive(Drop)]
pub struct RowPart {
    pub at: usize,
    pub len: usize,
}

// The bytes of row i.
pub fn row_part(entries: usize, asides: usize, i: usize) -> RowPart
    requires { (entries ≤ base_places) × (asides ≤ base_places) × (i < row_count entries asides) }
    ensures { (result.at ≡ row_start entries i) × (result.len ≡ row_long entries asides i) × (result.len ≤ 72) × (result.at + result.len ≤ base_size) }
{
    if i == 0 {
        return RowPart { at: 0, len: 24 };
    }
    if i <= entries {
        return RowPart {
            at: 24 + 72 * (i - 1),
            len: 72,
        };
    }
    let k = i - entries - 1;
    let left = 12 * asides - 72 * k;
    if left < 72 {
        return RowPart {
            at: 36888 + 72 * k,
            len: left,
        };
    }
    RowPart {
        at: 36888 + 72 * k,
        len: 72,
    }
}

// Six places for rows.
#[derive(Drop)]
pub struct Rows {
    pub bytes: [u8; 480],
}

// The n rows of a base from row i on, zeros behind them.
pub fn gather_rows(base: &[u8], entries: usize, asides: usize, i: usize, n: usize) -> Rows
    requires { (length base.now ≡ base_size) × (entries ≡ word base.now 2) × (asides ≡ word base.now 4) × (entries ≤ base_places) × (asides ≤ base_places) × (n ≤ 6) × (i + n ≤ row_count entries asides) }
    ensures { result.bytes ≡ padded 480 (joined (take n (drop i (base_rows base.now)))) }
{
    let mut bytes = [0u8; 480];
    for j in 0..n {
        let p = row_part(entries, asides, i + j);
        put(&mut bytes, 80 * j, &base[p.at..p.at + p.len]);
    }
    Rows { bytes }
}

// Row i of a file is put where it belongs in the base; whether zeros stand behind its bytes.
fn load_row(file: &[u8], entries: usize, asides: usize, i: usize, base: &mut [u8]) -> bool
    requires { (length base.old ≡ base_size) × (entries ≤ base_places) × (asides ≤ base_places) × (i < row_count entries asides) × (512 * (i / 6) + 512 ≤ length file.now) }
    ensures put { base.new ≡ put_at base.old (row_start entries i) (take (row_long entries asides i) (file_record file.now i)) }
    ensures tail { result ≡ blank (drop (row_long entries asides i) (file_record file.now i)) }
{
    let p = row_part(entries, asides, i);
    let from = 512 * (i / 6) + (28 + 80 * (i % 6));
    let end = from + p.len;
    byte_copy::put(base, p.at, &file[from..end]);
    is_blank(&file[end..from + 80])
}

// The first n rows of a file leave a base, whatever stood there; whether zeros stand behind the bytes of each.
fn load_rows(file: &[u8], entries: usize, asides: usize, n: usize, base: &mut [u8]) -> bool
    requires { (length base.old ≡ base_size) × (entries ≤ base_places) × (asides ≤ base_places) × (n ≡ row_count entries asides) × (512 * blocks_for n ≤ length file.now) }
    ensures loaded { base.new ≡ base_to (file_records_from file.now 0 n) entries asides n }
    ensures tails { result ≡ all_to n (tail_blank (file_records_from file.now 0 n) entries asides) }
{
    base.fill(0);
    let mut all = true;
    for i in 0..n {
        all = all & load_row(file, entries, asides, i, base);
    }
    all
}

// A count in the head of a file's base.
fn said(file: &[u8], at: usize) -> usize
    requires { (at < 24) × (512 ≤ length file.now) }
    ensures { (result ≡ word (file_record file.now 0) at) × (result < 65536) }
{
    usize::from(le16(file, 28 + at))
}

// How many rows the head of a file says.
pub fn said_rows(file: &[u8]) -> usize
    requires { 512 ≤ length file.now }
    ensures { (result ≡ said_rows file.now) × (result < 131072) }
{
    row_count(said(file, 2), said(file, 4))
}

// Whether the rows of a file keep their layout; then they leave its base.
pub fn load_base(file: &[u8], base: &mut [u8]) -> bool
    requires { (length base.old ≡ base_size) × (512 ≤ length file.now) × (512 * row_blocks file.now ≤ length file.now) }
    ensures holds { result ≡ rows_hold (sab2_rows file.now) }
    ensures loads { result ≡ true → base.new ≡ sab2_base file.now }
{
    let entries = said(file, 2);
    let asides = said(file, 4);
    if BASE_PLACES < entries {
        return false;
    }
    if BASE_PLACES < asides {
        return false;
    }
    let n = row_count(entries, asides);
    load_rows(file, entries, asides, n, base)
}
