// The lines of a tree table: its entries, then its asides. Each function answers the place behind what it wrote.
#![tactic(auto)]

ghost use Rattle.std.specs.Prelude.{◌≡◌, ◌+◌, ◌≤◌, ◌<◌, length};
ghost use Rattle.model.specs.Bytes.{word};
ghost use Rattle.model.specs.Listing.{entry_lines, aside_lines, tree_lines};
ghost use Rattle.line_text.specs.Written.{Wrote};

// The first n entry lines.
fn entry_lines(out: &mut [u8], at: usize, table: &[u8], n: usize) -> usize
    requires { (length table.now ≡ 86020) × (n ≤ 1024) × (at + length (entry_lines table.now n) ≤ length out.old) }
    ensures { Wrote out.old out.new at result (entry_lines table.now n) }
{
    let mut m = at;
    for i in 0..n {
        let from = 4 + 72 * i;
        m = line_entry::entry_line(out, m, &table[from..from + 72]);
    }
    m
}

// The first n aside lines.
fn aside_lines(out: &mut [u8], at: usize, table: &[u8], n: usize) -> usize
    requires { (length table.now ≡ 86020) × (n ≤ 1024) × (at + length (aside_lines table.now n) ≤ length out.old) }
    ensures { Wrote out.old out.new at result (aside_lines table.now n) }
{
    let mut m = at;
    for i in 0..n {
        let from = 73732 + 12 * i;
        m = line_aside::aside_line(out, m, &table[from..from + 12]);
    }
    m
}

// A count of rows as an index.
fn rows_at(table: &[u8], at: usize) -> usize
    requires { at + 1 < length table.now }
    ensures { result ≡ word table.now at }
{
    usize::from(byte_slice::le16(table, at))
}

// The entries by rank of their makers, then the asides by rank.
pub fn tree_lines(out: &mut [u8], at: usize, table: &[u8]) -> usize
    requires { (length table.now ≡ 86020) × (word table.now 0 ≤ 1024) × (word table.now 2 ≤ 1024)
        × (at + length (tree_lines table.now) ≤ length out.old) }
    ensures { Wrote out.old out.new at result (tree_lines table.now) }
{
    let n = rows_at(table, 0);
    let k = rows_at(table, 2);
    let m = entry_lines(out, at, table, n);
    aside_lines(out, m, table, k)
}
