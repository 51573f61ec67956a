// The identities of a base: none twice, and each entry reaches the root through folders.
#![tactic(auto)]

ghost use Rattle.std.specs.Prelude.{◌≡◌, ◌+◌, ◌≤◌, ◌<◌, eqb, IfSome, length};
ghost use Rattle.model.specs.Log.{all_to};
ghost use Rattle.base_model.specs.Base.{last_to, base_entry, id_at, is_id, id_new, ids_fit};
ghost use Rattle.base_links.specs.Links.{Linked};
ghost use Rattle.base_links.specs.Places.{place_told};
ghost use Rattle.base_ids.specs.Ups.{link_of, id_key, up_of, Ups};

// The entry in row i is a folder.
fn is_folder(base: &[u8], i: usize) -> bool
    requires { (length base.now ≡ 43032) × (i < 512) }
    ensures { result ≡ eqb (base_entry base.now i).kind 1 }
{
    base[24 + 72 * i] == 1
}

// The folder of the entry in row i.
fn inside_at(base: &[u8], i: usize) -> u32
    requires { (length base.now ≡ 43032) × (i < 512) }
    ensures { result ≡ (base_entry base.now i).inside }
{
    base_rows::identity_at(base, 24 + 72 * i + 8)
}

// Of n entries, and asides behind them, the i-th identity.
fn id_at(base: &[u8], n: usize, i: usize) -> u32
    requires { (length base.now ≡ 43032) × (n ≤ 512) × (i < n + 512) }
    ensures { result ≡ id_at base.now n i }
{
    if i < n {
        return base_rows::identity_at(base, 24 + 72 * i + 4);
    }
    base_rows::identity_at(base, 36888 + 12 * (i - n))
}

// The chain of an identity.
fn link(k: u32) -> usize
    ensures { (result ≡ link_of k) × (result < 1021) }
{
    (k % 1021) as usize
}

// Of the first i identities the last that is k. A walk along a chain.
fn before(base: &[u8], n: usize, k: u32, heads: &[u16], next: &[u16], i: usize) -> Option<usize>
    requires { (length base.now ≡ 43032) × (n ≤ 512) × (i ≤ n + 512) × Linked (id_key base.now n) heads.now next.now i }
    ensures place { place_told result ≡ last_to (is_id base.now n k) i }
    ensures within { IfSome result (λ j. j < i) }
{
    let h = link(k);
    let mut q = hash_chains::number_at(heads, h);
    while 0 < q {
        if id_at(base, n, q - 1) == k {
            return Some(q - 1);
        }
        q = hash_chains::number_at(next, q - 1);
    }
    None
}

// The identities from one up to another are judged, each against those before it, and linked.
fn link_ids(
    base: &[u8],
    n: usize,
    from: usize,
    to: usize,
    fine: bool,
    heads: &mut [u16],
    next: &mut [u16],
) -> bool
    requires { (length base.now ≡ 43032) × (n ≤ 512) × (from ≤ to) × (to ≤ n + 512) × Linked (id_key base.now n) heads.old next.old from × (fine ≡ all_to from (id_new base.now n)) }
    ensures { (result ≡ all_to to (id_new base.now n)) × Linked (id_key base.now n) heads.new next.new to }
{
    let mut all = fine;
    for i in from..to {
        let k = id_at(base, n, i);
        all = all & before(base, n, k, heads, next, i).is_none();
        base_links::push(heads, next, link(k), i);
    }
    all
}

// Where the folder f stands: 0 for the root, one above the row of a folder, 513 for neither. A number, as the table of folders keeps it.
fn up_of(base: &[u8], n: usize, f: u32, heads: &[u16], next: &[u16]) -> usize
    requires { (length base.now ≡ 43032) × (n ≤ 512) × Linked (id_key base.now n) heads.now next.now n }
    ensures { (result ≡ up_of base.now n f) × (result ≤ 513) }
{
    if f == 0 {
        return 0;
    }
    let Some(row) = before(base, n, f, heads, next, n) else {
        return 513;
    };
    if !is_folder(base, row) {
        return 513;
    }
    row + 1
}

// The table of the entries' folders.
fn fill_ups(base: &[u8], n: usize, heads: &[u16], next: &[u16], ups: &mut [u16])
    requires { (length base.now ≡ 43032) × (n ≤ 512) × Linked (id_key base.now n) heads.now next.now n × (length ups.old ≡ 512) }
    ensures { Ups base.now n ups.new n }
{
    for i in 0..n {
        let f = inside_at(base, i);
        let u = up_of(base, n, f, heads, next);
        hash_chains::put(ups, i, u);
    }
}

// No identity twice over n entries and m asides, and each entry reaches the root through folders.
pub fn ids_fit(base: &[u8], n: usize, m: usize) -> bool
    requires { (length base.now ≡ 43032) × (n ≤ 512) × (m ≤ 512) }
    ensures { result ≡ ids_fit base.now n m }
{
    let mut heads = [0u16; 1024];
    let mut next = [0u16; 1024];
    let mut ups = [0u16; 512];
    let entries = link_ids(base, n, 0, n, true, &mut heads, &mut next);
    fill_ups(base, n, &heads, &next, &mut ups);
    let all = link_ids(base, n, n, n + m, entries, &mut heads, &mut next);
    all & base_climb::all_climb(&ups, &mut heads, n)
}
