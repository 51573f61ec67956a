// The labels of a base: none twice in one folder.
#![tactic(auto)]

ghost use Rattle.std.specs.Prelude.{◌≡◌, ◌+◌, ◌≤◌, ◌<◌, length};
ghost use Rattle.model.specs.Log.{all_to};
ghost use Rattle.base_model.specs.Base.{last_to, base_entry, one_name, name_new};
ghost use Rattle.base_links.specs.Links.{Linked};
ghost use Rattle.base_links.specs.Places.{place_told};
ghost use Rattle.base_names.specs.Names.{name_key};

// The chain of the entry in row i.
fn name_key(base: &[u8], i: usize) -> usize
    requires { (length base.now ≡ 43032) × (i < 512) }
    ensures { (result ≡ name_key base.now i) × (result < 1021) }
{
    let f = base_rows::identity_at(base, 24 + 72 * i + 8);
    let at = 24 + 72 * i + 24;
    tree_maps::hash(f, &base[at..at + 32])
}

// Rows j and i have one folder and one label.
fn one_name(base: &[u8], i: usize, j: usize) -> bool
    requires { (length base.now ≡ 43032) × (i < 512) × (j < 512) }
    ensures { result ≡ one_name base.now i j }
{
    if base_rows::identity_at(base, 24 + 72 * j + 8)
        != base_rows::identity_at(base, 24 + 72 * i + 8)
    {
        return false;
    }
    let a = 24 + 72 * j + 24;
    let b = 24 + 72 * i + 24;
    record_label::same_label(&base[a..a + 32], &base[b..b + 32])
}

// Of the rows before row i, in the chain h, the last that has its label in its folder. A walk along a chain.
fn before(base: &[u8], h: usize, heads: &[u16], next: &[u16], i: usize) -> Option<usize>
    requires { (length base.now ≡ 43032) × (i < 512) × Linked (name_key base.now) heads.now next.now i × (h ≡ name_key base.now i) × (h < 1021) }
    ensures { place_told result ≡ last_to (one_name base.now i) i }
{
    let mut q = hash_chains::number_at(heads, h);
    while 0 < q {
        if one_name(base, i, q - 1) {
            return Some(q - 1);
        }
        q = hash_chains::number_at(next, q - 1);
    }
    None
}

// No label twice in a folder: the rows are judged, each against those before it, and linked.
fn link_names(base: &[u8], n: usize, heads: &mut [u16], next: &mut [u16]) -> bool
    requires { (length base.now ≡ 43032) × (n ≤ 512) × Linked (name_key base.now) heads.old next.old 0 }
    ensures { result ≡ all_to n (name_new base.now) }
{
    let mut all = true;
    for i in 0..n {
        let h = name_key(base, i);
        all = all & before(base, h, heads, next, i).is_none();
        base_links::push(heads, next, h, i);
    }
    all
}

// No label twice in a folder over n entries.
pub fn names_fit(base: &[u8], n: usize) -> bool
    requires { (length base.now ≡ 43032) × (n ≤ 512) }
    ensures { result ≡ all_to n (name_new base.now) }
{
    let mut heads = [0u16; 1024];
    let mut next = [0u16; 1024];
    link_names(base, n, &mut heads, &mut next)
}
