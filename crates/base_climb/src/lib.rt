// Climbing by a table of rows. How far a row is from the top is kept, so that no row is passed twice.
#![tactic(auto)]

ghost use Rattle.std.specs.Prelude.{◌≡◌, ◌≤◌, ◌<◌, IfSome, length, get_or};
ghost use Rattle.model.specs.Log.{all_to};
ghost use Rattle.base_climb.specs.Climb.{climbs_from, Exact, Known, Away};
ghost use Rattle.base_climb.specs.Steps.{steps_told};

// How far row i is from the top; none if that is more than n, or never.
fn depth_of(ups: &[u16], depths: &[u16], n: usize, i: usize) -> Option<usize>
    requires { (length ups.now ≡ 512) × (n ≤ 512) × (i < 512) × Known ups.now depths.now }
    ensures away { Away ups.now n i (steps_told result) }
    ensures within { IfSome result (λ k. k ≤ n) }
{
    let mut q = hash_chains::number_at(ups, i);
    for t in 0..n {
        if q == 0 {
            return Some(t);
        }
        if 512 < q {
            return None;
        }
        let d = hash_chains::number_at(depths, q - 1);
        if 0 < d {
            let k = t + d;
            return (k <= n).then_some(k);
        }
        q = hash_chains::number_at(ups, q - 1);
    }
    (q == 0).then_some(n)
}

// Row i is k steps from the top: this is kept of it and of the rows on its way, up to one of which it is known. A walk up the rows, by no
// index of its own.
fn mark(ups: &[u16], depths: &mut [u16], i: usize, k: usize)
    requires { (length ups.now ≡ 512) × (i < 512) × (k ≤ 512) × Known ups.now depths.old × Exact ups.now (get_or ups.now i 0) k }
    ensures { Known ups.now depths.new }
{
    let mut row = i;
    let mut left = k;
    while hash_chains::number_at(depths, row) == 0 {
        hash_chains::put(depths, row, left + 1);
        if left == 0 {
            return;
        }
        row = hash_chains::number_at(ups, row) - 1;
        left -= 1;
    }
}

// The first n rows one after another, by what is known of them.
fn rows_climb(ups: &[u16], depths: &mut [u16], n: usize) -> bool
    requires { (length ups.now ≡ 512) × (n ≤ 512) × Known ups.now depths.old }
    ensures { result ≡ all_to n (climbs_from ups.now n) }
{
    for i in 0..n {
        let Some(k) = depth_of(ups, depths, n, i) else {
            return false;
        };
        mark(ups, depths, i, k);
    }
    true
}

// From each of the first n rows the top is reached by at most n steps. The lent table of depths may hold anything before.
pub fn all_climb(ups: &[u16], depths: &mut [u16], n: usize) -> bool
    requires { (length ups.now ≡ 512) × (n ≤ 512) × (length depths.old ≡ 1024) }
    ensures { result ≡ all_to n (climbs_from ups.now n) }
{
    depths.fill(0);
    rows_climb(ups, depths, n)
}
