// Chains in two tables: a thing is put first in the chain of its key.
#![tactic(auto)]

ghost use Rattle.std.specs.Prelude.{◌≡◌, ◌+◌, ◌<◌, length, get_or, set};

// The thing i is put first in the chain h.
pub fn push(heads: &mut [u16], next: &mut [u16], h: usize, i: usize)
    requires { (length heads.old ≡ 1024) × (length next.old ≡ 1024) × (h < 1024) × (i < 1024) }
    ensures { (heads.new ≡ set heads.old h (i + 1)) × (next.new ≡ set next.old i (get_or heads.old h 0)) }
{
    let first = hash_chains::number_at(heads, h);
    hash_chains::put(next, i, first);
    hash_chains::put(heads, h, i + 1);
}
