// Chains of rows in a part of a register: a row is put first, and taken from the front.
#![tactic(auto, using(crate::proofs::Links::ways), unfolding(crate::specs::Chains::nodes_in, crate::specs::Chains::first_of, crate::specs::Chains::behind, crate::specs::Chains::row_at, crate::specs::Chains::pushed))]

ghost use Rattle.std.specs.Prelude.{◌≡◌, ◌+◌, ◌≤◌, ◌<◌, length, get_or, set};
ghost use Rattle.hash_chains.specs.Chains.{nodes_in, first_of, behind, row_at, pushed, popped, Chains};

// The number at a place.
pub fn number_at(register: &[u16], at: usize) -> usize
    requires { at < length register.now }
    ensures { (result ≡ get_or register.now at 0) × (result < 65536) }
{
    usize::from(register[at])
}

// A number is written at a place.
pub fn put(register: &mut [u16], at: usize, v: usize)
    requires { (at < length register.old) × (v < 65536) }
    ensures { register.new ≡ set register.old at v }
{
    register[at] = v as u16;
}

// How many nodes there are.
pub fn node_count(register: &[u16], from: usize) -> usize
    requires { Chains from register.now }
    ensures { (result ≡ nodes_in from register.now) × (result ≤ 1536) }
{
    number_at(register, from + 4096)
}

// The first node of the chain h.
pub fn first_of(register: &[u16], from: usize, h: usize) -> usize
    requires { Chains from register.now × (h < 1024) }
    ensures { (result ≡ first_of from register.now h) × (result ≤ nodes_in from register.now) }
{
    number_at(register, from + h)
}

// The node behind the node q.
pub fn node_behind(register: &[u16], from: usize, q: usize) -> usize
    requires { Chains from register.now × (1 ≤ q) × (q ≤ nodes_in from register.now) }
    ensures { (result ≡ behind from register.now q) × (result < q) }
{
    number_at(register, from + 1023 + q)
}

// The row of the node q.
pub fn row_at(register: &[u16], from: usize, q: usize) -> usize
    requires { Chains from register.now × (1 ≤ q) × (q ≤ nodes_in from register.now) }
    ensures { result ≡ row_at from register.now q }
{
    number_at(register, from + 2559 + q)
}

// A row is put first in the chain h.
pub fn push(register: &mut [u16], from: usize, h: usize, row: usize)
    requires { Chains from register.old × (nodes_in from register.old < 1536) × (h < 1024) × (row < 65536) }
    ensures { register.new ≡ pushed from register.old h row }
{
    let c = node_count(register, from);
    let first = first_of(register, from, h);
    put(register, from + 2560 + c, row);
    put(register, from + 1024 + c, first);
    put(register, from + h, c + 1);
    put(register, from + 4096, c + 1);
}

// A row is taken from the chain h, if it stands first there.
pub fn pop(register: &mut [u16], from: usize, h: usize, row: usize)
    requires { Chains from register.old × (h < 1024) }
    ensures { register.new ≡ popped from register.old h row }
{
    let q = first_of(register, from, h);
    if q == 0 {
        return;
    }
    if row_at(register, from, q) != row {
        return;
    }
    let next = node_behind(register, from, q);
    put(register, from + h, next);
}
