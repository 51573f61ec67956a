// The head of a lent base, its first 24 bytes: the list, the counts of its rows, the base vector; and which units a list names.
#![tactic(auto)]

ghost use Rattle.std.specs.Prelude.{◌≡◌, ◌≤◌, ◌<◌, length};
ghost use Rattle.base_model.specs.Base.{is_listed, lists_all};
ghost use Rattle.base_head.specs.Head.{headed, head_of};

use byte_slice::le16;
use tree_table::Size;
use vector::Vector;

// The list, how many records of each unit are folded, and how many rows of entries and of asides there are.
#[derive(Clone, Copy, Drop)]
pub struct Head {
    pub list: u8,
    pub folded: Vector,
    pub entries: usize,
    pub asides: usize,
}

impl Head {
    // How many rows of entries and of asides the base has.
    pub fn size(self) -> Size
        ensures { (result.entries ≡ self.entries) × (result.asides ≡ self.asides) }
    {
        Size {
            entries: self.entries,
            asides: self.asides,
        }
    }
}

// The number of each bit of a byte.
const BITS: [u8; 8] = [1, 2, 4, 8, 16, 32, 64, 128];

// The head of a base.
pub fn head_of(base: &[u8]) -> Head
    requires { 24 ≤ length base.now }
    ensures { headed result.list result.folded.counts result.entries result.asides ≡ head_of base.now }
{
    let folded = vector::vector_at(base, 8);
    Head {
        list: base[0],
        folded,
        entries: le16(base, 2) as usize,
        asides: le16(base, 4) as usize,
    }
}

// The list names the unit.
pub fn is_listed(list: u8, unit: usize) -> bool
    requires { unit < 8 }
    ensures { result ≡ is_listed list unit }
{
    let bits = BITS;
    list / bits[unit] % 2 == 1
}

// The list names each unit that the vector counts records of.
pub fn lists_all(list: u8, v: Vector) -> bool
    ensures { result ≡ lists_all list v.counts }
{
    let mut all = true;
    for u in 0..8 {
        all = all & ((v.counts[u] == 0) | is_listed(list, u));
    }
    all
}
