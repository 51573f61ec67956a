// The two sums of a block.
#![tactic(auto, using(crate::proofs::Totals::ways))]

ghost use Rattle.std.specs.Prelude.{◌≡◌, ◌*◌, ◌≤◌, length};
ghost use Rattle.model.specs.Block.{first_to, second_to};
ghost use Rattle.block_sums.specs.Weights.{Weights};

use byte_slice::le16;

#[derive(Drop)]
pub struct Sums {
    pub first: u16,
    pub second: u16,
}

// The weights of the 254 words: how many of the first sums each word goes into. An array of 16 bits makes the products cheap.
fn weights() -> [u16; 254]
    ensures { Weights result 254 }
{
    let mut by = [0u16; 254];
    for i in 0..254u16 {
        by[usize::from(i)] = 254 - i;
    }
    by
}

// A word times its weight.
fn weigh(k: u32, w: u32) -> u32
    requires { (k ≤ 254) × (w ≤ 65535) }
    ensures { (result ≡ k * w) × (result ≤ 16645890) }
{
    k * w
}

// The two sums over the 254 words of a block. Both totals fit 32 bits, so each is reduced once, at the end.
pub fn block_sums(b: &[u8]) -> Sums
    requires { 508 ≤ length b.now }
    ensures { (result.first ≡ first_to b.now 254) × (result.second ≡ second_to b.now 254) }
{
    let by = weights();
    let mut first: u32 = 0;
    let mut second: u32 = 0;
    for i in 0..254 {
        let w = u32::from(le16(b, 2 * i));
        first += w;
        second += weigh(u32::from(by[i]), w);
    }
    Sums {
        first: (first % 65521) as u16,
        second: (second % 65521) as u16,
    }
}
