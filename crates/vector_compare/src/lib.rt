// Two version vectors compared.
#![tactic(auto, using(crate::proofs::Answers::told))]

ghost use Rattle.std.specs.Prelude.{◌≡◌, cond, eqb};
ghost use Rattle.model.specs.Vector.{compared, comparison_of};
ghost use Rattle.vector_compare.specs.Standings.{number_of};

use vector::{Vector, lacks};

// How two vectors stand to each other: they are identical, one dominates the other, or each is ahead.
#[derive(Clone, Copy, Debug, PartialEq, Eq)]
pub enum Standing {
    Identical = 0,
    FirstAhead = 1,
    SecondAhead = 2,
    BothAhead = 3,
}

impl From<Standing> for u8 {
    ghost from_gives = { λ standing number. number ≡ number_of standing };

    fn from(standing: Standing) -> u8 {
        standing as u8
    }
}

// What a comparison says: how the two stand, how many records the first lacks, and how many the second.
#[derive(Drop)]
pub struct Comparison {
    pub first: u32,
    pub second: u32,
    pub answer: Standing,
}

// The answer to the two numbers of records lacked.
fn answer_to(first: u32, second: u32) -> Standing
    ensures { number_of result ≡ cond (eqb first 0) (cond (eqb second 0) 0 1) (cond (eqb second 0) 2 3) }
{
    match (first, second) {
        (0, 0) => Standing::Identical,
        (0, _) => Standing::FirstAhead,
        (_, 0) => Standing::SecondAhead,
        _ => Standing::BothAhead,
    }
}

// How two vectors stand to each other, and how many records each lacks.
pub fn compare(a: Vector, b: Vector) -> Comparison
    ensures { compared (number_of result.answer) result.first result.second ≡ comparison_of a.counts b.counts }
{
    let first = lacks(a, b);
    let second = lacks(b, a);
    let answer = answer_to(first, second);
    Comparison {
        first,
        second,
        answer,
    }
}
