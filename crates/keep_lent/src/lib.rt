// An index is lent to a call, or none is: it has one of two lengths. A take is lent memory to work in with it, as is the making of an index.
#![tactic(auto)]

ghost use Rattle.std.specs.Prelude.{◌≡◌};
ghost use Rattle.index_model.specs.Kept.{index_lent, index_fits, both_fit};

use index_model::INDEX_BYTES;
use model::TREE_BYTES;

// No bytes, or those of an index.
#[tactic(auto, unfolding(index_model::specs::Kept::index_fits))]
pub fn index_fits(index: &[u8]) -> bool
    ensures { result ≡ index_fits index.now }
{
    index.is_empty() || index.len() == INDEX_BYTES
}

// An index, and memory to work in as long as a tree table.
pub fn index_lent(index: &[u8], work: &[u8]) -> bool
    ensures { result ≡ index_lent index.now work.now }
{
    index.len() == INDEX_BYTES && work.len() == TREE_BYTES
}

// Both, or no bytes of either.
#[tactic(auto, unfolding(index_model::specs::Kept::both_fit))]
pub fn both_fit(index: &[u8], work: &[u8]) -> bool
    ensures { result ≡ both_fit index.now work.now }
{
    (index.is_empty() && work.is_empty()) || index_lent(index, work)
}
