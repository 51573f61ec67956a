// Showing the tree, as the static library calls it: the answer in one word.
#![tactic(auto)]

ghost use Rattle.std.specs.Prelude.{◌≡◌};
ghost use Rattle.call_model.specs.Outcome.{show_of};
ghost use Rattle.sab_words.specs.Called.{called, told};

use sab_words::answer_word;

// Shows the tree of a state.
pub fn show(log: &[u8], base: &[u8], tree: &mut [u8]) -> u32
    ensures { called result log.now tree.new ≡ told (show_of log.now base.now tree.old) }
{
    answer_word(show_tree::show_tree(log, base, tree))
}
