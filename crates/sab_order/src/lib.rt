// Checking another maker's order, as the static library calls it: the answer in one word.
#![tactic(auto)]

ghost use Rattle.std.specs.Prelude.{◌≡◌};
ghost use Rattle.order_model.specs.Order.{order_of};
ghost use Rattle.sab_order.specs.Ordered.{order_call, told_order};

use sab_words::{answer_word, pack};

// Checks an order; the count is the condition that failed first, 0 where the order is accepted.
pub fn check_order(log: &[u8], base: &[u8], list: &[u8], ours: &mut [u8], theirs: &mut [u8]) -> u32
    ensures { order_call result ours.new theirs.new ≡ told_order (order_of log.now base.now list.now ours.old theirs.old) }
{
    match order_check::check_order(log, base, list, ours, theirs) {
        Ok(Some(condition)) => pack(0, 0, u16::from(u8::from(condition))),
        Ok(None) => answer_word(Ok(())),
        Err(refusal) => answer_word(Err(refusal)),
    }
}
