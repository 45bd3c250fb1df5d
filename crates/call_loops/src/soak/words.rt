//! What the words of the command line ask for.
ghost use Rattle.std.specs.Prelude.{IfSome};
ghost use Rattle.call_loops.specs.Order.{MayBeAsked};

use crate::numbers::{number, small_number};
use crate::order::{Beside, Crew, Order};

/// The run that four numbers ask for, if each is in its range.
pub fn read_order(words: &[String]) -> Option<Order>
    ensures { IfSome result MayBeAsked }
{
    if words.len() != 4 {
        return None;
    }
    Some(Order::Beside(Beside::Soak(Crew {
        workers: small_number(words, 0, 1, 256)?,
        places: small_number(words, 1, 1, 65536)?,
        rounds: number(words, 2, 1, u64::MAX)?,
        seed: number(words, 3, 0, u64::MAX)?,
    })))
}
