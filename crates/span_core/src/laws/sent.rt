//! What is known of all that a core sent.
ghost use Rattle.std.specs.Prelude.{◌^◌, ◌<◌, length};
ghost use Rattle.span_core.specs.History.{IsLegal};

use crate::Core;
use span_outlet::Outlet;

// What a core sent is a legal history, which leaves its world, and can be counted.
pub(crate) fn what_was_sent_is_legal<O: Outlet, A>(core: &Core<O, A>)
    ensures legal { IsLegal core.now.rules core.now.limits.workers core.now.sent core.now.world }
    ensures fits { length core.now.sent < 2 ^ 64 }
{
    core.calls();
}
