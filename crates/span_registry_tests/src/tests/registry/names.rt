//! A contract that is said with this crate's words, of a call on its core. It is proved, and not run.
ghost use Rattle.std.specs.Prelude.{◌<◌, OnOk, IfErr};
ghost use Rattle.span_registry.specs.Request.{clone_span, cloned};
ghost use Rattle.span_registry.specs.Core.{IsAccepted, IsRefused};

use span_id::{Fault, Id};
use span_registry::laws::open_spans_are_a_live_forest;
use span_registry::{Core, Outlet};

/// One more handle, where the spans are a forest.
pub fn clone_once<O: Outlet, A>(core: &mut Core<O, A>, worker: u32, id: Id) -> Result<(), Fault>
    requires { worker < core.old.limits.workers }
    ensures accepted { OnOk result (IsAccepted core.old (clone_span worker id) cloned core.new) }
    ensures refused { IfErr result (λ fault. IsRefused core.old (clone_span worker id) fault core.new) }
{
    open_spans_are_a_live_forest(core);
    core.clone_span(worker, id)
}
