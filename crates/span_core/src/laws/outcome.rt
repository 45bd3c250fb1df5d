//! What a call does to a core is a function of the core and the request: each function does nothing, and its
//! contract is the promise.
//!
//! `outcome` is that function. What the calls of `Core` promise (a request is accepted, refused or not wanted)
//! leaves no other choice; only that the outlet has no place, or that memory is refused, is not in it.
ghost use Rattle.std.specs.Prelude.{◌≡◌, ◌<◌, ℕ, List};
ghost use Rattle.span_id.specs.declared.fault.Fault.{Fault};
ghost use Rattle.span_layers.specs.Note.{PlainNote};
ghost use Rattle.span_layers.specs.Filter.{Filter};
ghost use Rattle.span_core.specs.World.{World};
ghost use Rattle.span_outlet.specs.Request.{Request, Answer, worker_of};
ghost use Rattle.span_core.specs.Step.{IsStep};
ghost use Rattle.span_core.specs.History.{id_issued, IsLegal};
ghost use Rattle.span_outlet.specs.Batch.{PlainBatch};
ghost use Rattle.span_core.specs.Core.{CoreView, IsAccepted, IsRefused, IsNotWanted};
ghost use Rattle.span_core.specs.Core.{IsLate};
ghost use Rattle.span_core.specs.Outcome.{outcome, done, refused, not_wanted, accepted, TakesNextId, IsNextIdNew, IsAllowed};

use crate::Core;
use crate::laws::sent::what_was_sent_is_legal;
use span_forest::laws::next_id_is_new;
use span_outlet::Outlet;

/// An accepted call is the outcome: its answer, its notes, and the core that it leaves. A new span's id is the next
/// one, as `new_span` promises.
pub fn accepted_calls_are_the_outcome<O: Outlet, A>(core: &Core<O, A>)
    ensures { (request : Request) (answer : Answer) (new : CoreView) (call : IsAccepted core.now request answer new) →
        TakesNextId core.now answer → outcome core.now request ≡ accepted answer call.notes new }
{}

/// A refused call is the outcome, with its fault, and leaves the core as it is. Where it was refused because the outlet
/// had no place, or for want of memory, it would have been done.
pub fn refused_calls_are_the_outcome<O: Outlet, A>(core: &Core<O, A>)
    ensures refused { (request : Request) (fault : Fault) (new : CoreView) → IsRefused core.now request fault new →
        (IsLate fault → ⊥) → outcome core.now request ≡ refused fault }
    ensures unchanged { (request : Request) (fault : Fault) (new : CoreView) → IsRefused core.now request fault new →
        (IsLate fault → ⊥) → new ≡ core.now }
    ensures late { (request : Request) (fault : Fault) (new : CoreView) → IsRefused core.now request fault new →
        IsLate fault → outcome core.now request ≡ done core.now request }
{}

/// A span that no layer wants is the outcome, and leaves the core as it is.
pub fn unwanted_spans_are_the_outcome<O: Outlet, A>(core: &Core<O, A>)
    ensures outcome { (request : Request) (new : CoreView) → IsNotWanted core.now request new →
        outcome core.now request ≡ not_wanted }
    ensures unchanged { (request : Request) (new : CoreView) → IsNotWanted core.now request new →
        new ≡ core.now }
{}

/// The outcome is allowed: where it is a refusal the contracts give that fault, and where it is an answer they give one
/// step with these notes. So there is an outcome for each request of one of the workers, and no other.
pub fn outcome_is_allowed<O: Outlet, A>(core: &Core<O, A>)
    ensures new_id { IsNextIdNew core.now }
    ensures allowed { (request : Request) → worker_of request < core.now.limits.workers →
        IsAllowed core.now request (outcome core.now request) }
{
    next_id_is_new_here(core);
    what_was_sent_is_legal(core);
}

/// Two steps from one world for one request have the same answer, notes and next world, if the ids that they issue are
/// the same.
pub fn steps_leave_no_choice()
    ensures { (rules : List Filter) (ids : List ℕ) (old : World) (request : Request) (answer other : Answer)
        (notes others : List PlainNote) (new next : World) →
        IsStep rules ids old request answer notes new → IsStep rules ids old request other others next →
        id_issued answer ≡ id_issued other → (answer ≡ other) × (notes ≡ others) × (new ≡ next) }
{}

/// A legal history leaves one world: whoever knows what was sent knows which spans are open and what holds them.
pub fn a_history_leaves_one_world()
    ensures { (rules : List Filter) (workers : ℕ) (history : List PlainBatch) (world other : World) →
        IsLegal rules workers history world → IsLegal rules workers history other → world ≡ other }
{}

// The next id is in the layout, and no batch that was sent issued it.
fn next_id_is_new_here<O: Outlet, A>(core: &Core<O, A>)
    ensures { IsNextIdNew core.now }
{
    next_id_is_new(&core.forest);
}
