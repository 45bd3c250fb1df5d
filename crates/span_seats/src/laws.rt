//! Promises that follow from the definitions, each as the contract of a function that does no more than it says.
//!
//! Of a handle's seat that is lent beside the root nothing is said: only a step shows the views of two seats
//! together, and the one that shows a handle's with the root's is `RootSeat::join`.
ghost use Rattle.std.specs.Prelude.{◌≡◌, ◌≢◌, ◌<◌, true};
ghost use Rattle.span_id.specs.Id.{slot_of};
ghost use Rattle.span_seats.specs.RootView.{handle_count, has_number, IsOpenIn, with_number, without_number};

use crate::handle::HandleSeat;
use crate::root::RootSeat;
use crate::table::TableName;
use span_id::Id;

// In each body the root's field brings its invariant to light.

/// An id that has a handle is open: its slot's word is its generation plus 1.
#[tactic(auto, using(crate::proofs::WellFormed::counted_opens))]
pub fn an_id_with_a_handle_is_open<T: TableName>(root: &RootSeat<T>, id: Id)
    requires { 0 < handle_count id root.now.handles }
    ensures { IsOpenIn root.now.words id }
{
    let _root = &root.table;
    let _id = id;
}

/// No slot has handles of two ids: while a handle of its span is there, a slot isn't given again.
#[tactic(auto, using(crate::proofs::WellFormed::one_id_of_slot))]
pub fn a_slot_has_handles_of_one_id<T: TableName>(root: &RootSeat<T>, first: Id, second: Id)
    requires first { 0 < handle_count first root.now.handles }
    requires second { 0 < handle_count second root.now.handles }
    requires slot { slot_of first ≡ slot_of second }
    ensures { first ≡ second }
{
    let _root = &root.table;
    let _ids = (first.get(), second.get());
}

/// Two handles have two numbers, which two joins show. Each gets a seat back, of the same id.
pub fn two_handles_have_two_numbers<T: TableName>(
    root: &mut RootSeat<T>,
    first: HandleSeat<T>,
    second: HandleSeat<T>,
) -> (HandleSeat<T>, HandleSeat<T>)
    ensures numbers { first.number ≢ second.number }
    ensures first { has_number first.id first.number root.old.handles ≡ true }
    ensures second { has_number second.id second.number
        (with_number (without_number root.old first.id first.number)).handles ≡ true }
    ensures root { root.new ≡ with_number (without_number
        (with_number (without_number root.old first.id first.number)) second.id second.number) }
    ensures ids { (result.0.id ≡ first.id) × (result.1.id ≡ second.id) }
{
    let _root = &root.table;
    root.join(first);
    let first = root.split();
    root.join(second);
    let second = root.split();
    (first, second)
}
