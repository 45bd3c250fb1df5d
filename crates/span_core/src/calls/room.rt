ghost use Rattle.std.specs.Prelude.{◌≡◌, true, IfErr, OnOk};
ghost use Rattle.span_core.specs.Core.{IsLate, times_after};

use span_id::Fault;
use span_layers::Note;
use span_outlet::Outlet;

// Asks for a place for one more batch. Where there is one, the outlet may give a list for its notes too.
// Each call asks, and the compiler doesn't inline it by itself where the outlet gives lists back.
#[inline(always)]
pub(crate) fn ask<O: Outlet>(outlet: &mut O, spare: &mut Vec<Note>) -> Result<(), Fault>
    ensures sent { O.sent outlet.new ≡ O.sent outlet.old }
    ensures forms { O.forms outlet.new ≡ O.forms outlet.old }
    ensures name { O.name outlet.new ≡ O.name outlet.old }
    ensures ready { OnOk result (O.ready outlet.new ≡ true) }
    ensures times_full { OnOk result (O.times_full outlet.new ≡ O.times_full outlet.old) }
    ensures refused { IfErr result (λ fault. IsLate fault
        × (O.times_full outlet.new ≡ times_after fault (O.times_full outlet.old))) }
{
    if outlet.room()? {
        refill(outlet, spare);
        Ok(())
    } else {
        Err(Fault::Backlog)
    }
}

// Where the spare list has no memory, one that the outlet gives takes its place.
#[inline(always)]
fn refill<O: Outlet>(outlet: &mut O, spare: &mut Vec<Note>)
    ensures sent { O.sent outlet.new ≡ O.sent outlet.old }
    ensures forms { O.forms outlet.new ≡ O.forms outlet.old }
    ensures name { O.name outlet.new ≡ O.name outlet.old }
    ensures ready { O.ready outlet.new ≡ O.ready outlet.old }
    ensures times_full { O.times_full outlet.new ≡ O.times_full outlet.old }
{
    if spare.capacity() > 0 {
        return;
    }
    if let Some(list) = outlet.spare_notes() {
        *spare = list;
    }
}
