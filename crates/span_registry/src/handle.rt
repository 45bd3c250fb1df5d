//! Handles.
ghost use Rattle.std.specs.Prelude.{◌≡◌, [], Some, IsSome};
ghost use Rattle.span_registry.specs.Share.{ShareView};

use crate::setup::Setup;
use crate::share::Share;
use span_history::Fronts;
use span_id::Id;
use span_seats::{HandleSeat, TableName};
use std::marker::Model;
use std::sync::ledger;
use std::sync::ledger::Ledger;

/// One unit of the registry's book of handles, written down at a span. As long as it is there, the span is open.
///
/// It has to be spent: given back by `Registry::try_close`, or given up by `into_share`. To a contract it is the id of
/// its span and the number of its seat. The id never changes; each call that is lent the handle may give it a new
/// number.
pub struct Handle<H: Ledger, C: Ledger, S: Setup> {
    pub(crate) id: Id,
    // There whenever no call is running on the handle.
    pub(crate) seat: Option<HandleSeat<S>>,
    pub(crate) unit: ledger::Share<H>,
    // No part of the ledger of calls: such a share is only had from another.
    pub(crate) no_calls: ledger::Share<C>,
}

impl<H: Ledger, C: Ledger, S: Setup> Model for Handle<H, C, S> {
    ghost use Rattle.std.specs.Prelude.{◌≡◌, IsSomeAnd};
    ghost use Rattle.span_seats.specs.declared.view.HandleView.{HandleView};
    ghost use Rattle.span_registry.specs.Handle.{number_in};

    ghost Value = { HandleView };

    ghost view = { λ h. record { id = h.id; number = number_in h.seat } };

    ghost invariant = { λ h. IsSomeAnd h.seat (λ seat. seat.id ≡ h.id)
        × (h.unit.parts ≡ 1) × (h.unit.amount ≡ 1) × (h.no_calls.parts ≡ 0) × (h.no_calls.amount ≡ 0) };
}

impl<H: Ledger, C: Ledger, S: Setup> Handle<H, C, S> {
    /// The id of the span.
    pub fn id(&self) -> Id
        ensures { result ≡ self.now.id }
    {
        self.id
    }

    /// Gives the handle up without closing: its span stays open, and the share has one unit.
    pub fn into_share(self) -> Share<H, C, S>
        ensures { result ≡ record { units = 1; accepted = 0; handle_parts = 1; call_parts = 0; seen = [] } }
    {
        let Handle {
            id: _,
            seat: _,
            unit,
            no_calls,
        } = self;
        Share {
            units: 1,
            accepted: 0,
            handles: unit,
            calls: no_calls,
            seen: Fronts::none(),
        }
    }
}

// Takes a handle's seat for a call. No call is running on the handle, so the seat is there.
pub(crate) fn take_seat<T: TableName>(seat: &mut Option<HandleSeat<T>>) -> HandleSeat<T>
    requires { IsSome seat.old }
    ensures { seat.old ≡ Some result }
{
    let Some(taken) = seat.take() else {
        unreachable!()
    };
    taken
}
