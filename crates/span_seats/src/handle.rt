//! A handle's seat.

use crate::table::TableName;
use crate::view::SeatView;
use atomic_table::Seat;
use std::marker::{Model, PhantomData};

/// What a handle carries of the table named `T`: as long as it is there, the span of its id is open. It takes no
/// bytes. To a contract it is the handle's id and number.
///
/// Its facts come to light where the root joins it (`RootSeat::join`). One that is dropped leaves its number in the
/// root's set for good.
#[derive(Drop)]
pub struct HandleSeat<T: TableName> {
    pub(crate) seat: Seat<(), SeatView>,
    pub(crate) name: PhantomData<T>,
}

impl<T: TableName> Model for HandleSeat<T> {
    ghost use Rattle.std.specs.Prelude.{◌≡◌, []};
    ghost use Rattle.span_seats.specs.declared.view.HandleView.{HandleView};
    ghost use Rattle.span_seats.specs.inside.SeatView.{handle_seat};

    ghost Value = { HandleView };

    ghost view = { λ h. h.seat.me.0.handle };

    ghost invariant = { λ h. (h.seat.table_id ≡ T.table) × (h.seat.me ≡ (handle_seat h.seat.me.0.handle, [])) };
}
