//! Fronts.

use crate::view::SeatView;
use atomic_table::Seat;
use span_seats::TableName;
use std::marker::{Model, PhantomData};

/// What a worker has seen of the history named `T`: a front of it, with all calls of the worker. It takes no bytes. To
/// a contract it is the worker's number and what was seen.
#[derive(Drop)]
pub struct Front<T: TableName> {
    pub(crate) seat: Seat<(), SeatView>,
    pub(crate) name: PhantomData<T>,
}

impl<T: TableName> Model for Front<T> {
    ghost use Rattle.std.specs.Prelude.{◌≡◌, [], true};
    ghost use Rattle.span_history.specs.Own.{FrontView};

    ghost Value = { FrontView };

    ghost view = { λ f. record { number = f.seat.me.0.number; seen = f.seat.me.0.log } };

    ghost invariant = { λ f. (f.seat.table_id ≡ T.history) × (f.seat.me.1 ≡ []) × (f.seat.me.0.has ≡ true) };
}
