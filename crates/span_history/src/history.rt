//! The history's table, made before it has a name.
ghost use Rattle.std.specs.Prelude.{◌≡◌, []};
ghost use Rattle.atomic_table.specs.Seated.{TableId};

use crate::keeper::Keeper;
use crate::rule::HistoryRule;
use crate::view::SeatView;
use atomic_table::{Seat, Table};
use span_seats::TableName;
use std::alloc::{AllocError, Global};
use std::marker::{Model, PhantomData};

pub(crate) type WordTable = Table<(), SeatView, (), HistoryRule, Global>;

/// An empty history, whose table has no name yet. To a contract it is the table's id.
#[derive(Drop)]
pub struct History {
    table: WordTable,
    seat: Seat<(), SeatView>,
}

impl Model for History {
    ghost use Rattle.std.specs.Prelude.{◌≡◌, ◌<◌, []};
    ghost use Rattle.atomic_table.specs.Seated.{TableId};
    ghost use Rattle.span_history.specs.inside.Rule.{spent_seat};

    ghost Value = { TableId };

    ghost view = { λ t. t.table.shared.table_id };

    ghost invariant = { λ t.
        (t.seat.table_id ≡ t.table.shared.table_id) × (0 < t.table.shared.table_id.words) × (t.seat.id ≡ 0)
        × (t.seat.me ≡ (spent_seat, [])) };
}

impl History {
    /// An empty history. The only error is that memory was refused.
    pub fn new(alloc: Global) -> Result<History, AllocError> {
        let words = [0u64];
        let (table, seat) = WordTable::of_words(alloc, &words, &())?;
        Ok(History { table, seat })
    }

    /// The keeper of this history, which is the one named `T`. It has no front yet.
    pub fn named<T: TableName>(self) -> Keeper<T>
        requires { self ≡ T.history }
        ensures { result ≡ record { history = []; next = 0 } }
    {
        let History { table, seat } = self;
        Keeper {
            table,
            seat,
            name: PhantomData,
        }
    }
}
