//! The keeper of a history.
ghost use Rattle.std.specs.Prelude.{◌≡◌, ◌+◌, All};
ghost use mathlib.Core.List.{IsPrefix};
ghost use Rattle.span_history.specs.Own.{GoesOn, IsFront};

use crate::front::Front;
use crate::fronts::Fronts;
use crate::history::WordTable;
use crate::rule::{Enroll, Hand, Lengthen, Longer, Look, Spare};
use crate::view::SeatView;
use atomic_table::Seat;
use span_outlet::Outlet;
use span_seats::TableName;
use std::marker::{Brand, Model, PhantomData};

/// Who keeps the history named `T`, with its table. To a contract it is the history, and the number of the next front.
#[derive(Drop)]
pub struct Keeper<T: TableName> {
    pub(crate) table: WordTable,
    pub(crate) seat: Seat<(), SeatView>,
    pub(crate) name: PhantomData<T>,
}

impl<T: TableName> Model for Keeper<T> {
    ghost use Rattle.std.specs.Prelude.{◌≡◌, ◌<◌, [], false};
    ghost use Rattle.span_history.specs.Own.{KeeperView};

    ghost Value = { KeeperView };

    ghost view = { λ k. record { history = k.seat.me.0.log; next = k.seat.me.0.next } };

    ghost invariant = { λ k.
        (k.table.shared.table_id ≡ T.history) × (k.seat.table_id ≡ T.history) × (0 < k.table.shared.table_id.words)
        × (k.seat.id ≡ 0) × (k.seat.me.1 ≡ []) × (k.seat.me.0.has ≡ false) };
}

impl<T: TableName> Keeper<T> {
    /// The front of the next number, which has seen the whole history.
    pub fn enroll(&mut self) -> Front<T>
        ensures keeper { self.new ≡ record self.old { next = self.old.next + 1 } }
        ensures front { result ≡ record { number = self.old.next; seen = self.old.history } }
    {
        let table = &self.table;
        let seat = table.shared.split_seat::<Enroll>(&mut self.seat);
        Front {
            seat,
            name: PhantomData,
        }
    }

    /// The history becomes that of what was sent, by calls of the front's worker, and the front sees it whole. Before, it
    /// had seen a front of the history so far.
    #[tactic(auto, using(crate::proofs::Prefixes::prefix_trans))]
    pub fn next<O: Outlet>(&mut self, outlet: &O, front: &mut Front<T>)
        requires { GoesOn front.old.number self.old.history (O.sent outlet.now) }
        ensures history { self.new ≡ record self.old { history = O.sent outlet.now } }
        ensures whole { front.new ≡ record front.old { seen = O.sent outlet.now } }
        ensures before { IsFront front.old self.old.history }
        ensures more { IsPrefix front.old.seen front.new.seen }
    {
        self.lengthen::<Brand, O>(outlet, front);
    }

    fn lengthen<N: Longer, O: Outlet>(&mut self, outlet: &O, front: &mut Front<T>)
        requires longer { N.longer ≡ O.sent outlet.now }
        requires goes { GoesOn front.old.number self.old.history N.longer }
        ensures history { self.new ≡ record self.old { history = N.longer } }
        ensures whole { front.new ≡ record front.old { seen = N.longer } }
        ensures before { IsFront front.old self.old.history }
    {
        // (its clauses alone are of the outlet)
        let _ = outlet;
        let table = &self.table;
        // What the front had seen is looked at before the history grows. Looked at afterwards, it would be known to begin
        // the longer one alone.
        let spare = table.shared.split_seat::<Spare>(&mut self.seat);
        let mine = std::mem::replace(&mut front.seat, spare);
        table.shared.join_seat::<Hand>(&mut self.seat, mine);
        table.shared.load::<Look>(&mut self.seat, 0);
        table.shared.load::<Lengthen<N>>(&mut self.seat, 0);
        front.seat = table.shared.split_seat::<Hand>(&mut self.seat);
    }

    /// Takes a front in, which shows that it is one of this history.
    pub fn show(&mut self, front: Front<T>)
        ensures same { self.new ≡ self.old }
        ensures front { IsFront front self.old.history }
    {
        let Front { seat, name: _ } = front;
        let table = &self.table;
        table.shared.join_seat::<Hand>(&mut self.seat, seat);
        table.shared.load::<Look>(&mut self.seat, 0);
        let _shown = table.shared.split_seat::<Hand>(&mut self.seat);
    }

    /// Takes fronts in, which shows that each is one of this history.
    pub fn show_all(&mut self, fronts: Fronts<T>)
        ensures same { self.new ≡ self.old }
        ensures fronts { All (λ front. IsFront front self.old.history) fronts }
    {
        let Some(places) = fronts.places else {
            return;
        };
        for place in places {
            match place {
                Some(front) => self.show(front),
                None => {}
            }
        }
    }
}
