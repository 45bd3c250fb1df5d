//! The rule of the history's table, and the kinds of step.

use crate::view::SeatView;
use atomic_table::{Join, Play, Split, TableRule};
use std::marker::{Brand, PhantomData};

/// The rule: what each seat has seen begins what the keeper knows, and has all calls of its number; and no two seats
/// have one number.
pub(crate) struct HistoryRule;

impl TableRule<(), SeatView, ()> for HistoryRule {
    ghost use Rattle.span_history.specs.inside.Rule.{Holds, spent_seat};

    ghost holds = { λ _. Holds };

    ghost first = { λ _. spent_seat };
}

/// A history to go on with. Each step of a keeper picks it.
pub(crate) trait Longer {
    ghost use Rattle.std.specs.Prelude.{List};
    ghost use Rattle.span_outlet.specs.Batch.{PlainBatch};

    ghost longer: { List PlainBatch };
}

impl Longer for Brand {
    ghost use Rattle.std.specs.Prelude.{[]};

    ghost longer = { [] };
}

/// The keeper's history becomes this longer one.
pub(crate) struct Lengthen<N: Longer> {
    name: PhantomData<N>,
}

impl<N: Longer> Play<(), SeatView> for Lengthen<N> {
    ghost use Rattle.span_history.specs.inside.Rule.{Lengthened};

    ghost then = { Lengthened N.longer };
}

/// The keeper looks: what was shown to it is a front of what it knows.
pub(crate) struct Look;

impl Play<(), SeatView> for Look {
    ghost use Rattle.span_history.specs.inside.Rule.{Looked};

    ghost then = { Looked };
}

/// A seat that knows nothing is split off the keeper's.
pub(crate) struct Spare;

impl Split<SeatView> for Spare {
    ghost use Rattle.span_history.specs.inside.Rule.{spent_seat};

    ghost left = { λ v. v };

    ghost right = { λ v. spent_seat };
}

/// The front of a new number is split off the keeper's.
pub(crate) struct Enroll;

impl Split<SeatView> for Enroll {
    ghost use Rattle.std.specs.Prelude.{◌+◌};
    ghost use Rattle.span_history.specs.inside.Rule.{idle_seat, front_seat};

    ghost left = { λ v. idle_seat v.log v.shown (v.next + 1) };

    ghost right = { λ v. front_seat v.next v.log };
}

/// A front is joined to the keeper's, or given back.
pub(crate) struct Hand;

impl Split<SeatView> for Hand {
    ghost use Rattle.span_history.specs.inside.Rule.{idle_seat, front_seat};

    ghost left = { λ v. idle_seat v.log v.shown v.next };

    ghost right = { λ v. front_seat v.number v.log };
}

impl Join<SeatView> for Hand {
    ghost use Rattle.span_history.specs.inside.Rule.{busy_seat, spent_seat};

    ghost both = { λ v w. busy_seat v.log w.log w.number v.next };

    ghost spent = { spent_seat };
}
