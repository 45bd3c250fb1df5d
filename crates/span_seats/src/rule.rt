//! The rule of the table, and the kinds of step.

use crate::view::SeatView;
use atomic_table::{Join, Play, Split, TableRule};

/// The rule: each word is what the root says, each handle's number stands in the root's set of its id, and an id
/// whose set isn't empty has its generation plus 1 in its slot's word.
pub(crate) struct SeatRule;

impl TableRule<(), SeatView, u64> for SeatRule {
    ghost use Rattle.span_seats.specs.inside.SeatRule.{Holds};
    ghost use Rattle.span_seats.specs.inside.SeatView.{first_view};

    ghost holds = { λ _. Holds };

    ghost first = { first_view };
}

/// The root stores a slot's word.
pub(crate) struct Store;

impl Play<(), SeatView> for Store {
    ghost use Rattle.span_seats.specs.inside.SeatRule.{Stored};

    ghost then = { Stored };
}

/// The root reads a word, which shows it what the rule says of its view.
pub(crate) struct Look;

impl Play<(), SeatView> for Look {
    ghost use Rattle.span_seats.specs.inside.SeatRule.{Looked};

    ghost then = { Looked };
}

/// A handle's seat is split off the root's, or joined to it.
pub(crate) struct Hand;

impl Split<SeatView> for Hand {
    ghost use Rattle.span_seats.specs.inside.SeatView.{root_after_split, handle_of_split};

    ghost left = { root_after_split };

    ghost right = { handle_of_split };
}

impl Join<SeatView> for Hand {
    ghost use Rattle.span_seats.specs.inside.SeatView.{root_after_join, joined_seat};

    ghost both = { root_after_join };

    ghost spent = { joined_seat };
}
