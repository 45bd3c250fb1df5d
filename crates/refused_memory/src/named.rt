//! The ids that rows name.

use span_id::Id;

/// An id that a row names.
#[derive(Clone, Copy)]
pub(crate) enum Named {
    /// 1, of the first slot.
    One,
    /// 2, of the second slot.
    Two,
    /// 16777217, of the first slot at its next generation.
    OneAnew,
}

impl Named {
    /// All that are named.
    pub(crate) const ALL: &'static [Named] = &[Named::One, Named::Two, Named::OneAnew];

    /// The id.
    pub(crate) fn id(self) -> Id {
        match self {
            Named::One => Id::pack(0, 0),
            Named::Two => Id::pack(1, 0),
            Named::OneAnew => Id::pack(0, 1),
        }
    }
}
