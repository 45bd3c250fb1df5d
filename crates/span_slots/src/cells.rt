//! One slot's part of the table.
ghost use Rattle.std.specs.Prelude.{◌≡◌, Some, IsSome};
ghost use Rattle.std.specs.Borrow.{sem};

/// A slot that was used.
#[derive(Debug, Drop)]
pub struct Cell<T> {
    /// How many ids of the slot were issued: one more than the generation of the last one.
    pub given: u64,
    /// The value that stands in the slot, under the last id that was issued.
    pub value: Option<T>,
}

impl<T> Cell<T> {
    ghost use Rattle.span_slots.specs.inside.Cells.{lends_cell};

    /// The value, where there is one, for writing.
    pub fn value_mut(&mut self) -> &mut T
        requires { IsSome self.old.value }
        ensures* lends { sem 𝓛 (lends_cell T.row self.entry result) }
        ensures value { self.old.value ≡ Some result.now }
    {
        match &mut self.value {
            Some(value) => value,
            None => unreachable!(),
        }
    }
}
