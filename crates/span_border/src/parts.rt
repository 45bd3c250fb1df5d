//! A box as its pointer and its allocator, with what it owns.
ghost use Rattle.std.specs.Prelude.{◌≡◌};
ghost use Rattle.std.specs.Box.Ownership.{box_owns};

use std::alloc::Allocator;
use std::marker::Model;

/// A box whose pointer can be had.
pub(crate) struct Parts<T, A: Allocator> {
    pub(crate) at: *mut T,
    pub(crate) alloc: A,
    pub(crate) ghost value: { T },
}

impl<T, A: Allocator> Model for Parts<T, A> {
    ghost also_owns = { λ parts. box_owns (A.dealloc_token parts.alloc) T.row parts.at parts.value };
}

impl<T, A: Allocator> Parts<T, A> {
    /// The parts of a box.
    pub(crate) fn of(boxed: Box<T, A>) -> Parts<T, A>
    where
        T: Drop,
        ensures { result.value ≡ boxed.value }
    {
        let (at, alloc) = Box::into_raw_with_allocator(boxed);
        Parts { at, alloc }
    }

    /// The box of these parts.
    pub(crate) fn into_box(self) -> Box<T, A>
        ensures { result.value ≡ self.value }
    {
        let Parts { at, alloc } = self;
        unsafe { Box::from_raw(alloc, at) }
    }
}
