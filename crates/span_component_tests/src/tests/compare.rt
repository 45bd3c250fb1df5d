//! What each test compares with, ids by their numbers, and what may go to another thread.
//!
//! An assertion is a branch of the function in which it stands, and each branch drops what that function owns. A call
//! of these is no branch, and they own nothing, so tests call them.
ghost use Rattle.std.specs.Prelude.{◌≡◌};

use span_id::Id;
use std::fmt::{Debug, Display};
use std::process::Abort;

/// Whether the answer is the one that is wanted; `of` tells the case.
pub(crate) fn same<T: PartialEq + Debug + Copy, D: Display + Copy>(
    rt: &impl Abort,
    answer: T,
    want: T,
    of: D,
) {
    assert_eq!(rt; answer, want, "of {of}");
}

/// Whether this is so; `of` tells the case.
pub(crate) fn holds<D: Display + Copy>(rt: &impl Abort, fact: bool, of: D) {
    assert!(rt; fact, "{of}");
}

/// The id of this number.
pub(crate) fn id(rt: &impl Abort, number: u64) -> Id {
    Id::from_u64(number).expect(rt, "an id")
}

/// What it is given may go to another thread.
pub(crate) fn crosses_threads<T: Send>(value: T) -> T
    ensures { result ≡ value }
{
    value
}
