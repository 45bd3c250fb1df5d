//! What each test compares with.
//!
//! An assertion is a branch of the function in which it stands, and each branch drops what that function owns. A call
//! of these is no branch, and they own nothing, so tests call them.
use std::fmt::{Debug, Display};
use std::process::Abort;

/// Whether the answer is the one that is wanted; `of` tells the case.
pub(crate) fn same<T: PartialEq + Debug + Copy, D: Display + Copy>(
    rt: &impl Abort,
    answer: T,
    want: T,
    of: D,
) {
    assert_eq!(rt; answer, want, "of {of}");
}

/// The same where no word has to tell the case.
pub(crate) fn equal<T: PartialEq + Debug + Copy>(rt: &impl Abort, answer: T, want: T) {
    assert_eq!(rt; answer, want);
}

/// Whether the bytes are this text.
pub(crate) fn is_text(rt: &impl Abort, bytes: &[u8], want: &str) {
    equal(rt, str::from_utf8(bytes).ok(), Some(want));
}
