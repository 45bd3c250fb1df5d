//! Assertions in functions that have nothing to drop: beside values that are dropped they take the proof seconds.
use std::fmt::Debug;
use std::process::Abort;

/// Whether the answer is the one that is wanted.
pub(crate) fn same<T: PartialEq + Debug + Copy>(rt: &impl Abort, answer: T, want: T) {
    assert_eq!(rt; answer, want);
}
