//! Why a script is at fault.
use crate::key::Key;
use thiserror::Error;

/// Why a script is at fault.
#[derive(Clone, Copy, Debug, PartialEq, Eq, Error)]
pub enum Reason {
    /// The line is no JSON text, or no UTF-8.
    #[error("not JSON")]
    NotJson,
    #[error("not an object")]
    NotObject,
    /// The line has no `op`, or one that is not in the table.
    #[error("no such op")]
    NoSuchOp,
    /// The line came after a line that it has to come before.
    #[error("late line")]
    LateLine,
    /// A required key is missing, or a value is not of its type or range.
    #[error("bad key {0}")]
    BadKey(Key),
    /// A span is named by a label that no `new` has bound.
    #[error("no such label")]
    NoSuchLabel,
    /// The label's span is open and has handles.
    #[error("label taken")]
    LabelTaken,
    /// The script has more than 16,777,216 bytes.
    #[error("too long")]
    TooLong,
}
