//! What a seat of the history's table knows. No value of it is ever made.

use crate::entry::Entry;
use std::collections::LinkedList;

/// What a seat knows of the history: a front of it. The keeper's is the whole.
pub(crate) struct SeatView {
    /// What was seen.
    pub log: LinkedList<Entry>,
    /// Of the keeper: what the front that was joined last had seen.
    pub shown: LinkedList<Entry>,
    /// Whether calls of its number can be added by this seat alone.
    pub has: bool,
    /// The number.
    pub number: u64,
    /// Of the keeper: the number of the next front.
    pub next: u64,
}
