//! What a seat knows, as contracts see it. No value of these types is ever made.

use std::collections::LinkedList;

/// What a handle's seat knows.
pub struct HandleView {
    /// The span's id.
    pub id: u64,
    /// A number that no other handle of the table has.
    pub number: u64,
}

/// What the root knows. The numbers of all handles of one id are that id's set.
pub struct RootView {
    /// The id and the number of each handle.
    pub handles: LinkedList<HandleView>,
    /// The number of the next handle, above those of all handles so far. It has no bound, and no code computes it.
    pub next_number: u64,
    /// The word of each slot: 0 while no span is open there, else the open span's generation plus 1.
    pub words: LinkedList<u64>,
    /// The id of which the next split gives a handle's seat: that of the last store or join.
    pub split_id: u64,
}

/// What a seat knows: the root's, a handle's, or one that was joined to the root's.
pub(crate) struct SeatView {
    /// What the root knows.
    pub root: RootView,
    /// Of the root: whether each join found the handle's number in the set of its id.
    pub all_found: bool,
    /// Whether the seat is a handle's.
    pub is_handle: bool,
    /// What a handle knows.
    pub handle: HandleView,
}
