//! Reports.

use span_outlet::Line;

/// What a registry counts at its end.
#[derive(Clone, Copy, Debug, PartialEq, Eq)]
pub struct Counts {
    /// How many spans were open at the end.
    pub left: u32,
    /// How many handles were given up unclosed.
    pub handles: u64,
    /// How many entries the stacks of all workers had at the end, without duplicates.
    pub entries: u64,
    /// How many calls were accepted.
    pub calls: u64,
    /// How many spans were made.
    pub made: u64,
    /// How many spans have closed.
    pub closed: u64,
}

/// How a registry ended: its [`Counts`], and its lines.
#[derive(Debug, Drop)]
pub struct Report {
    /// How many spans were open at the end.
    pub left: u32,
    /// How many handles were given up unclosed.
    pub handles: u64,
    /// How many entries the stacks of all workers had at the end, without duplicates.
    pub entries: u64,
    /// How many calls were accepted.
    pub calls: u64,
    /// How many spans were made.
    pub made: u64,
    /// How many spans have closed.
    pub closed: u64,
    /// The lines of the notes, in order, but for the notes that were missed.
    pub lines: Vec<Line>,
    /// How many notes were missed. It stays at its greatest value.
    pub missed: u64,
}
