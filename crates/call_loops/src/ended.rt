//! How a run ended.

use span_registry::Counts;

/// How many notes the layer of a long run has to be told of the calls, and how often a call was refused for want of a
/// place.
#[derive(Clone, Copy, Default)]
pub struct Tally {
    pub notes: u64,
    pub backlogs: u64,
}

impl Tally {
    /// Both together, as far as a `u64` goes.
    pub fn and(self, other: Tally) -> Tally {
        Tally {
            notes: self.notes.saturating_add(other.notes),
            backlogs: self.backlogs.saturating_add(other.backlogs),
        }
    }
}

/// How a registry ended whose lines a reader gave out: how many lines that were, how many notes were missed, and of how
/// many calls the notes were read; and what the workers counted.
#[derive(Clone, Copy)]
pub struct Ended {
    pub counts: Counts,
    pub lines: u64,
    pub missed: u64,
    pub read: u64,
    pub tally: Tally,
}

/// The numbers of a run that was made: those of its end, as far as there is one, and what was counted.
#[derive(Clone, Copy)]
pub struct Made {
    pub calls: u64,
    pub made: u64,
    pub closed: u64,
    pub left: u32,
    pub handles: u64,
    pub entries: u64,
    pub notes: u64,
    pub lines: u64,
    pub missed: u64,
    pub backlogs: u64,
}

impl Made {
    /// Those of a run of which nothing is counted.
    pub const NONE: Made = Made {
        calls: 0,
        made: 0,
        closed: 0,
        left: 0,
        handles: 0,
        entries: 0,
        notes: 0,
        lines: 0,
        missed: 0,
        backlogs: 0,
    };
}

impl Ended {
    /// Its numbers.
    pub fn made(&self) -> Made {
        let counts = &self.counts;
        Made {
            calls: counts.calls,
            made: counts.made,
            closed: counts.closed,
            left: counts.left,
            handles: counts.handles,
            entries: counts.entries,
            notes: self.tally.notes,
            lines: self.lines,
            missed: self.missed,
            backlogs: self.tally.backlogs,
        }
    }
}
