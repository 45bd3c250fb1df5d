//! Gates that hold parties.
use span_storm::Gate;
use std::sync::Arc;
use std::sync::atomic::{AtomicBool, AtomicU64, Ordering};
use std::thread;

// How often a party looks whether the others have come.
const TURNS: u32 = 50_000_000;

/// Lets a storm of two workers pass only where its three parties run at the same time.
///
/// At its first call each party waits for the two others, at call 2 worker 0 waits until a line was written, at call 5
/// the two workers wait for each other, and at call 27 worker 0 waits until ten lines were written: so the drain steps
/// as long as the workers call.
#[derive(Drop)]
pub(crate) struct Meeting {
    begun: [AtomicBool; 3],
    fifth: [AtomicBool; 2],
    said: Arc<AtomicU64>,
}

impl Meeting {
    /// Nobody has come. `said` counts the lines that are written.
    pub(crate) fn new(said: Arc<AtomicU64>) -> Meeting {
        Meeting {
            begun: [
                AtomicBool::new(false),
                AtomicBool::new(false),
                AtomicBool::new(false),
            ],
            fifth: [AtomicBool::new(false), AtomicBool::new(false)],
            said,
        }
    }
}

impl Gate for Meeting {
    fn before(&self, party: u32, call: u64) -> bool {
        match (party, call) {
            (_, 1) => come(&self.begun, party),
            (0, 2) => are_said_in_time(&self.said, 1),
            (0, 27) => are_said_in_time(&self.said, 10),
            (_, 5) => come(&self.fifth, party),
            _ => true,
        }
    }
}

// The party raises its flag and waits until all flags are up.
fn come(flags: &[AtomicBool], party: u32) -> bool {
    match flags.get(party as usize) {
        Some(flag) => flag.store(true, Ordering::SeqCst),
        None => return false,
    }
    for flag in flags {
        if !is_up_in_time(flag) {
            return false;
        }
    }
    true
}

// Whether the flag is up before so many looks are over.
fn is_up_in_time(flag: &AtomicBool) -> bool {
    for _ in 0..TURNS {
        if flag.load(Ordering::SeqCst) {
            return true;
        }
        thread::yield_now();
    }
    false
}

// Whether so many lines are written before so many looks are over.
fn are_said_in_time(said: &AtomicU64, lines: u64) -> bool {
    for _ in 0..TURNS {
        if said.load(Ordering::SeqCst) >= lines {
            return true;
        }
        thread::yield_now();
    }
    false
}

/// Holds the parties from `first` on, at each of their calls from number `call` on.
#[derive(Clone, Copy)]
pub(crate) struct HoldsAt {
    pub(crate) first: u32,
    pub(crate) call: u64,
}

impl Gate for HoldsAt {
    fn before(&self, party: u32, call: u64) -> bool {
        party < self.first || call < self.call
    }
}

/// Holds one party at one of its calls alone.
#[derive(Clone, Copy)]
pub(crate) struct HoldsOnce {
    pub(crate) party: u32,
    pub(crate) call: u64,
}

impl Gate for HoldsOnce {
    fn before(&self, party: u32, call: u64) -> bool {
        party != self.party || call != self.call
    }
}

/// Holds the parties before `workers`, at each of their calls.
#[derive(Clone, Copy)]
pub(crate) struct HoldsWorkers {
    pub(crate) workers: u32,
}

impl Gate for HoldsWorkers {
    fn before(&self, party: u32, _call: u64) -> bool {
        party >= self.workers
    }
}

/// Lets a party go on only where it asks for each of its calls once, in order, from 1 on.
#[derive(Drop)]
pub(crate) struct InOrder {
    last: [AtomicU64; 3],
}

impl InOrder {
    /// Nobody has asked.
    pub(crate) fn new() -> InOrder {
        InOrder {
            last: [AtomicU64::new(0), AtomicU64::new(0), AtomicU64::new(0)],
        }
    }

    /// The numbers of the last calls that the three parties asked for.
    pub(crate) fn last(&self) -> (u64, u64, u64) {
        let [one, two, three] = &self.last;
        (
            one.load(Ordering::SeqCst),
            two.load(Ordering::SeqCst),
            three.load(Ordering::SeqCst),
        )
    }
}

impl Gate for InOrder {
    fn before(&self, party: u32, call: u64) -> bool {
        match self.last.get(party as usize) {
            Some(last) => call.checked_sub(1) == Some(last.swap(call, Ordering::SeqCst)),
            None => false,
        }
    }
}
