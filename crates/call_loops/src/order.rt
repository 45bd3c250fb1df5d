//! Which runs there are.

use crate::reading::Pace;
use span_layers::FmtSpan;

/// How many layers there are, how many fields each span and event has, how deep the spans of the rounds stand (1 for
/// roots), and how many rounds are made.
#[derive(Clone, Copy)]
pub struct Shape {
    pub layers: u32,
    pub fields: u32,
    pub depth: u32,
    pub rounds: u32,
}

/// How many workers make so many random calls each, through a ring of so many places; the seed decides which calls.
#[derive(Clone, Copy)]
pub struct Crew {
    pub workers: u32,
    pub places: u32,
    pub rounds: u64,
    pub seed: u64,
}

/// What each worker of a registry does in its thread, beside a reader.
#[derive(Clone, Copy)]
pub enum Plan {
    /// So many random calls, and then it gives all back; the seed decides which calls.
    Random { rounds: u64, seed: u64 },
    /// So many rounds of three calls.
    Rounds(u32),
}

impl Plan {
    /// How many fields each span and event has.
    pub fn fields(self) -> u32 {
        match self {
            Plan::Random { .. } => 1,
            Plan::Rounds(_) => 0,
        }
    }

    /// How the reader goes beside it.
    pub fn pace(self) -> Pace {
        match self {
            Plan::Random { .. } => Pace::WithSleeps,
            Plan::Rounds(_) => Pace::Steady,
        }
    }
}

/// One run.
#[derive(Clone, Copy)]
pub enum Order {
    /// Rounds on a core.
    Core(Shape),
    /// The same rounds on a registry.
    Registry(Shape),
    /// A storm without layers: 1 to 16 workers, 1 to 400 rounds.
    Storm { workers: u32, rounds: u32 },
    /// A chain of so many spans, and its end.
    Chain { length: u32 },
    /// A run beside a reader.
    Beside(Beside),
}

/// A run beside a reader in a thread of its own.
#[derive(Clone, Copy)]
pub enum Beside {
    /// Rounds beside a slow reader, through a ring of so many places.
    Slow { places: u32, rounds: u32 },
    /// A long run of random calls.
    Soak(Crew),
}

impl Beside {
    /// How many times more the layer makes the text of a note.
    pub fn more(&self) -> u32 {
        match self {
            Beside::Slow { .. } => 200,
            Beside::Soak(_) => 0,
        }
    }
}

impl Order {
    /// Which of a span's notes the layers want. A chain's would each have the
    /// path to its root, so it has none.
    pub fn spans(&self) -> FmtSpan {
        match self {
            Order::Chain { .. } => FmtSpan::NONE,
            _ => FmtSpan::FULL,
        }
    }
}

// A few rounds of each run.
const SHORT: Shape = Shape {
    layers: 2,
    fields: 1,
    depth: 3,
    rounds: 10,
};

/// Short runs of all but the long one.
pub const SHORT_RUNS: [Order; 5] = [
    Order::Core(SHORT),
    Order::Registry(SHORT),
    Order::Storm {
        workers: 2,
        rounds: 3,
    },
    Order::Chain { length: 1000 },
    Order::Beside(Beside::Slow {
        places: 1,
        rounds: 10,
    }),
];

/// A short one of the long run.
pub const SHORT_SOAK: Order = Order::Beside(Beside::Soak(Crew {
    workers: 4,
    places: 4,
    rounds: 500,
    seed: 1,
}));
