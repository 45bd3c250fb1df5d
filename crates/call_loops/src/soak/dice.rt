//! Random choices, the same for a seed everywhere.
ghost use Rattle.std.specs.Prelude.{◌<◌};

// Knuth's multiplier, and an odd step.
const FACTOR: u64 = 6364136223846793005;

const STEP: u64 = 1442695040888963407;

/// A generator of numbers, each of which is a fixed function of the one before.
#[derive(Drop)]
pub struct Dice {
    state: u64,
}

impl Dice {
    /// The generator of this seed for the party of this number.
    pub fn new(seed: u64, party: u32) -> Dice {
        let mut dice = Dice {
            state: seed.wrapping_add(u64::from(party).wrapping_mul(FACTOR)),
        };
        dice.turn();
        dice
    }

    /// A number below the bound. The upper bits decide, since the lower ones repeat soon.
    pub fn below(&mut self, bound: usize) -> usize
        requires { 0 < bound }
        ensures { result < bound }
    {
        self.turn();
        (self.state >> 33) as usize % bound
    }

    fn turn(&mut self) {
        self.state = self.state.wrapping_mul(FACTOR).wrapping_add(STEP);
    }
}
