//! Random choices, the same for a seed everywhere.
ghost use Rattle.std.specs.Prelude.{◌<◌};

// The step and the factors of splitmix64.
const STEP: u64 = 0x9e37_79b9_7f4a_7c15;

const FACTOR: u64 = 0xbf58_476d_1ce4_e5b9;

const OTHER_FACTOR: u64 = 0x94d0_49bb_1331_11eb;

/// A generator of numbers.
#[derive(Drop)]
pub struct Dice {
    state: u64,
}

impl Dice {
    /// The generator of this seed for a part of a run.
    pub fn new(seed: u32, part: u32) -> Dice {
        let mut dice = Dice {
            state: u64::from(seed)
                .wrapping_mul(FACTOR)
                .wrapping_add(u64::from(part).wrapping_mul(OTHER_FACTOR)),
        };
        dice.turn();
        dice
    }

    /// A number below the bound.
    pub fn below(&mut self, bound: u32) -> u32
        requires { 0 < bound }
        ensures { result < bound }
    {
        (self.turn() >> 32) as u32 % bound
    }

    /// One of the words; they are not empty.
    pub fn word(&mut self, words: &[&'static str; 8]) -> &'static str {
        words[self.below(8) as usize]
    }

    fn turn(&mut self) -> u64 {
        self.state = self.state.wrapping_add(STEP);
        let mixed = (self.state ^ (self.state >> 30)).wrapping_mul(FACTOR);
        let mixed = (mixed ^ (mixed >> 27)).wrapping_mul(OTHER_FACTOR);
        mixed ^ (mixed >> 31)
    }
}
