//! Calls as data.

use crate::soak::dice::Dice;

/// How many handles a worker holds at most, and of how many spans it is inside at most.
pub const MOST_HANDLES: usize = 32;

pub const MOST_INSIDE: usize = 16;

/// A call. Handles, and the spans that the worker is inside, stand under their places in the worker's lists.
#[derive(Clone, Copy)]
pub enum Act {
    NewRoot,
    NewCurrent,
    NewUnder(usize),
    Clone(usize),
    Enter(usize),
    Exit(usize),
    Record(usize),
    Event,
    Close(usize),
}

impl Act {
    /// How many notes a layer that wants all is told of the call. The note of a span's end is counted with its making,
    /// since each span closes in the end.
    pub fn notes(self) -> u64 {
        match self {
            Act::NewRoot | Act::NewCurrent | Act::NewUnder(_) => 2,
            Act::Enter(_) | Act::Exit(_) | Act::Record(_) | Act::Event => 1,
            Act::Clone(_) | Act::Close(_) => 0,
        }
    }
}

/// A random call of a worker that holds so many handles and is inside so many spans. Calls that give back are as likely
/// as those that take, and where a list is full the worker gives back.
pub fn choose(dice: &mut Dice, held: usize, inside: usize) -> Act {
    if held == 0 {
        return Act::NewRoot;
    }
    let place = dice.below(held);
    if held >= MOST_HANDLES {
        return Act::Close(place);
    }
    if inside >= MOST_INSIDE {
        return Act::Exit(dice.below(inside));
    }
    match dice.below(20) {
        0 => Act::NewRoot,
        1 | 2 => Act::NewCurrent,
        3 | 4 => Act::NewUnder(place),
        5 | 6 => Act::Clone(place),
        7..=9 => Act::Enter(place),
        10..=12 if inside > 0 => Act::Exit(dice.below(inside)),
        13 => Act::Record(place),
        14 => Act::Event,
        _ => Act::Close(place),
    }
}
