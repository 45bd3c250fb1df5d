//! A stack of two spans that are entered again and again.
ghost use Rattle.std.specs.Prelude.{◌≤◌};

use crate::answer::Answer;
use crate::named::Named::{self, One, Two};
use crate::stage::Memory::{Taken, Untouched};
use crate::stage::Stage;
use crate::stop::Stop;
use crate::texts::add_stack;
use crate::trial::{Planned, Subject, perform};
use span_id::{Fault, Id};
use span_stack::SpanStack;
use std::alloc::{AllocError, Global};

enum Act {
    Reserve(usize),
    Push(Named),
    Pop(Named),
    Current,
    Top,
    Has(Named),
    Len,
    /// The id at this place of a walk.
    Walk(usize),
}

/// A stack that has room for so many entries more, at least.
#[derive(Drop)]
struct Reserved {
    stack: SpanStack,
    room: usize,
    ghost known: { room ≤ stack.room },
}

// The first span is entered again while it is open, and both are left.
static PLAN: [Planned<'static, Act>; 18] = [
    ("reserve 9", Taken, Act::Reserve(9)),
    ("push 1", Untouched, Act::Push(One)),
    ("push 2", Untouched, Act::Push(Two)),
    ("push 1", Untouched, Act::Push(One)),
    ("current", Untouched, Act::Current),
    ("top", Untouched, Act::Top),
    ("walk, first", Untouched, Act::Walk(0)),
    ("walk, second", Untouched, Act::Walk(1)),
    ("walk, third", Untouched, Act::Walk(2)),
    ("pop 2", Untouched, Act::Pop(Two)),
    ("current", Untouched, Act::Current),
    ("has 2", Untouched, Act::Has(Two)),
    ("pop 2", Untouched, Act::Pop(Two)),
    ("pop 1", Untouched, Act::Pop(One)),
    ("pop 1", Untouched, Act::Pop(One)),
    ("pop 1", Untouched, Act::Pop(One)),
    ("current", Untouched, Act::Current),
    ("len", Untouched, Act::Len),
];

/// Makes the calls, and tells what they answer.
pub(crate) fn run<R: Print>(stage: &Stage<R>, alloc: Global) -> Result<(), Stop> {
    let mut stack = Reserved {
        stack: SpanStack::new(alloc),
        room: 0,
    };
    perform(stage, alloc, &mut stack, &PLAN)
}

impl Subject<Act> for Reserved {
    fn call(&mut self, act: &Act) -> Result<Answer, Fault> {
        Ok(match act {
            Act::Reserve(n) => {
                self.stack.reserve(*n)?;
                self.room = *n;
                Answer::Done
            }
            Act::Push(named) => Answer::Yes(self.push(named.id())?),
            Act::Pop(named) => self
                .stack
                .pop(named.id())
                .map_or(Answer::Nothing, Answer::Yes),
            Act::Current => Answer::from(self.stack.current()),
            Act::Top => Answer::from(self.stack.top()),
            Act::Has(named) => Answer::Yes(self.stack.has(named.id())),
            Act::Len => Answer::Number(self.stack.len() as u64),
            Act::Walk(place) => Answer::from(self.stack.walk().nth(*place)),
        })
    }

    fn look(&mut self, text: &mut String) -> Result<(), AllocError> {
        add_stack(text, &self.stack)
    }
}

impl Reserved {
    // Pushes where there is room.
    fn push(&mut self, id: Id) -> Result<bool, Fault> {
        if self.room == 0 {
            return Err(Fault::Full);
        }
        self.room -= 1;
        Ok(self.stack.push(id))
    }
}
