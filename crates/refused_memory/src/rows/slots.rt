//! A table of two slots, each of which gives one id.

use crate::answer::Answer;
use crate::named::Named::{self, One, Two};
use crate::stage::Memory::{Taken, Untouched};
use crate::stage::Stage;
use crate::stop::Stop;
use crate::texts::{add_id, add_numbers};
use crate::trial::{Planned, Subject, perform};
use span_id::{Fault, Id, Limits};
use span_slots::Slots;
use std::alloc::{AllocError, Global};

enum Act {
    Insert(u32),
    Ids,
    Get(Named),
    /// Writes through `get_mut`.
    Set(Named, u32),
    Remove(Named),
    Len,
    Free,
    NextId,
}

// Both slots are taken, written and given back.
static PLAN: [Planned<'static, Act>; 16] = [
    ("next id", Untouched, Act::NextId),
    ("insert 7", Untouched, Act::Insert(7)),
    ("insert 8", Untouched, Act::Insert(8)),
    ("insert 9", Untouched, Act::Insert(9)),
    ("ids", Taken, Act::Ids),
    ("get 1", Untouched, Act::Get(One)),
    ("write 6 under 1", Untouched, Act::Set(One, 6)),
    ("remove 1", Untouched, Act::Remove(One)),
    ("get 1", Untouched, Act::Get(One)),
    ("remove 1", Untouched, Act::Remove(One)),
    ("insert 9", Untouched, Act::Insert(9)),
    ("get 2", Untouched, Act::Get(Two)),
    ("len", Untouched, Act::Len),
    ("free", Untouched, Act::Free),
    ("next id", Untouched, Act::NextId),
    ("ids", Taken, Act::Ids),
];

/// Makes the calls, and tells what they answer.
pub(crate) fn run<R: Print>(stage: &Stage<R>, alloc: Global) -> Result<(), Stop> {
    let limits = Limits {
        slots: 2,
        last_generation: 0,
        ..Limits::default()
    };
    let checked = limits.check()?;
    stage.begin(Taken);
    let made = Slots::<u32>::new(alloc, &checked);
    stage.over();
    match made {
        Ok(mut slots) => perform(stage, alloc, &mut slots, &PLAN),
        Err(_) => Err(Stop::Memory),
    }
}

impl Subject<Act> for Slots<u32> {
    fn call(&mut self, act: &Act) -> Result<Answer, Fault> {
        Ok(match act {
            Act::Insert(value) => match self.insert(*value) {
                Ok(id) => Answer::Span(id),
                Err((_, fault)) => return Err(fault),
            },
            Act::Ids => Answer::Spans(self.ids()?),
            Act::Get(named) => value(self.get(named.id()).copied()),
            Act::Set(named, value) => set(self, named.id(), *value),
            Act::Remove(named) => value(self.remove(named.id())),
            Act::Len => Answer::Number(u64::from(self.len())),
            Act::Free => Answer::Number(u64::from(self.free())),
            Act::NextId => Answer::from(self.next_id()),
        })
    }

    fn look(&mut self, text: &mut String) -> Result<(), AllocError> {
        add_numbers(text, &[u64::from(self.len()), u64::from(self.free())])?;
        add_id(text, self.next_id())?;
        for slot in 0..3 {
            let found = self.get(Id::pack(slot, 0)).copied();
            write!(text, " {found:?}")?;
        }
        Ok(())
    }
}

fn value(value: Option<u32>) -> Answer {
    match value {
        Some(value) => Answer::Number(u64::from(value)),
        None => Answer::Nothing,
    }
}

fn set(slots: &mut Slots<u32>, id: Id, value: u32) -> Answer {
    match slots.get_mut(id) {
        Some(place) => {
            *place = value;
            Answer::Done
        }
        None => Answer::Nothing,
    }
}
