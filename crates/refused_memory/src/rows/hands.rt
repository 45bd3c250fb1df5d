//! The handles that a caller has.
ghost use Rattle.std.specs.Prelude.{◌≡◌, ◌+◌, ◌<◌, ◌↔◌, IfSome, IfNone, OnSome, IsTrue};
ghost use Rattle.refused_memory.specs.Units.{units_in};

use span_id::Id;
use span_registry::{DroppableHandle, Setup};
use std::sync::ledger::Ledger;

/// At most two handles.
#[derive(Drop)]
pub(crate) struct Hands<H: Ledger, C: Ledger, S: Setup> {
    pub(crate) first: Option<DroppableHandle<H, C, S>>,
    pub(crate) second: Option<DroppableHandle<H, C, S>>,
}

impl<H: Ledger, C: Ledger, S: Setup> Hands<H, C, S> {
    /// Whether there is place for one more.
    #[tactic(auto, unfolding(crate::specs::Units::units_in))]
    pub(crate) fn has_place(&self) -> bool
        ensures { IsTrue result ↔ (units_in self.now.first + units_in self.now.second < 2) }
    {
        self.first.is_none() || self.second.is_none()
    }

    /// Takes out a handle of this id.
    #[tactic(auto, unfolding(crate::specs::Units::units_in))]
    pub(crate) fn take(&mut self, id: Id) -> Option<DroppableHandle<H, C, S>>
        ensures taken { OnSome result (units_in self.new.first + units_in self.new.second + 1
            ≡ units_in self.old.first + units_in self.old.second) }
        ensures room { OnSome result (units_in self.new.first + units_in self.new.second < 2) }
        ensures none { IfNone result (self.new ≡ self.old) }
    {
        if id_of(&self.first) == id.get() {
            return self.first.take();
        }
        if id_of(&self.second) == id.get() {
            return self.second.take();
        }
        None
    }

    /// Puts a handle where there is place.
    #[tactic(auto, unfolding(crate::specs::Units::units_in))]
    pub(crate) fn put(&mut self, held: DroppableHandle<H, C, S>)
        requires { units_in self.old.first + units_in self.old.second < 2 }
        ensures { units_in self.new.first + units_in self.new.second
            ≡ units_in self.old.first + units_in self.old.second + 1 }
    {
        if self.first.is_none() {
            self.first = Some(held);
        } else {
            self.second = Some(held);
        }
    }

    /// The ids of both, the lesser first, and 0 where there is none.
    pub(crate) fn ids(&self) -> (u64, u64) {
        let (first, second) = (id_of(&self.first), id_of(&self.second));
        (first.min(second), first.max(second))
    }
}

// The id of a handle, 0 where there is none: no id is 0.
fn id_of<H: Ledger, C: Ledger, S: Setup>(held: &Option<DroppableHandle<H, C, S>>) -> u64 {
    match held {
        Some(held) => held.handle.id().get(),
        None => 0,
    }
}
