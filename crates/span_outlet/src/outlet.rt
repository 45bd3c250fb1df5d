ghost use Rattle.std.specs.Prelude.{◌≡◌, ◌++◌, ◌∷◌, [], ◌<◌, ◌-◌, ◌^◌, ℕ, List, Option, Bool, true, false, IfOk, OnOk, IfErr, OnErr, IfSome, length, if◌then◌else◌};
ghost use Rattle.span_layers.specs.declared.form.Form.{Form};
ghost use Rattle.span_outlet.specs.Batch.{PlainBatch, plain_batch};
ghost use Rattle.span_outlet.specs.KnownEvent.{batch_of_known};
ghost use Rattle.span_outlet.specs.KnownRelease.{batch_of_known_release};
ghost use Rattle.span_outlet.specs.KnownSpan.{batch_of_known_span};
ghost use Rattle.span_outlet.specs.Outlet.{RingName, one_more};

use crate::batch::Batch;
use crate::known_event::KnownEvent;
use crate::known_release::KnownRelease;
use crate::known_span::KnownSpan;
use span_layers::Note;
use std::alloc::AllocError;

/// Where the batches of accepted calls go.
pub trait Outlet {
    /// The batches sent so far.
    ghost sent: { Self → List PlainBatch };

    /// Whether the last `room` answered true, and nothing was sent since, by `put`, `put_event`, `put_span` or
    /// `put_release`.
    ghost ready: { Self → Bool };

    /// How often `room` answered false. An outlet stores it as a `u64`, which stays at its greatest value.
    ghost times_full: { Self → ℕ };

    /// The forms in which the outlet writes the layers' notes, in the order of the layers. No call changes them; an
    /// outlet that writes no text has none.
    ghost forms: { Self → List Form };

    /// The ring into which the outlet puts the batches; an outlet that keeps them itself has none. No call changes it.
    ghost name: { Self → Option RingName };

    /// Whether there is a place for one more batch. The error is want of memory.
    fn room(&mut self) -> Result<bool, AllocError>
        ensures sent { sent self.new ≡ sent self.old }
        ensures forms { forms self.new ≡ forms self.old }
        ensures name { name self.new ≡ name self.old }
        ensures ready { IfOk result (λ yes. ready self.new ≡ yes) }
        ensures counted { IfOk result (λ yes. times_full self.new
            ≡ (if yes then times_full self.old else one_more (times_full self.old))) }
        ensures not_ready { OnErr result (ready self.new ≡ false) }
        ensures err { OnErr result (times_full self.new ≡ times_full self.old) };

    /// Sends a batch. It cannot fail: the place for it was made by `room`.
    fn put(&mut self, batch: Batch)
        requires ready { ready self.old ≡ true }
        requires countable { length (sent self.old) < 2 ^ 64 - 1 }
        ensures sent { sent self.new ≡ sent self.old ++ plain_batch batch ∷ [] }
        ensures forms { forms self.new ≡ forms self.old }
        ensures name { name self.new ≡ name self.old }
        ensures ready { ready self.new ≡ false }
        ensures times_full { times_full self.new ≡ times_full self.old };

    /// Sends the batch of an event to an outlet that needs nothing of it but the notes. Any other outlet gives the notes
    /// back, and nothing has changed: then the caller sends the whole batch by `put`.
    fn put_event(&mut self, event: KnownEvent, notes: Vec<Note>) -> Result<(), Vec<Note>>
        requires ready { ready self.old ≡ true }
        requires countable { length (sent self.old) < 2 ^ 64 - 1 }
        ensures sent { OnOk result (sent self.new ≡ sent self.old ++ batch_of_known event notes.items ∷ []) }
        ensures ready { OnOk result (ready self.new ≡ false) }
        ensures forms { forms self.new ≡ forms self.old }
        ensures name { name self.new ≡ name self.old }
        ensures times_full { times_full self.new ≡ times_full self.old }
        ensures same { OnErr result (self.new ≡ self.old) }
        ensures back { IfErr result (λ back. back ≡ notes) }
    {
        let _ = event;
        Err(notes)
    }

    /// Sends the batch of a new span, as `put_event` sends that of an event.
    fn put_span(&mut self, span: KnownSpan, notes: Vec<Note>) -> Result<(), Vec<Note>>
        requires ready { ready self.old ≡ true }
        requires countable { length (sent self.old) < 2 ^ 64 - 1 }
        ensures sent { OnOk result (sent self.new ≡ sent self.old ++ batch_of_known_span span notes.items ∷ []) }
        ensures ready { OnOk result (ready self.new ≡ false) }
        ensures forms { forms self.new ≡ forms self.old }
        ensures name { name self.new ≡ name self.old }
        ensures times_full { times_full self.new ≡ times_full self.old }
        ensures same { OnErr result (self.new ≡ self.old) }
        ensures back { IfErr result (λ back. back ≡ notes) }
    {
        let _ = span;
        Err(notes)
    }

    /// Sends the batch of a handle given back, as `put_event` sends that of an event.
    fn put_release(&mut self, release: KnownRelease, notes: Vec<Note>) -> Result<(), Vec<Note>>
        requires ready { ready self.old ≡ true }
        requires countable { length (sent self.old) < 2 ^ 64 - 1 }
        ensures sent { OnOk result (sent self.new ≡ sent self.old ++ batch_of_known_release release notes.items ∷ []) }
        ensures ready { OnOk result (ready self.new ≡ false) }
        ensures forms { forms self.new ≡ forms self.old }
        ensures name { name self.new ≡ name self.old }
        ensures times_full { times_full self.new ≡ times_full self.old }
        ensures same { OnErr result (self.new ≡ self.old) }
        ensures back { IfErr result (λ back. back ≡ notes) }
    {
        let _ = release;
        Err(notes)
    }

    /// An empty list for the notes of a batch to come, in the memory that an earlier one's notes had, if the outlet has
    /// one to give. It changes nothing that contracts tell of the outlet.
    fn spare_notes(&mut self) -> Option<Vec<Note>>
        ensures empty { IfSome result (λ list. list.items ≡ []) }
        ensures sent { sent self.new ≡ sent self.old }
        ensures ready { ready self.new ≡ ready self.old }
        ensures forms { forms self.new ≡ forms self.old }
        ensures name { name self.new ≡ name self.old }
        ensures times_full { times_full self.new ≡ times_full self.old }
    {
        None
    }

    /// Whether batches are kept as they are sent, for somebody to take. Then a core tells no path in a batch that it told
    /// in an earlier one, so whoever takes a batch is the only owner of its paths. Fields and metas are shared all the
    /// same: a span's notes have its fields, whatever batches they are in, and batches of one meta may have one copy of
    /// it. It is a hint: no contract rests on it.
    fn keeps_batches(&self) -> bool {
        true
    }
}
