//! The calls that change a worker's stack.
ghost use Rattle.std.specs.Prelude.{◌≡◌, ◌<◌, ◌↔◌, true, if◌then◌else◌, nat_lt, length, None, IsTrue, IfOk, IfErr, OnOk, OnErr};
ghost use Rattle.span_forest.specs.declared.span.Holder.TheVariants.{Handle, Entry};
ghost use Rattle.span_forest.specs.Spans.{find};
ghost use Rattle.span_forest.specs.Count.{reference_count};
ghost use Rattle.span_forest.specs.Holders.{IsHeld};
ghost use Rattle.span_forest.specs.Keep.{with_holder};
ghost use Rattle.span_outlet.specs.Request.{enter, entered, exit, exited};
ghost use Rattle.span_core.specs.Step.{closed_by_exit, stays_inside};
ghost use Rattle.span_core.specs.Core.{IsDue, IsAccepted, IsRefused};
ghost use Rattle.span_core.specs.GivenBack.{ClosesWhatNothingHolds};
ghost use Rattle.span_core.specs.Shown.{MayBeShown, IsShown};

use crate::Core;
use crate::calls::closes::{Closes, closes_on_exit, leave};
use crate::calls::held::{held_span, open_span};
use crate::calls::room::ask;
use crate::laws::{accepted_releases_close_what_nothing_holds, the_named_span_closes_first};
use crate::notes::{FoundSpan, span_notes};
use crate::stacks::{is_outside, pop_at, push_at, stays_inside};
use span_forest::{Forest, Holder};
use span_id::{Fault, Fields, Id};
use span_layers::Kind;
use span_outlet::{Batch, Call, Outlet, Reply};

impl<O: Outlet, A> Core<O, A> {
    /// A worker, whose number needs to be below `workers`, enters a span that has a handle. It answers whether the
    /// entry is no duplicate: only then it holds the span.
    ///
    /// Refused in this order: `Unknown` where the span has no handle, `CountFull` where the entry is no duplicate and
    /// the span's count is at its greatest or the number of accepted calls is, `Backlog`, `Memory`.
    pub fn enter(&mut self, worker: u32, id: Id) -> Result<bool, Fault>
        requires { worker < self.old.limits.workers }
        ensures accepted { IfOk result (λ first. IsAccepted self.old (enter worker id) (entered first) self.new) }
        ensures refused { IfErr result (λ fault. IsRefused self.old (enter worker id) fault self.new) }
    {
        let Some(span) = held_span(&self.forest, id) else {
            return Err(Fault::Unknown);
        };
        let first = is_outside(self.stacks.as_slice(), worker, id, span.entries);
        let full = first && span.count >= self.limits.limits().max_count;
        if full || self.calls == u64::MAX {
            return Err(Fault::CountFull);
        }
        ask(&mut self.outlet, &mut self.recent.spare)?;
        let found = FoundSpan { worker, id, span };
        let notes = span_notes(
            &mut self.recent,
            &self.rules,
            &self.forest,
            &found,
            Kind::OnEnter,
            &Fields::none(),
        )?;
        push_at(&mut self.stacks, worker, id, first)?;
        keep_first(&mut self.forest, first, id);
        self.calls += 1;
        self.outlet.put(Batch {
            call: Call::Enter { worker, id },
            reply: Reply::Entered(first),
            notes,
        });
        Ok(first)
    }

    /// A worker, whose number needs to be below `workers`, leaves a span: the topmost entry of it is taken out of the
    /// worker's stack. Where the span stands there no longer, the entry is given back. It answers whether the span
    /// closed.
    ///
    /// Refused in this order: `Unknown` where the span isn't open, `CountFull` where the number of accepted calls is at
    /// its greatest, `NotEntered` where the span doesn't stand in the worker's stack, `Backlog`, `Memory`.
    pub fn exit(&mut self, worker: u32, id: Id) -> Result<bool, Fault>
        requires { worker < self.old.limits.workers }
        ensures accepted { OnOk result (IsAccepted self.old (exit worker id)
            (exited (closed_by_exit self.old.world worker id)) self.new) }
        ensures closed { IfOk result (λ closed. closed ≡ nat_lt 0 (length (closed_by_exit self.old.world worker id))) }
        ensures gone { IfOk result (λ closed. IsTrue closed ↔ (find self.new.world.spans id ≡ None)) }
        ensures released { OnOk result (ClosesWhatNothingHolds self.old (exit worker id) self.new) }
        ensures refused { IfErr result (λ fault. IsRefused self.old (exit worker id) fault self.new) }
    {
        the_named_span_closes_first(self);
        accepted_releases_close_what_nothing_holds(self);
        self.exit_with(worker, id, &mut (), |_, _| ())
    }

    /// A worker leaves a span, as `exit` does and with the same refusals; which spans close is shown.
    ///
    /// Where nothing stands against the call any longer, `see` is called with `state` and the ids of the spans that
    /// close, child first, of which there may be none; then their list goes to the outlet. A refused call shows `see`
    /// nothing. What `see` changes is `state`: contracts tell what becomes of it.
    pub fn exit_with<S, F: FnOnce(&mut S, &[Id])>(
        &mut self,
        worker: u32,
        id: Id,
        state: &mut S,
        see: F,
    ) -> Result<bool, Fault>
        requires worker { worker < self.old.limits.workers }
        requires may { IsDue self.old (exit worker id) →
            MayBeShown F.FnOnce see state.old (closed_by_exit self.old.world worker id) }
        ensures accepted { OnOk result (IsAccepted self.old (exit worker id)
            (exited (closed_by_exit self.old.world worker id)) self.new) }
        ensures closed { IfOk result (λ closed. closed ≡ nat_lt 0 (length (closed_by_exit self.old.world worker id))) }
        ensures shown { OnOk result
            (IsShown F.FnOnce see state.old (closed_by_exit self.old.world worker id) state.new) }
        ensures refused { IfErr result (λ fault. IsRefused self.old (exit worker id) fault self.new) }
        ensures not_shown { OnErr result (state.new ≡ state.old) }
    {
        let Some(span) = open_span(&self.forest, id) else {
            return Err(Fault::Unknown);
        };
        if self.calls == u64::MAX {
            return Err(Fault::CountFull);
        }
        let Some(stays) = stays_inside(self.stacks.as_slice(), worker, id) else {
            return Err(Fault::NotEntered);
        };
        ask(&mut self.outlet, &mut self.recent.spare)?;
        self.summary.cut(self.stacks.as_slice(), worker, id);
        let exit = FoundSpan { worker, id, span };
        let closes = closes_on_exit(&mut self.recent, &self.rules, &self.forest, &exit, stays)?;
        let Closes { ids, notes } = closes;
        leave(
            &mut self.recent,
            &mut self.forest,
            stays,
            id,
            ids.as_slice(),
        );
        pop_at(&mut self.stacks, worker, id);
        see(state, ids.as_slice());
        let closed = !ids.is_empty();
        self.calls += 1;
        self.outlet.put(Batch {
            call: Call::Exit { worker, id },
            reply: Reply::Exited(ids),
            notes,
        });
        Ok(closed)
    }
}

// Writes the entry down, where it is the worker's first of the span.
fn keep_first(forest: &mut Forest, first: bool, id: Id)
    requires held { IsHeld forest.old.spans id Handle }
    requires count { first ≡ true → reference_count forest.old.spans id < forest.old.max_count }
    ensures { forest.new ≡ record forest.old {
      spans = if first then with_holder forest.old.spans id Entry
          else forest.old.spans;
    } }
{
    if first {
        forest.add_holder(id, Holder::Entry);
    }
}
