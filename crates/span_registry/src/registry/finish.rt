//! The end of a registry.
ghost use Rattle.std.specs.Prelude.{◌≡◌, ◌+◌, ◌↔◌, Some};
ghost use Rattle.span_registry.specs.Share.{IsWhole};
ghost use Rattle.span_registry.specs.Report.{IsEnd, IsDrainedEnd, IsReadingEnd};

use crate::registry::Registry;
use crate::report::{Counts, Report};
use crate::setup::Setup;
use crate::share::Share;
use crate::under_lock;
use span_layers::Say;
use span_outlet::{Drain, Kept, LineReader, Ring};
use std::sync::ledger::Ledger;

impl<H: Ledger, C: Ledger, S: Setup, V: Say + Drop, A: Drop> Registry<H, C, S, Kept<V>, A> {
    /// Ends the registry with the whole share: what all workers left and all handles that were given up, joined.
    ///
    /// The report counts what was open, held, accepted, made and closed, and has the lines that the outlet kept: all
    /// of one legal history under this registry's limits and rules, of which each worker of the share had seen a
    /// beginning. No span was open exactly where no handle was given up and no stack has an entry.
    pub fn finish_kept(self, share: Share<H, C, S>) -> Report
        requires { IsWhole H.parts C.parts share }
        ensures units { result.handles ≡ share.units }
        ensures accepted { result.calls ≡ share.accepted }
        ensures empty { (result.left ≡ 0) ↔ ((result.handles ≡ 0) × (result.entries ≡ 0)) }
        ensures balance { result.made ≡ result.closed + result.left }
        ensures ended { IsEnd S.limits S.rules S.forms share result }
    {
        under_lock::finish_kept(self.locked.into_inner(), share)
    }
}

impl<H: Ledger, C: Ledger, S: Setup, A: Drop> Registry<H, C, S, Ring, A> {
    /// Ends the registry with the whole share and the drain of its ring, as `finish_kept` does.
    ///
    /// The drain first takes what still stands in the ring. The lines are the drain's, of everything that was sent;
    /// those that it had stand first. It cannot fail: a note whose line memory is refused is counted as missed.
    pub fn finish<V: Say + Drop>(self, share: Share<H, C, S>, drain: Drain<V>) -> Report
        requires whole { IsWhole H.parts C.parts share }
        requires pair { Some drain.name ≡ S.ring }
        ensures units { result.handles ≡ share.units }
        ensures accepted { result.calls ≡ share.accepted }
        ensures empty { (result.left ≡ 0) ↔ ((result.handles ≡ 0) × (result.entries ≡ 0)) }
        ensures balance { result.made ≡ result.closed + result.left }
        ensures ended { IsDrainedEnd S.limits S.rules drain share result }
    {
        under_lock::finish(self.locked.into_inner(), share, drain)
    }

    /// Ends the registry with the whole share, beside the line reader of its ring, and answers what `finish_kept` counts,
    /// without lines, and the ring. So a run may be as long as it likes: nothing keeps its lines.
    ///
    /// Nothing is taken from the reader. All that was sent and that it has not taken is still in the ring: with both in
    /// one thread `LineReader::fill_beside` takes it, and `next` gives its lines out; false means that all lines of the
    /// whole history were given out.
    pub fn finish_reading<V>(
        self,
        share: Share<H, C, S>,
        reader: &mut LineReader<V>,
    ) -> (Counts, Ring)
        requires whole { IsWhole H.parts C.parts share }
        requires pair { Some reader.old.name ≡ S.ring }
        ensures units { result.0.handles ≡ share.units }
        ensures accepted { result.0.calls ≡ share.accepted }
        ensures empty { (result.0.left ≡ 0) ↔ ((result.0.handles ≡ 0) × (result.0.entries ≡ 0)) }
        ensures balance { result.0.made ≡ result.0.closed + result.0.left }
        ensures ended { IsReadingEnd S.limits S.rules reader.old share result.0 result.1 }
        ensures same { reader.new ≡ reader.old }
    {
        under_lock::finish_reading(self.locked.into_inner(), share, reader)
    }
}
