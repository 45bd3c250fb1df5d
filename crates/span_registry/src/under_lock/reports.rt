//! The end of a registry.
ghost use Rattle.std.specs.Prelude.{◌≡◌, ◌+◌, ◌↔◌, [], List, Some, map, length, All};
ghost use mathlib.Core.List.{IsPrefix};
ghost use Rattle.span_outlet.specs.Lines.{lines_of, plain_line};
ghost use Rattle.span_outlet.specs.Kept.{AreTold, HasNoLine, NumberedNote, numbered};
ghost use Rattle.span_outlet.specs.LineReader.{AreLeft};
ghost use Rattle.span_forest.specs.Count.{total_handles};
ghost use Rattle.span_core.specs.World.{entries_in};
ghost use Rattle.span_core.specs.History.{IsLegal};
ghost use Rattle.span_history.specs.Own.{IsFront};
ghost use Rattle.span_registry.specs.Share.{IsWhole};
ghost use Rattle.span_registry.specs.Report.{AreCounts, IsWithin, HasEnded, IsReportOf};

use crate::locked::Locked;
use crate::report::{Counts, Report};
use crate::setup::Setup;
use crate::share::Share;
use span_core::Core;
use span_core::laws::{
    counts_and_calls_have_bounds, each_slot_has_one_open_span, empty_where_nothing_is_held,
    entries_are_counted_once, made_spans_are_open_or_closed,
};
use span_layers::Say;
use span_outlet::{Drain, Kept, Line, LineReader, Outlet, Ring};
use std::sync::ledger;
use std::sync::ledger::{Book, Ledger};

/// Ends a registry whose outlet keeps what was sent to it, with the whole share: the report counts what was open, held,
/// accepted, made and closed, and has the lines that the outlet kept, which are moved. No span was open exactly where no
/// handle was given up and no stack has an entry.
pub fn finish_kept<H: Ledger, C: Ledger, S: Setup, V: Say + Drop, A: Drop>(
    locked: Locked<H, C, S, Kept<V>, A>,
    share: Share<H, C, S>,
) -> Report
    requires { IsWhole H.parts C.parts share }
    ensures setup { (locked.limits ≡ S.limits) × (locked.rules ≡ S.rules) × (locked.name ≡ S.ring) }
    ensures legal { IsLegal S.rules S.limits.workers locked.sent locked.world }
    ensures within { IsWithin S.limits locked }
    ensures fronts { length share.seen ≡ S.limits.workers }
    ensures seen { All (λ front. IsFront front locked.sent) share.seen }
    ensures report { IsReportOf locked S.forms result }
    ensures units { result.handles ≡ share.units }
    ensures accepted { result.calls ≡ share.accepted }
    ensures emptied { share.units ≡ 0 → entries_in locked.world.stacks ≡ 0 → locked.world.spans ≡ [] }
    ensures empty { (result.left ≡ 0) ↔ ((result.handles ≡ 0) × (result.entries ≡ 0)) }
    ensures balance { result.made ≡ result.closed + result.left }
    ensures apart { (missed : List NumberedNote)
        → AreTold S.forms (numbered locked.sent) (map plain_line result.lines.items) missed
        → All (HasNoLine (map plain_line result.lines.items)) missed }
    ensures whole { result.missed ≡ 0 → map plain_line result.lines.items ≡ lines_of S.forms locked.sent }
{
    let (counts, kept) = end(locked, share);
    let missed = kept.missed();
    counts.report(kept.into_lines(), missed)
}

/// Ends a registry whose outlet is a ring, with the whole share and the ring's drain, which first takes what still
/// stands in the ring: what it had taken and this is everything that was sent, in order. The report counts as that of
/// `finish_kept` does, and has the drain's lines, which are moved; those that it had stand first.
pub fn finish<H: Ledger, C: Ledger, S: Setup, V: Say + Drop, A: Drop>(
    locked: Locked<H, C, S, Ring, A>,
    share: Share<H, C, S>,
    drain: Drain<V>,
) -> Report
    requires whole { IsWhole H.parts C.parts share }
    requires pair { Some drain.name ≡ S.ring }
    ensures setup { (locked.limits ≡ S.limits) × (locked.rules ≡ S.rules) × (locked.name ≡ S.ring) }
    ensures legal { IsLegal S.rules S.limits.workers locked.sent locked.world }
    ensures within { IsWithin S.limits locked }
    ensures fronts { length share.seen ≡ S.limits.workers }
    ensures seen { All (λ front. IsFront front locked.sent) share.seen }
    ensures report { IsReportOf locked drain.forms result }
    ensures taken { IsPrefix drain.taken locked.sent }
    ensures first { IsPrefix drain.lines (map plain_line result.lines.items) }
    ensures units { result.handles ≡ share.units }
    ensures accepted { result.calls ≡ share.accepted }
    ensures emptied { share.units ≡ 0 → entries_in locked.world.stacks ≡ 0 → locked.world.spans ≡ [] }
    ensures empty { (result.left ≡ 0) ↔ ((result.handles ≡ 0) × (result.entries ≡ 0)) }
    ensures balance { result.made ≡ result.closed + result.left }
    ensures apart { (missed : List NumberedNote)
        → AreTold drain.forms (numbered locked.sent) (map plain_line result.lines.items) missed
        → All (HasNoLine (map plain_line result.lines.items)) missed }
    ensures whole_lines { result.missed ≡ 0 → map plain_line result.lines.items ≡ lines_of drain.forms locked.sent }
{
    let mut drain = drain;
    let (counts, mut ring) = end(locked, share);
    drain.last(&mut ring);
    let missed = drain.missed();
    counts.report(drain.into_lines(), missed)
}

/// Ends a registry whose outlet is a ring, with the whole share, beside the ring's line reader, from which nothing is
/// taken. It counts as `finish_kept` does, and has no lines. The ring is handed back: what the reader has taken is the
/// beginning of everything that was sent, and the rest is left in the ring, from which `LineReader::fill_beside` takes
/// it.
pub fn finish_reading<H: Ledger, C: Ledger, S: Setup, V, A: Drop>(
    locked: Locked<H, C, S, Ring, A>,
    share: Share<H, C, S>,
    reader: &mut LineReader<V>,
) -> (Counts, Ring)
    requires whole { IsWhole H.parts C.parts share }
    requires pair { Some reader.old.name ≡ S.ring }
    ensures setup { (locked.limits ≡ S.limits) × (locked.rules ≡ S.rules) × (locked.name ≡ S.ring) }
    ensures legal { IsLegal S.rules S.limits.workers locked.sent locked.world }
    ensures within { IsWithin S.limits locked }
    ensures fronts { length share.seen ≡ S.limits.workers }
    ensures seen { All (λ front. IsFront front locked.sent) share.seen }
    ensures counted { AreCounts locked result.0 }
    ensures sent { result.1.sent ≡ locked.sent }
    ensures times_full { result.1.times_full ≡ locked.times_full }
    ensures ring { result.1.name ≡ reader.old.name }
    ensures taken { IsPrefix reader.old.taken locked.sent }
    ensures lines { AreLeft reader.old }
    ensures same { reader.new ≡ reader.old }
    ensures units { result.0.handles ≡ share.units }
    ensures accepted { result.0.calls ≡ share.accepted }
    ensures emptied { share.units ≡ 0 → entries_in locked.world.stacks ≡ 0 → locked.world.spans ≡ [] }
    ensures empty { (result.0.left ≡ 0) ↔ ((result.0.handles ≡ 0) × (result.0.entries ≡ 0)) }
    ensures balance { result.0.made ≡ result.0.closed + result.0.left }
{
    let (counts, mut ring) = end(locked, share);
    let _left = reader.peek();
    reader.behind(&mut ring);
    (counts, ring)
}

impl Counts {
    // What this core has, whose spans have so many handles and which accepted so many calls.
    fn of<O: Outlet, A>(core: &Core<O, A>, handles: u64, calls: u64) -> Counts
        requires handles { handles ≡ total_handles core.now.world.spans }
        requires calls { calls ≡ length core.now.sent }
        ensures handles { result.handles ≡ handles }
        ensures calls { result.calls ≡ calls }
        ensures counted { AreCounts core.now result }
        ensures emptied { handles ≡ 0 → entries_in core.now.world.stacks ≡ 0 → core.now.world.spans ≡ [] }
        ensures empty { (result.left ≡ 0) ↔ ((result.handles ≡ 0) × (result.entries ≡ 0)) }
        ensures balance { result.made ≡ result.closed + result.left }
    {
        empty_where_nothing_is_held(core);
        entries_are_counted_once(core);
        made_spans_are_open_or_closed(core);
        Counts {
            left: core.len(),
            handles,
            entries: core.entries(),
            calls,
            made: core.made(),
            closed: core.closed(),
        }
    }

    // The report with these lines.
    fn report(self, lines: Vec<Line>, missed: u64) -> Report
        ensures { result ≡ record {
          left = self.left;
          handles = self.handles;
          entries = self.entries;
          calls = self.calls;
          made = self.made;
          closed = self.closed;
          lines = lines;
          missed = missed;
        } }
    {
        Report {
            left: self.left,
            handles: self.handles,
            entries: self.entries,
            calls: self.calls,
            made: self.made,
            closed: self.closed,
            lines,
            missed,
        }
    }
}

// With the whole share: what the core of a registry had at its end, and its outlet.
fn end<H: Ledger, C: Ledger, S: Setup, O: Outlet, A: Drop>(
    locked: Locked<H, C, S, O, A>,
    share: Share<H, C, S>,
) -> (Counts, O)
    requires { IsWhole H.parts C.parts share }
    ensures ended { HasEnded S.limits S.rules share locked }
    ensures counted { AreCounts locked result.0 }
    ensures units { result.0.handles ≡ share.units }
    ensures accepted { result.0.calls ≡ share.accepted }
    ensures empty { (result.0.left ≡ 0) ↔ ((result.0.handles ≡ 0) × (result.0.entries ≡ 0)) }
    ensures balance { result.0.made ≡ result.0.closed + result.0.left }
    ensures sent { O.sent result.1 ≡ locked.sent }
    ensures times_full { O.times_full result.1 ≡ locked.times_full }
    ensures forms { O.forms result.1 ≡ S.forms }
    ensures name { (O.name result.1 ≡ S.ring) × (locked.name ≡ S.ring) }
{
    let Locked {
        core,
        root: _,
        keeper,
        handles,
        calls,
        setup: _,
    } = locked;
    let Share {
        units,
        accepted,
        handles: handle_parts,
        calls: call_parts,
        seen,
    } = share;
    audit(handles, handle_parts);
    audit(calls, call_parts);
    let mut keeper = keeper;
    keeper.show_all(seen);
    counts_and_calls_have_bounds(&core);
    each_slot_has_one_open_span(&core);
    let counts = Counts::of(&core, units, accepted);
    (counts, core.into_outlet())
}

// With all parts of a ledger: the amount of the share is the total of the book.
fn audit<L: Ledger>(book: Book<L>, share: ledger::Share<L>)
    requires { share.parts ≡ L.parts }
    ensures { share.amount ≡ book.total }
{
    let mut book = book;
    let mut share = share;
    book.audit(&mut share);
}
