//! The registry without a lock: spans, their holders, the workers' stacks, and the notes for the layers.
//!
//! What a core promises over all its calls is said by the functions of [`laws`].
#![tactic(auto)]

ghost use Rattle.std.specs.Prelude.{◌≡◌, ◌<◌, ◌≤◌, [], length, IfOk, IfErr, OnOk, IfSome, IfNone, Some, None};
ghost use Rattle.span_forest.specs.Node.{node_of};
ghost use Rattle.span_forest.specs.Spans.{find, IsOpen, WhyNotFound};
ghost use Rattle.span_forest.specs.declared.span.Holder.TheVariants.{Entry};
ghost use Rattle.span_forest.specs.Holders.{held_in};
ghost use Rattle.span_forest.specs.Holding.{all_ids, held_spans, what_holds};
ghost use Rattle.span_forest.specs.Count.{total_held, total_handles, reference_count};
ghost use Rattle.span_core.specs.World.{empty_world, stack_of, entries_in, workers_with, IsCounted};
ghost use Rattle.span_core.specs.History.{issued, IsLegal};
ghost use Rattle.span_core.specs.ClosedSpans.{closed_in};
ghost use mathlib.Core.List.{IsPrefix};

mod calls;
mod details;
mod given;
mod known_paths;
pub mod laws;
mod notes;
mod recent;
mod stacks;
mod summary;
mod wanted;

use crate::laws::{
    entries_are_counted_once, entries_are_the_workers_inside, made_spans_are_open_or_closed,
};
use crate::recent::Recent;
use crate::stacks::{empty_stacks, workers_with};
use crate::summary::Summary;
pub use details::SpanDetails;
use span_forest::laws::open_spans_are_counted;
use span_forest::{Forest, Held, Span};
use span_id::{Checked, Fault, Id, Limits};
use span_layers::{Admitters, Filters, Rules};
use span_outlet::{Drain, Outlet, Ring};
use span_stack::SpanStack;
use std::alloc::Global;
use std::marker::Model;

/// The registry of spans without a lock.
///
/// Each call that changes something is exactly one step of a legal history, and sends exactly its batch to the
/// outlet; or it is refused, for the first reason that applies, and changes nothing but how often the outlet lacked a
/// place. The number of the worker that calls needs to be below `workers` of the limits.
#[derive(Drop)]
pub struct Core<O: Outlet, A = Admitters> {
    pub(crate) recent: Recent,
    pub(crate) limits: Checked,
    pub(crate) forest: Forest,
    pub(crate) stacks: Vec<SpanStack>,
    pub(crate) summary: Summary,
    pub(crate) rules: Rules,
    // How many calls were accepted, and how many of them made a span.
    pub(crate) calls: u64,
    pub(crate) made: u64,
    pub(crate) outlet: O,
    // Applies the layers' rules.
    pub(crate) admitters: A,
}

impl<O: Outlet, A> Model for Core<O, A> {
    ghost use Rattle.span_stack.specs.Stack.{ids_of_each};
    ghost use Rattle.span_core.specs.Core.{CoreView};

    ghost Value = { CoreView };

    ghost use Rattle.std.specs.Prelude.{◌≡◌, length};
    ghost use Rattle.span_core.specs.History.{issued};
    ghost use Rattle.span_core.specs.inside.Sound.{IsSound};
    ghost use Rattle.span_core.specs.inside.Remembering.{Remembers};
    ghost use Rattle.span_core.specs.inside.Summary.{IsSummary};

    ghost view = { λ s. record {
      limits = s.limits;
      rules = s.rules;
      world = record { spans = s.forest.spans; stacks = ids_of_each s.stacks.items };
      sent = O.sent s.outlet;
      times_full = O.times_full s.outlet;
      forms = O.forms s.outlet;
      name = O.name s.outlet;
    } };

    ghost invariant = { λ s. IsSound s.limits s.forest (ids_of_each s.stacks.items) s.rules s.calls (O.sent s.outlet)
        × (s.made ≡ length (issued (O.sent s.outlet)))
        × Remembers s.forest s.recent.paths
        × IsSummary s.forest.spans (ids_of_each s.stacks.items) s.summary };
}

impl<O: Outlet + Drop, F: Drop> Core<O, Admitters<F>> {
    /// An empty registry: no span is open, and each of the workers has an empty stack. Nothing was sent to the outlet.
    ///
    /// The only error is `Memory`; the filters and the outlet are dropped then.
    pub fn new(
        alloc: Global,
        checked: &Checked,
        filters: Filters<F>,
        outlet: O,
    ) -> Result<Core<O, Admitters<F>>, Fault>
        requires { O.sent outlet ≡ [] }
        ensures empty { IfOk result (λ core. core ≡ record {
          limits = checked.now;
          rules = filters.rules;
          world = empty_world checked.now.workers;
          sent = [];
          times_full = O.times_full outlet;
          forms = O.forms outlet;
          name = O.name outlet;
        }) }
        ensures memory { IfErr result (λ fault. fault ≡ Fault.Memory) }
    {
        let Filters { rules, admitters } = filters;
        Core::with_admitters(alloc, checked, outlet, rules, admitters)
    }
}

impl<O: Outlet + Drop, A: Drop> Core<O, A> {
    /// An empty registry as `new` makes it, in which `admitters` applies the rules, whatever it is.
    ///
    /// The only error is `Memory`; the admitters, the rules and the outlet are dropped then, in this order.
    pub fn with_admitters(
        alloc: Global,
        checked: &Checked,
        outlet: O,
        rules: Rules,
        admitters: A,
    ) -> Result<Core<O, A>, Fault>
        requires { O.sent outlet ≡ [] }
        ensures empty { IfOk result (λ core. core ≡ record {
          limits = checked.now;
          rules = rules;
          world = empty_world checked.now.workers;
          sent = [];
          times_full = O.times_full outlet;
          forms = O.forms outlet;
          name = O.name outlet;
        }) }
        ensures memory { IfErr result (λ fault. fault ≡ Fault.Memory) }
    {
        let stacks = empty_stacks(alloc, checked.limits().workers)?;
        let forest = Forest::new(alloc, checked)?;
        let shares = !outlet.keeps_batches();
        Ok(Core {
            recent: Recent::none(alloc, shares),
            limits: *checked,
            forest,
            stacks,
            summary: Summary::none(alloc),
            rules,
            calls: 0,
            made: 0,
            outlet,
            admitters,
        })
    }
}

impl<O: Outlet, A> Core<O, A> {
    /// The span of an id, if it is open; ids that are closed or were never given find nothing. Its count is its
    /// handles, the workers that are inside it and its open children; it is positive and at most `max_count`, and its
    /// parent is open.
    pub fn find(&self, id: Id) -> Option<&Span>
        ensures absent { IfNone result (find self.now.world.spans id ≡ None) }
        ensures found { IfSome result (λ span. find self.now.world.spans id ≡ Some (node_of span.now)) }
        ensures counted { IfSome result (λ span. IsCounted self.now.world id span.now) }
        ensures bounded { IfSome result (λ span. span.now.count ≤ self.now.limits.max_count) }
        ensures written { IfSome result (λ span. span.now.count ≡ reference_count self.now.world.spans id) }
    {
        open_spans_are_counted(&self.forest);
        self.forest.find(id)
    }

    /// The stack of a worker, whose number is below `workers`.
    pub fn stack(&self, worker: u32) -> &SpanStack
        requires { worker < self.now.limits.workers }
        ensures { result.now.ids ≡ stack_of self.now.world worker }
    {
        &self.stacks[worker as usize]
    }

    /// The ids of the open spans, by ascending slot. The only error is `Memory`.
    pub fn open_spans(&self) -> Result<Vec<Id>, Fault>
        ensures ids { IfOk result (λ ids. ids.items ≡ all_ids self.now.world.spans) }
        ensures memory { IfErr result (λ fault. fault ≡ Fault.Memory) }
    {
        self.forest.open_spans()
    }

    /// What keeps all open spans open: the spans that have handles or entries of their own, with how many, by ascending
    /// slot. The only error is `Memory`.
    pub fn held_spans(&self) -> Result<Vec<Held>, Fault>
        ensures list { IfOk result (λ list. list.items ≡ held_spans self.now.world.spans) }
        ensures memory { IfErr result (λ fault. fault ≡ Fault.Memory) }
    {
        self.forest.held_spans()
    }

    /// What keeps a span open: the spans at it or below it that have handles or entries of their own, with how many,
    /// by ascending slot. `workers_inside` tells whose entries these are.
    ///
    /// Refused in this order: `Unknown` where the span isn't open, `Memory`.
    pub fn holders_of(&self, id: Id) -> Result<Vec<Held>, Fault>
        ensures found { OnOk result (IsOpen self.now.world.spans id) }
        ensures list { IfOk result (λ list. list.items ≡ what_holds self.now.world.spans id) }
        ensures refused { IfErr result (λ fault. WhyNotFound self.now.world.spans id fault) }
    {
        self.forest.holders_of(id)
    }

    /// The workers that are inside a span, by their numbers: as many as the span has entries. The only error is
    /// `Memory`.
    pub fn workers_inside(&self, id: Id) -> Result<Vec<u32>, Fault>
        ensures workers { IfOk result (λ workers. workers.items ≡ workers_with self.now.world.stacks id) }
        ensures count { IfOk result (λ workers. length workers.items ≡ held_in Entry (find self.now.world.spans id)) }
        ensures memory { IfErr result (λ fault. fault ≡ Fault.Memory) }
    {
        entries_are_the_workers_inside(self);
        let _limits = self.limits.limits();
        workers_with(self.stacks.as_slice(), self.recent.alloc, id)
    }

    /// How many spans are open.
    pub fn len(&self) -> u32
        ensures { result ≡ length self.now.world.spans }
    {
        self.forest.len()
    }

    /// How many handles and entries all spans have.
    pub fn total(&self) -> u64
        ensures { result ≡ total_held self.now.world.spans }
    {
        self.forest.total()
    }

    /// How many handles all spans have, without the entries.
    pub fn handles(&self) -> u64
        ensures { result ≡ total_handles self.now.world.spans }
    {
        self.forest.handles()
    }

    /// How many entries all stacks have that are no duplicates.
    pub fn entries(&self) -> u64
        ensures { result ≡ entries_in self.now.world.stacks }
    {
        entries_are_counted_once(self);
        self.total() - self.handles()
    }

    /// How many spans were made so far.
    pub fn made(&self) -> u64
        ensures { result ≡ length (issued self.now.sent) }
    {
        self.made
    }

    /// How many spans have closed so far: those that were made and aren't open.
    pub fn closed(&self) -> u64
        ensures { result ≡ length (closed_in self.now.sent) }
    {
        made_spans_are_open_or_closed(self);
        self.made - u64::from(self.len())
    }

    /// The limits that the core was made with.
    pub fn limits(&self) -> &Limits
        ensures { result.now ≡ self.now.limits }
    {
        self.limits.limits()
    }

    /// How many calls were accepted: the batches sent. They are a legal history, which leaves this world.
    pub fn calls(&self) -> u64
        ensures calls { result ≡ length self.now.sent }
        ensures legal { IsLegal self.now.rules self.now.limits.workers self.now.sent self.now.world }
    {
        self.calls
    }

    /// The outlet.
    pub fn outlet(&self) -> &O
        ensures sent { O.sent result.now ≡ self.now.sent }
        ensures times_full { O.times_full result.now ≡ self.now.times_full }
        ensures forms { O.forms result.now ≡ self.now.forms }
        ensures name { O.name result.now ≡ self.now.name }
    {
        &self.outlet
    }
}

impl<A> Core<Ring, A> {
    /// Shows that what the drain of this core's ring has taken is the beginning of what was sent. Nothing changes.
    pub fn show<V>(&mut self, drain: &mut Drain<V>)
        requires pair { Some drain.old.name ≡ self.old.name }
        ensures taken { IsPrefix drain.old.taken self.old.sent }
        ensures drain { drain.new ≡ drain.old }
        ensures same { self.new ≡ self.old }
    {
        drain.show(&mut self.outlet);
    }
}

impl<O: Outlet, A: Drop> Core<O, A> {
    /// The outlet alone. What was sent to it is a legal history, which left the world that is given up.
    pub fn into_outlet(self) -> O
        ensures sent { O.sent result ≡ self.sent }
        ensures times_full { O.times_full result ≡ self.times_full }
        ensures forms { O.forms result ≡ self.forms }
        ensures name { O.name result ≡ self.name }
        ensures legal { IsLegal self.rules self.limits.workers self.sent self.world }
    {
        let Core {
            recent: _,
            limits: _,
            forest: _,
            stacks: _,
            summary: _,
            rules: _,
            calls: _,
            made: _,
            outlet,
            admitters: _,
        } = self;
        outlet
    }
}
