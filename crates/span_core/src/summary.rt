//! Which layers see nothing in the lower parts of a worker's stack, so that a look through a deep one skips them.
ghost use Rattle.std.specs.Prelude.{◌≡◌, ◌+◌, ◌^◌, ◌<◌, ◌≤◌, ℕ, List, [], length, take, slice_index_or, slice_set};
ghost use Rattle.span_forest.specs.Spans.{Spans};
ghost use Rattle.span_id.specs.declared.bits.Bits.{Bits};
ghost use Rattle.span_stack.specs.Stack.{without_last, ids_of_each};
ghost use Rattle.span_core.specs.Happening.{bits_in};
ghost use Rattle.span_core.specs.inside.Summary.{AdmitNone, Summarises, IsSummary};

use span_forest::Forest;
use span_id::{Bits, Id};
use span_stack::SpanStack;
use std::alloc::Global;
use std::mem;

// How many entries a block has.
pub(crate) const BLOCK: usize = 64;

// A block is summarised where this many entries from its first one on stand there, so that calls that enter and leave
// the topmost spans don't summarise the same block again and again.
const ENOUGH: usize = 128;

/// How many entries on top of a deep stack a look goes through first.
pub(crate) const NEAR: usize = 128;

// How many blocks a call summarises at most.
const AT_ONCE: u64 = 4;

/// For each of the lowest blocks of one worker's stack, layers that admit none of its entries, duplicates apart. It only
/// spares looks: what it leaves out is looked at. The worker is the one with a deep stack that told an event last.
#[derive(Drop)]
pub(crate) struct Summary {
    pub(crate) worker: u32,
    pub(crate) blocks: Vec<Bits>,
}

impl Summary {
    /// No block yet. It takes no memory.
    pub(crate) fn none(alloc: Global) -> Summary
        ensures { (spans : Spans) (stacks : List (List ℕ)) → IsSummary spans stacks result }
    {
        Summary {
            worker: 0,
            blocks: Vec::new(alloc),
        }
    }

    /// The blocks of a worker's stack: none where they are another worker's.
    pub(crate) fn of(&self, worker: u32) -> &[Bits]
        ensures { (spans : Spans) (stacks : List (List ℕ)) → IsSummary spans stacks self.now →
            Summarises spans (slice_index_or stacks worker []) result.now }
    {
        let blocks = self.blocks.as_slice();
        if self.worker == worker {
            blocks
        } else {
            &blocks[..0]
        }
    }

    /// Summarises a few more blocks of a worker's stack, where it is deep: of no more entries than earlier events looked
    /// at in vain, and skipping duplicates as they did, so that whatever calls are made, this takes no more time than
    /// their looks took. What they looked at is used up by the next event in a deep stack. Where the blocks are another
    /// worker's they are forgotten, and none is summarised in that call: so workers with deep stacks that tell events by
    /// turns summarise none. Where memory is refused it is fewer blocks, which is no error.
    pub(crate) fn extend(
        &mut self,
        forest: &Forest,
        stacks: &[SpanStack],
        worker: u32,
        in_vain: &mut u64,
    )
        requires within { worker < length stacks.now }
        requires summary { IsSummary forest.now.spans (ids_of_each stacks.now) self.old }
        ensures { IsSummary forest.now.spans (ids_of_each stacks.now) self.new }
    {
        let stack = &stacks[worker as usize];
        if stack.len() < ENOUGH {
            return;
        }
        let looked_at = mem::take(in_vain);
        if self.worker != worker {
            self.worker = worker;
            self.blocks.clear();
            return;
        }
        for _ in 0..AT_ONCE.min(looked_at / BLOCK as u64) {
            add_block(&mut self.blocks, forest, stack);
        }
    }

    /// Cuts what isn't true any longer once a worker's topmost entry of a span is taken out: where that one stands on
    /// top, the blocks that reach up to it, else all.
    pub(crate) fn cut(&mut self, stacks: &[SpanStack], worker: u32, id: Id)
        requires { worker < length stacks.now }
        ensures before { (spans : Spans) → IsSummary spans (ids_of_each stacks.now) self.old →
            IsSummary spans (ids_of_each stacks.now) self.new }
        ensures after { (spans : Spans) → IsSummary spans (ids_of_each stacks.now) self.old →
            IsSummary spans (slice_set (ids_of_each stacks.now) worker
            (without_last (slice_index_or (ids_of_each stacks.now) worker []) id)) self.new }
    {
        if self.worker == worker {
            let whole = blocks_below(&stacks[worker as usize], id);
            self.blocks.truncate(whole);
        }
    }
}

// How many blocks stay as they are where the topmost entry of a span is taken out of a stack.
fn blocks_below(stack: &SpanStack, id: Id) -> usize
    ensures { (spans : Spans) (blocks : List Bits) → Summarises spans stack.now.ids blocks →
        Summarises spans (without_last stack.now.ids id) (take result blocks) }
{
    match stack.top() {
        Some(top) if top == id => stack.len().saturating_sub(1) / BLOCK,
        _ => 0,
    }
}

// Summarises the next block of a stack, if enough entries stand there.
fn add_block(blocks: &mut Vec<Bits>, forest: &Forest, stack: &SpanStack)
    requires { Summarises forest.now.spans stack.now.ids blocks.old.items }
    ensures { Summarises forest.now.spans stack.now.ids blocks.new.items }
{
    let entries = stack.len();
    let from = blocks.len() * BLOCK;
    if entries - from < ENOUGH || blocks.reserve(1).is_err() {
        return;
    }
    blocks.push_reserved(none_admit(forest, stack, from));
}

// Layers that admit none of the entries of the block that begins at this place, duplicates apart.
fn none_admit(forest: &Forest, stack: &SpanStack, from: usize) -> Bits
    requires fits { from + BLOCK < 2 ^ 64 }
    requires within { from + BLOCK ≤ length stack.now.ids }
    ensures { AdmitNone forest.now.spans stack.now.ids from (from + BLOCK) result.0 }
{
    let mut none = Bits::all();
    for id in stack.walk_between(from, from + BLOCK) {
        none = none.without(bits_of(forest, id));
    }
    none
}

// The layers that admit a span that is open, and none where it isn't.
fn bits_of(forest: &Forest, id: Id) -> Bits
    ensures { result.0 ≡ bits_in forest.now.spans id }
{
    match forest.find(id) {
        Some(span) => span.bits,
        None => Bits(0),
    }
}
