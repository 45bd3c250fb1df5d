ghost use Rattle.std.specs.Prelude.{◌≡◌, ◌<◌, ◌≤◌, ◌++◌, ◌∷◌, [], false, not, length, replicate, slice_index_or, slice_set, is_some, IfSome, IfOk, IfErr, OnOk, OnErr};
ghost use Rattle.span_id.specs.Ids.{has};
ghost use Rattle.span_stack.specs.Stack.{without_last, ids_of_each};
ghost use Rattle.span_core.specs.World.{workers_with};

use span_id::{Fault, Id};
use span_stack::SpanStack;
use std::alloc::Global;

// An empty stack for each worker.
pub(crate) fn empty_stacks(alloc: Global, workers: u32) -> Result<Vec<SpanStack>, Fault>
    ensures stacks { IfOk result (λ stacks. ids_of_each stacks.items ≡ replicate workers []) }
    ensures memory { IfErr result (λ fault. fault ≡ Fault.Memory) }
{
    let mut stacks = Vec::with_capacity(alloc, workers as usize)?;
    for _ in 0..workers {
        stacks.push_reserved(SpanStack::new(alloc));
    }
    Ok(stacks)
}

// Puts a span on top of a worker's stack, where it is known whether it stands there. Where memory is refused no stack
// changes.
pub(crate) fn push_at(
    stacks: &mut Vec<SpanStack>,
    worker: u32,
    id: Id,
    first: bool,
) -> Result<(), Fault>
    requires within { worker < length stacks.old.items }
    requires first { first ≡ not (has (slice_index_or (ids_of_each stacks.old.items) worker []) id) }
    ensures pushed { OnOk result (ids_of_each stacks.new.items
        ≡ slice_set (ids_of_each stacks.old.items) worker
        (slice_index_or (ids_of_each stacks.old.items) worker [] ++ id ∷ [])) }
    ensures unchanged { OnErr result (ids_of_each stacks.new.items ≡ ids_of_each stacks.old.items) }
    ensures memory { IfErr result (λ fault. fault ≡ Fault.Memory) }
{
    let stack = &mut stacks[worker as usize];
    push_one(stack, id, first)
}

fn push_one(stack: &mut SpanStack, id: Id, first: bool) -> Result<(), Fault>
    requires { first ≡ not (has stack.old.ids id) }
    ensures pushed { OnOk result (stack.new.ids ≡ stack.old.ids ++ id ∷ []) }
    ensures unchanged { OnErr result (stack.new.ids ≡ stack.old.ids) }
    ensures memory { IfErr result (λ fault. fault ≡ Fault.Memory) }
{
    stack.reserve(1)?;
    if first {
        stack.push_new(id);
    } else {
        stack.push_again(id);
    }
    Ok(())
}

// Whether a span that has so many entries doesn't stand in a worker's stack. Where it has none it stands in no stack,
// and none is looked at.
pub(crate) fn is_outside(stacks: &[SpanStack], worker: u32, id: Id, entries: u32) -> bool
    requires within { worker < length stacks.now }
    requires none { entries ≡ 0 → has (slice_index_or (ids_of_each stacks.now) worker []) id ≡ false }
    ensures { result ≡ not (has (slice_index_or (ids_of_each stacks.now) worker []) id) }
{
    entries == 0 || !stacks[worker as usize].has(id)
}

// Whether a span still stands in a worker's stack once its topmost place there is taken out, or none where it doesn't
// stand there.
pub(crate) fn stays_inside(stacks: &[SpanStack], worker: u32, id: Id) -> Option<bool>
    requires { worker < length stacks.now }
    ensures inside { is_some result ≡ has (slice_index_or (ids_of_each stacks.now) worker []) id }
    ensures stays { IfSome result (λ stays. stays
        ≡ has (without_last (slice_index_or (ids_of_each stacks.now) worker []) id) id) }
{
    let first = stacks[worker as usize].would_pop(id)?;
    Some(!first)
}

// Takes the topmost place of a span out of a worker's stack.
#[inline(always)]
pub(crate) fn pop_at(stacks: &mut Vec<SpanStack>, worker: u32, id: Id)
    requires { worker < length stacks.old.items }
    ensures { ids_of_each stacks.new.items
        ≡ slice_set (ids_of_each stacks.old.items) worker
        (without_last (slice_index_or (ids_of_each stacks.old.items) worker []) id) }
{
    let stack = &mut stacks[worker as usize];
    pop_one(stack, id);
}

fn pop_one(stack: &mut SpanStack, id: Id)
    ensures { stack.new.ids ≡ without_last stack.old.ids id }
{
    stack.pop(id);
}

// The workers in whose stack a span stands, by their numbers.
pub(crate) fn workers_with(stacks: &[SpanStack], alloc: Global, id: Id) -> Result<Vec<u32>, Fault>
    requires few { length stacks.now ≤ 4294967295 }
    ensures workers { IfOk result (λ workers. workers.items ≡ workers_with (ids_of_each stacks.now) id) }
    ensures memory { IfErr result (λ fault. fault ≡ Fault.Memory) }
{
    let mut workers = Vec::new(alloc);
    for worker in 0..stacks.len() as u32 {
        if stacks[worker as usize].has(id) {
            workers.push(worker)?;
        }
    }
    Ok(workers)
}
