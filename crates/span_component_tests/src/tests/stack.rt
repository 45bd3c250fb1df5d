//! Entries whose place is known, and deep stacks.
use crate::tests::compare::{holds, same};
use span_id::Id;
use span_stack::SpanStack;
use std::alloc::Global;
use std::process::Abort;

// How often a span stands in the stack: at all, once, and what a pop of it would answer.
type Stands = (bool, bool, Option<bool>);

// It stands there once.
const ONCE: Stands = (true, true, Some(true));

// It stands there again.
const AGAIN: Stands = (true, false, Some(false));

const NOWHERE: Stands = (false, false, None);

// The length, the current span, and the one on top.
type Ends = (usize, Option<Id>, Option<Id>);

fn stands(stack: &SpanStack, id: Id) -> Stands {
    (stack.has(id), stack.stands_once(id), stack.would_pop(id))
}

fn ends(stack: &SpanStack) -> Ends {
    (stack.len(), stack.current(), stack.top())
}

// A stack into which the first span, the second, and the first again were put by what is known of them.
fn pushed_as_known(alloc: Global) -> SpanStack {
    let (one, two) = (Id::pack(0, 0), Id::pack(1, 0));
    let mut stack = SpanStack::new(alloc);
    stack.push_new(one);
    stack.push_new(two);
    stack.push_again(one);
    stack
}

// They are taken out.
fn empties(rt: &impl Abort, stack: &mut SpanStack) {
    let (one, two) = (Id::pack(0, 0), Id::pack(1, 0));
    same(rt, ends(stack), (3, Some(two), Some(one)), "three entries");
    same(rt, stands(stack, one), AGAIN, "the first span");
    same(rt, stack.pop(one), Some(false), "it stays");
    same(rt, ends(stack), (2, Some(two), Some(two)), "two entries");
    same(rt, stands(stack, one), ONCE, "the first span");
    same(rt, stack.pop(one), Some(true), "it leaves");
    same(rt, stack.pop(one), None, "it is gone");
    same(rt, stands(stack, one), NOWHERE, "the first span");
    same(rt, stack.pop(two), Some(true), "the second leaves");
    same(rt, ends(stack), (0, None, None), "no entry");
    holds(rt, stack.is_empty(), "the stack is empty at the end");
}

fn push_deep(rt: &impl Abort, stack: &mut SpanStack) {
    for slot in 0..30000 {
        stack.reserve(1).expect(rt, "memory");
        same(rt, stack.push(Id::pack(slot, 0)), true, slot);
    }
}

// A walk that looked for each entry among those below it would take minutes here.
fn walks_often(rt: &impl Abort, stack: &SpanStack) {
    for _ in 0..300 {
        same(rt, stack.walk().count(), 30000, "a walk");
    }
    let end = stack.walk().last();
    same(rt, end, Some(Id::pack(0, 0)), "the walk's end");
}

#[test]
fn a_stack_of_few_spans_and_of_many(rt: HostRuntime) {
    let mut stack = pushed_as_known(rt.alloc());
    empties(&rt, &mut stack);
    push_deep(&rt, &mut stack);
    walks_often(&rt, &stack);
}
