//! What a core over a ring remembers from call to call, as its notes show it when they are written: how many owners
//! their paths have then, and how much room an event's field.
use crate::tests::acts::{Act, perform};
use crate::tests::compare::{holds, same};
use crate::tests::hooks::hooks;
use crate::tests::on_a_ring::ringed;
use span_component_tests::plans::{EVERYTHING, Plan, Wanted, add};
use span_component_tests::watch::{Noting, Refused, Watch};
use span_core::Core;
use span_id::{Level, Limits};
use span_layers::{Form, Layers};
use span_outlet::{Drain, Ring};
use std::alloc::Global;
use std::process::Abort;

const LIMITS: Limits = Limits {
    slots: 80,
    last_generation: 3,
    max_count: 8,
    workers: 1,
    ring: 4,
};

// A core over a ring with these layers, whose closures do what the watch says, and the ring's drain.
fn opened(
    rt: &impl Abort,
    alloc: Global,
    watch: &Watch,
    plans: &[Plan<'_>],
) -> (Core<Ring>, Drain) {
    let mut layers = Layers::new(alloc);
    for plan in plans {
        let hooks = hooks(rt, alloc, watch);
        add(alloc, &mut layers, plan, hooks).expect(rt, "a layer");
    }
    ringed(rt, alloc, &LIMITS, layers)
}

// The number that is written down where the drain writes the note of a call.
fn noted_at(
    rt: &impl Abort,
    alloc: Global,
    core: &mut Core<Ring>,
    drain: &mut Drain,
    watch: &Watch,
    act: &Act,
) -> u64 {
    perform(rt, alloc, core, 0, act);
    holds(rt, drain.step().is_some(), "a batch");
    watch.number()
}

const HI: Act<'static> = Act::Event("app", Level::Info, "hi", &[]);

// While a span is open its path has one owner beside the note, and where it closed none: at last two notes share it. The
// span 16777217 gets the slot of the first one.
static OWNERS: [(Act<'static>, u64); 9] = [
    (Act::New("a"), 2),
    (Act::Enter(1), 2),
    (HI, 2),
    (Act::Exit(1), 2),
    (Act::Close(1), 1),
    (Act::New("b"), 2),
    (Act::Enter(16777217), 2),
    (Act::Close(16777217), 2),
    (Act::Exit(16777217), 2),
];

// Two layers that see one path have it as one owner more beside their notes.
static OWNERS_OF_TWO: [(Act<'static>, u64); 5] = [
    (Act::New("a"), 3),
    (Act::Enter(1), 3),
    (HI, 3),
    (Act::Exit(1), 3),
    (Act::Close(1), 2),
];

// Two layers that are told of other kinds.
static OTHER_KINDS: [Plan<'static>; 2] = [
    (Form::Compact, Wanted::NewAndClose, "", Level::Trace),
    (Form::Compact, Wanted::EnterAndExit, "", Level::Trace),
];

// What the first is told of the new span, the second shares when it is entered.
static OWNERS_OF_OTHER_KINDS: [(Act<'static>, u64); 5] = [
    (Act::New("a"), 2),
    (Act::Enter(1), 2),
    (HI, 3),
    (Act::Exit(1), 2),
    (Act::Close(1), 1),
];

// With these layers the paths of these acts have so many owners.
fn have_owners(rt: &impl Abort, alloc: Global, plans: &[Plan<'_>], owners: &[(Act<'static>, u64)]) {
    let watch = Watch::new(alloc, Noting::Owners, Refused::None).expect(rt, "memory");
    let (mut core, mut drain) = opened(rt, alloc, &watch, plans);
    for (act, owners) in owners {
        let found = noted_at(rt, alloc, &mut core, &mut drain, &watch, act);
        same(rt, found, *owners, *owners);
    }
}

#[test]
fn a_path_is_given_up_with_its_span(rt: HostRuntime) {
    have_owners(&rt, rt.alloc(), &[EVERYTHING], &OWNERS);
    have_owners(&rt, rt.alloc(), &[EVERYTHING, EVERYTHING], &OWNERS_OF_TWO);
    have_owners(&rt, rt.alloc(), &OTHER_KINDS, &OWNERS_OF_OTHER_KINDS);
}

// The room of the value of an event whose one field has so many bytes.
fn room_of(
    rt: &impl Abort,
    alloc: Global,
    core: &mut Core<Ring>,
    drain: &mut Drain,
    watch: &Watch,
    size: usize,
) -> u64 {
    let value = "v".repeat(alloc, size).expect(rt, "memory");
    let event = Act::Event("app", Level::Info, "hi", &[("k", value.as_str())]);
    noted_at(rt, alloc, core, drain, watch, &event)
}

// The first event's fields are written over at the seventeenth event, where nobody has them any longer.
#[test]
fn an_earlier_events_memory_is_used_again(rt: HostRuntime) {
    let alloc = rt.alloc();
    let watch = Watch::new(alloc, Noting::Room, Refused::None).expect(&rt, "memory");
    let (mut core, mut drain) = opened(&rt, alloc, &watch, &[EVERYTHING]);
    let first = room_of(&rt, alloc, &mut core, &mut drain, &watch, 33);
    same(&rt, first, 33, "the first");
    for nth in 2..17u64 {
        let room = room_of(&rt, alloc, &mut core, &mut drain, &watch, 1);
        same(&rt, room, 1, nth);
    }
    let room = room_of(&rt, alloc, &mut core, &mut drain, &watch, 1);
    same(&rt, room, 33, "the seventeenth");
}
