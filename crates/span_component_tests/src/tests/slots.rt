//! Tables of few slots and of as many as there may be.
use crate::tests::compare::{id, same};
use span_id::{Fault, Id, Limits};
use span_slots::Slots;
use std::alloc::Global;
use std::process::Abort;

// A table of these limits; its other limits don't matter here.
fn table(rt: &impl Abort, alloc: Global, slots: u32, last_generation: u32) -> Slots<u32> {
    let limits = Limits {
        slots,
        last_generation,
        max_count: 1,
        workers: 1,
        ring: 1,
    };
    let checked = limits.check().expect(rt, "limits");
    Slots::new(alloc, &checked).expect(rt, "memory")
}

// How many values there are and whether there is none, how many slots are free, and the number of the next id.
type State = (u32, bool, u32, Option<u64>);

fn state(slots: &Slots<u32>) -> State {
    let next = slots.next_id().map(Id::get);
    (slots.len(), slots.is_empty(), slots.free(), next)
}

fn lists(rt: &impl Abort, slots: &Slots<u32>, want: &[Id]) {
    let ids = slots.ids().expect(rt, "memory");
    same(rt, ids.as_slice(), want, "the ids");
}

fn write(slots: &mut Slots<u32>, id: Id, value: u32) -> bool {
    match slots.get_mut(id) {
        Some(place) => {
            *place = value;
            true
        }
        None => false,
    }
}

// Of two slots with two generations one is retired.
fn is_used_up(rt: &impl Abort, slots: &mut Slots<u32>) {
    let (one, two, again) = (id(rt, 1), id(rt, 2), id(rt, 16777217));
    same(rt, state(slots), (0, true, 2, Some(1)), "none");
    let put = [slots.insert(7), slots.insert(8), slots.insert(9)];
    same(rt, put, [Ok(one), Ok(two), Err((9, Fault::Full))], "three");
    lists(rt, slots, &[one, two]);
    same(rt, write(slots, one, 11), true, "a value is written");
    same(rt, slots.get(two).copied(), Some(8), "the other one");
    let taken = [slots.remove(one), slots.remove(one)];
    same(rt, taken, [Some(11), None], "the first one is taken");
    same(rt, write(slots, one, 12), false, "it is gone");
    same(rt, state(slots), (1, false, 1, Some(16777217)), "one");
    same(rt, slots.insert(10), Ok(again), "its slot is given again");
    same(rt, slots.remove(again), Some(10), "and is retired");
    same(
        rt,
        state(slots),
        (1, false, 0, None),
        "the other one is left",
    );
    lists(rt, slots, &[two]);
}

#[test]
fn tables_of_two_sizes(rt: HostRuntime) {
    let mut two = table(&rt, rt.alloc(), 2, 1);
    is_used_up(&rt, &mut two);
    let most = table(&rt, rt.alloc(), 16777216, 4294967295);
    same(&rt, state(&most), (0, true, 16777216, Some(1)), "most");
    lists(&rt, &most, &[]);
}
