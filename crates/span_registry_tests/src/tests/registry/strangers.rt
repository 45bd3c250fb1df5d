//! Strangers' ids: ids of every kind that no span has, in the calls of a registry that take an id and no handle.
use crate::tests::registry::acts::Act;
use crate::tests::registry::endings::{Ending, ends};
use crate::tests::registry::layers::EVERYTHING;
use span_id::Limits;

const LIMITS: Limits = Limits {
    slots: 4,
    last_generation: 1,
    max_count: 9,
    workers: 1,
    ring: 100,
};

// The span that is open while the strangers come: the second one of slot 1.
const OPEN: u64 = 16777218;

static STRANGERS: Ending<'static> = Ending {
    plans: &[EVERYTHING],
    acts: &[
        // Slot 0 is retired, slot 1 has its second span, which is open, slot 2 is free again, slot 3 was never used.
        (0, Act::Child("a", 0)),
        (0, Act::Close(1)),
        (0, Act::Child("a", 0)),
        (0, Act::Close(16777217)),
        (0, Act::Child("a", 0)),
        (0, Act::Close(2)),
        (0, Act::Child("a", 0)),
        (0, Act::Enter(OPEN)),
        (0, Act::Child("a", 0)),
        (0, Act::Close(3)),
        (0, Act::Find(OPEN)),
        (0, Act::Count),
        // The closed ids of the retired slot, and one generation more of it.
        (0, Act::Find(1)),
        (0, Act::Child("a", 1)),
        (0, Act::Exit(1)),
        (0, Act::Find(16777217)),
        (0, Act::Child("a", 16777217)),
        (0, Act::Exit(16777217)),
        (0, Act::Find(33554433)),
        (0, Act::Child("a", 33554433)),
        (0, Act::Exit(33554433)),
        // The closed id of the open span's slot, and one generation more than the open one's.
        (0, Act::Find(2)),
        (0, Act::Child("a", 2)),
        (0, Act::Exit(2)),
        (0, Act::Find(33554434)),
        (0, Act::Child("a", 33554434)),
        (0, Act::Exit(33554434)),
        // The closed id of the free slot, and the id that it will give.
        (0, Act::Find(3)),
        (0, Act::Child("a", 3)),
        (0, Act::Exit(3)),
        (0, Act::Find(16777219)),
        (0, Act::Child("a", 16777219)),
        (0, Act::Exit(16777219)),
        // The slot never used, one beyond the table, the last one of the layout, and the greatest id.
        (0, Act::Find(4)),
        (0, Act::Child("a", 4)),
        (0, Act::Exit(4)),
        (0, Act::Find(5)),
        (0, Act::Child("a", 5)),
        (0, Act::Exit(5)),
        (0, Act::Find(16777216)),
        (0, Act::Child("a", 16777216)),
        (0, Act::Exit(16777216)),
        (0, Act::Find(72057594037927936)),
        (0, Act::Child("a", 72057594037927936)),
        (0, Act::Exit(72057594037927936)),
        // Nothing that can be counted has changed.
        (0, Act::Find(OPEN)),
        (0, Act::Count),
        (0, Act::Exit(OPEN)),
        (0, Act::Close(OPEN)),
    ],
    answers: "\
= 1
= closed
= 16777217
= closed
= 2
= closed
= 16777218
= entered
= 3
= closed
Ok(Some(Found { name: \"a\", parent: None, handles: 1, entries: 1, count: 2 }))
= accepted 10 out 1
Ok(None)
! unknown
! unknown
Ok(None)
! unknown
! unknown
Ok(None)
! unknown
! unknown
Ok(None)
! unknown
! unknown
Ok(None)
! unknown
! unknown
Ok(None)
! unknown
! unknown
Ok(None)
! unknown
! unknown
Ok(None)
! unknown
! unknown
Ok(None)
! unknown
! unknown
Ok(None)
! unknown
! unknown
Ok(None)
! unknown
! unknown
Ok(Some(Found { name: \"a\", parent: None, handles: 1, entries: 1, count: 2 }))
= accepted 10 out 1
= open
= closed
",
    numbers: "left 0 handles 0 entries 0 calls 12 made 5 closed 5 missed 0",
    lines: "\
0 0 0 new 1 w0 a
1 0 0 close 1 w0 a
2 0 0 new 16777217 w0 a
3 0 0 close 16777217 w0 a
4 0 0 new 2 w0 a
5 0 0 close 2 w0 a
6 0 0 new 16777218 w0 a
7 0 0 enter 16777218 w0 a
8 0 0 new 3 w0 a
9 0 0 close 3 w0 a
10 0 0 exit 16777218 w0 a
11 0 0 close 16777218 w0 a
",
};

#[test]
fn strangers_ids_are_unknown_to_a_registry(rt: HostRuntime) {
    ends(&rt, rt.alloc(), LIMITS, &STRANGERS);
}
