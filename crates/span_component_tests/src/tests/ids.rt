//! The order of levels, sets of layers, and fields that grow.
use crate::tests::compare::{crosses_threads, holds, same};
use crate::tests::layers::fixtures::{are_fields, fields};
use crate::values::{field, list};
use span_id::{Bits, Field, Fields, Level};
use std::alloc::Global;
use std::mem::size_of;
use std::process::Abort;

static LEVELS: [Level; 5] = [
    Level::Error,
    Level::Warn,
    Level::Info,
    Level::Debug,
    Level::Trace,
];

#[test]
fn orders_levels_by_verbosity(rt: HostRuntime) {
    for (verbosity, level) in LEVELS.iter().enumerate() {
        same(&rt, usize::from(level.verbosity()), verbosity, *level);
        let more = LEVELS.iter().filter(|other| level < *other).count();
        same(&rt, more, 4usize.saturating_sub(verbosity), *level);
    }
}

#[test]
fn makes_sets_of_others(rt: HostRuntime) {
    let high = 1 << 63;
    let sets = [
        Bits(5 + high).and(Bits(6 + high)),
        Bits(5 + high).without(Bits(6)),
        Bits::all().without(Bits(high)),
    ];
    let want = [Bits(4 + high), Bits(1 + high), Bits(high - 1)];
    same(&rt, sets, want, "sets");
}

static GROWN: [(&str, &str); 4] = [("k", "1"), ("l", "2"), ("k", "3"), ("k", "3")];

// None share the list of two, and grow beside its other owner, and then alone.
fn grow(rt: &impl Abort, alloc: Global, grown: &mut Fields, kept: &Fields, more: &Fields) {
    holds(rt, grown.is_empty() & (*grown != *kept), "none");
    grown.extend_shared(alloc, kept).expect(rt, "memory");
    holds(rt, !grown.is_empty() & (*grown == *kept), "two");
    grown.extend_shared(alloc, more).expect(rt, "memory");
    are_fields(rt, grown, &GROWN[..3]);
    are_fields(rt, kept, &GROWN[..2]);
    grown.extend(alloc, more.as_slice()).expect(rt, "memory");
}

#[test]
fn fields_grow(rt: HostRuntime) {
    let alloc = rt.alloc();
    let kept = fields(&rt, alloc, &GROWN[..2]);
    let more = fields(&rt, alloc, &[("k", "3")]);
    let mut grown = Fields::none();
    grow(&rt, alloc, &mut grown, &kept, &more);
    let shared = crosses_threads(grown.share().expect(&rt, "memory"));
    are_fields(&rt, &shared, &GROWN);
}

// One field lies in another place than several, wherever it comes from.
#[test]
fn a_lone_field_is_moved_in_or_copied(rt: HostRuntime) {
    let alloc = rt.alloc();
    let lone = field(alloc, "k", "1").expect(&rt, "memory");
    let moved = Fields::one(alloc, lone).expect(&rt, "memory");
    are_fields(&rt, &moved, &GROWN[..1]);
    let mut roomy = list(alloc, &GROWN[..1]).expect(&rt, "memory");
    roomy.reserve(8).expect(&rt, "memory");
    let roomy = Fields::new(alloc, roomy).expect(&rt, "memory");
    are_fields(&rt, &roomy, &GROWN[..1]);
    let copied = fields(&rt, alloc, &GROWN[..1]);
    holds(&rt, (copied == moved) & (copied == roomy), "equal");
}

// A list grows beside its other owner, who keeps it, and then this one grows alone.
fn grow_by(
    rt: &impl Abort,
    alloc: Global,
    had: &[(&str, &str)],
    more: &[(&str, &str)],
    want: &[(&str, &str)],
) {
    let more = fields(rt, alloc, more);
    let mut grown = fields(rt, alloc, had);
    let mut kept = grown.share().expect(rt, "memory");
    grown.extend(alloc, more.as_slice()).expect(rt, "memory");
    are_fields(rt, &grown, want);
    are_fields(rt, &kept, had);
    drop(grown);
    kept.extend(alloc, more.as_slice()).expect(rt, "memory");
    are_fields(rt, &kept, want);
}

// The copy is the same, whatever is written over.
fn copy_over_others(rt: &impl Abort, alloc: Global, want: &[(&str, &str)]) {
    let copied = list(alloc, want).expect(rt, "memory");
    for len in 0..=GROWN.len() {
        let (earlier, _) = GROWN.split_at(len);
        let earlier = fields(rt, alloc, earlier);
        let copy = earlier.copy_over(alloc, copied.as_slice());
        are_fields(rt, &copy.expect(rt, "memory"), want);
    }
}

// A list has room for one field in itself, and its memory counts with all the room that it has.
#[test]
fn fields_have_so_many_bytes(rt: HostRuntime) {
    let alloc = rt.alloc();
    let mut roomy = list(alloc, &GROWN[..2]).expect(&rt, "memory");
    roomy.reserve_exact(7).expect(&rt, "memory");
    let roomy = Fields::new(alloc, roomy).expect(&rt, "memory");
    let all = [
        Fields::none(),
        fields(&rt, alloc, &GROWN[..1]),
        fields(&rt, alloc, &GROWN),
        roomy,
    ];
    for (fields, places) in all.iter().zip([0usize, 1, 4, 9]) {
        let texts = fields.len().saturating_mul(2);
        let want = places.saturating_mul(size_of::<Field>());
        same(&rt, fields.bytes(), want.saturating_add(texts), places);
    }
}

// A field is the same, whatever it is written over, and another owner keeps what he had.
#[test]
fn one_field_is_written_over_others(rt: HostRuntime) {
    let alloc = rt.alloc();
    for len in 0..=GROWN.len() {
        let (earlier, _) = GROWN.split_at(len);
        let earlier = fields(&rt, alloc, earlier);
        let one = earlier.one_over(alloc, "key", "");
        are_fields(&rt, &one.expect(&rt, "memory"), &[("key", "")]);
    }
    let kept = fields(&rt, alloc, &GROWN[..1]);
    let shared = kept.share().expect(&rt, "memory");
    let one = shared.one_over(alloc, "l", "2").expect(&rt, "memory");
    are_fields(&rt, &one, &GROWN[1..2]);
    are_fields(&rt, &kept, &GROWN[..1]);
}

#[test]
fn lists_of_each_length_grow_and_are_copied_over(rt: HostRuntime) {
    for len in 0..=GROWN.len() {
        let (want, _) = GROWN.split_at(len);
        for at in 0..=len {
            let (had, more) = want.split_at(at);
            grow_by(&rt, rt.alloc(), had, more, want);
        }
        copy_over_others(&rt, rt.alloc(), want);
    }
}
