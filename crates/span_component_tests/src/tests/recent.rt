//! Copies of fields in the memory of earlier ones, by the room that they have, and metas that are shared.
use crate::tests::compare::{holds, same};
use crate::tests::layers::fixtures::fields;
use crate::values::{field, list, meta};
use span_id::{Field, Fields, Level};
use span_recent::{RecentFields, RecentMetas, SpareFields};
use std::alloc::Global;
use std::mem::size_of;
use std::process::Abort;

// A copy of one field with a value of this length.
fn sized(rt: &impl Abort, alloc: Global, recent: &mut RecentFields, size: usize) -> Fields {
    let value = "v".repeat(alloc, size).expect(rt, "memory");
    let one = [field(alloc, "k", value.as_str()).expect(rt, "memory")];
    recent.copy(&one).expect(rt, "memory")
}

// For how many bytes the last of so many copies with values of one byte has room.
fn room_of_last(rt: &impl Abort, alloc: Global, recent: &mut RecentFields, copies: usize) -> usize {
    let mut room = 0;
    for _ in 0..copies {
        let copy = sized(rt, alloc, recent, 1);
        room = copy
            .as_slice()
            .first()
            .map_or(0, |one| one.value.capacity());
    }
    room
}

// The room of the copies before the turn of a dropped one with a value of this length, and at its turn.
fn rooms_after(rt: &impl Abort, alloc: Global, size: usize) -> (usize, usize) {
    let mut recent = RecentFields::none(alloc);
    drop(sized(rt, alloc, &mut recent, size));
    let before = room_of_last(rt, alloc, &mut recent, 31);
    (before, room_of_last(rt, alloc, &mut recent, 1))
}

// One with more room to spare is freed.
#[test]
fn a_dropped_copy_is_written_over_at_its_turn(rt: HostRuntime) {
    for (size, want) in [(33, 33), (34, 1)] {
        let rooms = rooms_after(&rt, rt.alloc(), size);
        same(&rt, rooms, (1, want), size);
    }
}

#[test]
fn a_kept_copy_is_not_written_over(rt: HostRuntime) {
    let mut recent = RecentFields::none(rt.alloc());
    let kept = sized(&rt, rt.alloc(), &mut recent, 200);
    let room = room_of_last(&rt, rt.alloc(), &mut recent, 32);
    let size = kept.as_slice().first().map_or(0, |one| one.value.len());
    same(&rt, (room, size), (1, 200), "the room, and the kept value");
}

// The room of the first value.
fn room(fields: &Fields) -> usize {
    let first = fields.as_slice().first();
    first.map_or(0, |one| one.value.capacity())
}

// The rooms of a field and of the next one that are made where fields of these texts were kept.
fn rooms_over(rt: &impl Abort, alloc: Global, kept: &[(&str, &str)]) -> (usize, usize) {
    let mut spare = SpareFields::none(alloc);
    spare.keep(fields(rt, alloc, kept));
    spare.keep(Fields::none());
    let first = spare.one("k", "1").expect(rt, "memory");
    let next = spare.one("k", "1").expect(rt, "memory");
    (room(&first), room(&next))
}

// No fields and long ones aren't kept, others alone are written over, and memory is taken once.
#[test]
fn the_fields_of_a_closed_span_are_written_over_once(rt: HostRuntime) {
    let alloc = rt.alloc();
    let most = 512usize.saturating_sub(size_of::<Field>() + 2);
    let long = "v".repeat(alloc, most).expect(&rt, "memory");
    let longer = "v".repeat(alloc, most + 1).expect(&rt, "memory");
    let two = [("k", "22"), ("k", "333")];
    same(&rt, rooms_over(&rt, alloc, &[]), (1, 1), "none");
    same(&rt, rooms_over(&rt, alloc, &two[..1]), (2, 1), "one");
    same(&rt, rooms_over(&rt, alloc, &two), (1, 1), "two");
    let long = [(long.as_str(), "22")];
    same(&rt, rooms_over(&rt, alloc, &long), (2, 1), "a long one");
    let longer = [(longer.as_str(), "22")];
    same(&rt, rooms_over(&rt, alloc, &longer), (1, 1), "a longer one");
}

// The fields that came last are written over first; a fifth list isn't kept.
#[test]
fn the_fields_of_four_closed_spans_are_written_over(rt: HostRuntime) {
    let alloc = rt.alloc();
    let mut spare = SpareFields::none(alloc);
    for value in ["22", "333", "4444", "55555", "666666"] {
        spare.keep(fields(&rt, alloc, &[("k", value)]));
    }
    for want in [5, 4, 3, 2, 1, 1] {
        let one = spare.one("k", "1").expect(&rt, "memory");
        same(&rt, room(&one), want, want);
    }
}

// A copy is made over as many fields alone.
#[test]
fn a_copy_is_made_over_as_many_fields(rt: HostRuntime) {
    let alloc = rt.alloc();
    let copied = list(alloc, &[("k", "1"), ("k", "1")]).expect(&rt, "memory");
    let kept = [("k", "22"), ("k", "333"), ("k", "4444")];
    for (len, want) in [(0, 1), (1, 1), (2, 2), (3, 1)] {
        let (kept, _) = kept.split_at(len);
        let mut spare = SpareFields::none(alloc);
        spare.keep(fields(&rt, alloc, kept));
        let copy = spare.copy(copied.as_slice()).expect(&rt, "memory");
        same(&rt, room(&copy), want, len);
    }
}

// One that was copied lately serves its level and both texts alone.
#[test]
fn metas_of_texts_have_these_texts(rt: HostRuntime) {
    let alloc = rt.alloc();
    let mut recent = RecentMetas::none(alloc);
    let long = "t".repeat(alloc, 128).expect(&rt, "memory");
    for target in ["", "app", "", long.as_str(), long.as_str(), "app"] {
        for level in [Level::Info, Level::Warn, Level::Warn] {
            let copy = recent.share_texts(level, "a", target);
            let meta = meta(alloc, "a", target, level).expect(&rt, "memory");
            holds(
                &rt,
                *copy.expect(&rt, "memory").as_meta() == meta,
                "its texts",
            );
        }
    }
}

#[test]
fn a_meta_is_shared_twice(rt: HostRuntime) {
    let meta = meta(rt.alloc(), "a", "app", Level::Info).expect(&rt, "memory");
    let mut recent = RecentMetas::none(rt.alloc());
    for _ in 0..2 {
        let copy = recent.share(&meta).expect(&rt, "memory");
        holds(&rt, *copy.as_meta() == meta, "a copy of the meta");
    }
}
