//! Which lists of notes come back through a ring, once they were told.
ghost use Rattle.std.specs.Prelude.{◌≡◌, ◌+◌, ◌-◌, ◌^◌, ◌<◌, ◌≤◌, [], length};

use crate::tests::compare::{holds, same};
use crate::tests::outlet::batches::{batch_of, pair, send};
use crate::tests::outlet::buffers::{JSON, NOTES, given, plain_formatting, read, send_in_a_list};
use crate::values::field;
use span_id::{Field, Fields};
use span_layers::{Kind, Note, Say};
use span_outlet::{LineReader, Ring};
use std::alloc::Global;
use std::mem::size_of;
use std::process::Abort;
use std::sync::ArcStr;

// The most bytes of texts and fields that the notes of a list have that comes back.
const TEXT: usize = 2048;

// So many fields of two bytes of text these are, beside a path of one byte.
const FIELDS: usize = (TEXT - 1) / (size_of::<Field>() + 2);

// The most lists that are on their way back.
const LISTS: u32 = 64;

// An event's text has as many bytes more than its path, `-`, and its message have.
const BESIDE: usize = JSON.len() - 1;

// The list of one note comes back once the next one was told, where it has room for so many and its text so many bytes,
// and else not at all.
fn comes_back(rt: &impl Abort, alloc: Global, room: usize, bytes: usize, want: Option<usize>) {
    let (mut ring, tap) = pair(rt, alloc, 1);
    let mut reader = LineReader::new(alloc, tap, plain_formatting(rt, alloc));
    send_in_a_list(rt, alloc, &mut ring, room, bytes);
    let before = given(rt, &mut ring);
    read(rt, &mut reader, false);
    let kept = given(rt, &mut ring);
    send_in_a_list(rt, alloc, &mut ring, 1, 90);
    read(rt, &mut reader, false);
    let lists = [before, kept, given(rt, &mut ring), given(rt, &mut ring)];
    same(rt, lists, [None, None, want, None], bytes);
}

#[test]
fn told_lists_come_back(rt: HostRuntime) {
    let alloc = rt.alloc();
    comes_back(&rt, alloc, 1, 90, Some(1));
    comes_back(&rt, alloc, NOTES, 90, Some(NOTES));
    comes_back(&rt, alloc, NOTES + 1, 90, None);
    comes_back(&rt, alloc, 1, BESIDE + TEXT, Some(1));
    comes_back(&rt, alloc, 1, BESIDE + TEXT + 1, None);
}

// Sends a batch whose one note has so many fields.
fn send_fields(rt: &impl Abort, alloc: Global, ring: &mut Ring, count: usize)
    requires { length ring.old.sent < 2 ^ 64 - 1 }
    ensures { length ring.new.sent ≤ length ring.old.sent + 1 }
{
    let mut fields = Vec::with_capacity(alloc, count).expect(rt, "memory");
    for _ in 0..count {
        let field = field(alloc, "k", "v").expect(rt, "memory");
        fields.push(field).expect(rt, "memory");
    }
    let note = Note {
        layer: 0,
        kind: Kind::OnNew,
        worker: 0,
        id: 1,
        path: ArcStr::from_str(alloc, "-").expect(rt, "memory"),
        fields: Fields::new(alloc, fields).expect(rt, "memory"),
        event: None,
    };
    let mut notes = Vec::new(alloc);
    notes.push(note).expect(rt, "memory");
    holds(rt, send(rt, ring, batch_of(rt, notes)), "room for a batch");
}

// The list of one note with so many fields comes back, or not.
fn fields_come_back(rt: &impl Abort, alloc: Global, count: usize, want: bool) {
    let (mut ring, tap) = pair(rt, alloc, 1);
    let mut reader = LineReader::new(alloc, tap, plain_formatting(rt, alloc));
    send_fields(rt, alloc, &mut ring, count);
    read(rt, &mut reader, false);
    send_in_a_list(rt, alloc, &mut ring, 1, 90);
    read(rt, &mut reader, false);
    same(rt, given(rt, &mut ring).is_some(), want, count);
}

#[test]
fn told_lists_of_few_fields_come_back(rt: HostRuntime) {
    fields_come_back(&rt, rt.alloc(), FIELDS, true);
    fields_come_back(&rt, rt.alloc(), FIELDS + 1, false);
}

// So many lists are told, one after another.
fn tells<V: Say>(
    rt: &impl Abort,
    alloc: Global,
    ring: &mut Ring,
    reader: &mut LineReader<V>,
    lists: u32,
)
    requires { ring.old.sent ≡ [] }
{
    for _ in 0..lists {
        send_in_a_list(rt, alloc, ring, 1, 90);
        read(rt, reader, false);
    }
}

// How many lists come back, at most so many.
fn count(rt: &impl Abort, ring: &mut Ring, most: u32) -> u32 {
    let mut lists: u32 = 0;
    for _ in 0..most {
        if given(rt, ring).is_none() {
            break;
        }
        lists = lists.saturating_add(1);
    }
    lists
}

// Of so many lists that are told so many come back: the reader has the last one.
fn wait_to_come_back(rt: &impl Abort, alloc: Global, told: u32, want: u32) {
    let (mut ring, tap) = pair(rt, alloc, 1);
    let mut reader = LineReader::new(alloc, tap, plain_formatting(rt, alloc));
    tells(rt, alloc, &mut ring, &mut reader, told);
    let lists = count(rt, &mut ring, LISTS + 9);
    same(rt, lists, want, told);
}

#[test]
fn sixty_four_lists_are_on_their_way_back(rt: HostRuntime) {
    let alloc = rt.alloc();
    wait_to_come_back(&rt, alloc, LISTS, LISTS - 1);
    wait_to_come_back(&rt, alloc, LISTS + 1, LISTS);
    wait_to_come_back(&rt, alloc, LISTS + 2, LISTS);
}
