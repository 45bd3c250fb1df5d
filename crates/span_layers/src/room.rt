//! How long the text of a note is, so that most texts take one allocation and few bytes too many.
ghost use Rattle.std.specs.Prelude.{◌≤◌, ◌+◌, length};

use crate::clean::escapes_in;
use crate::note::{Kind, Note};
use span_id::Level;

// How many bytes are looked at at once.
const BLOCK: usize = 32;

// The blanks before the id, the worker and the path, and the `w`.
const COMPACT_HEAD: usize = 4;

// The longest kind's name, and the digits of the greatest id and of the greatest worker.
const MOST_HEAD: usize = 6 + 20 + 10;

// A blank and an equals sign.
const COMPACT_PAIR: usize = 2;

// The blanks before the level and the message.
const COMPACT_EVENT: usize = 2;

// Room for what is escaped in bytes that the compact form doesn't look at.
const COMPACT_SPARE: usize = 15;

// A JSON text without its path, its message and its fields has at most 114 bytes. With ordinary numbers there is room
// for some 30 bytes of escapes in an event's text, and for some 60 in others.
const JSON_FRAME: usize = 120;

// `["",""],` with its comma, which the last pair lacks.
const JSON_PAIR: usize = 8;

// A message or a value is long from here on, and then there is room for more escapes in JSON.
const LONG: usize = 64;

const LONG_SPARE: usize = 48;

/// The length of a note's compact text, and a few bytes more.
pub(crate) fn compact_room(note: &Note) -> usize {
    compact_room_behind(head_len(note), note)
}

/// The same with the longest kind and numbers, which takes no look at them.
pub(crate) fn compact_room_at_most(note: &Note) -> usize {
    compact_room_behind(MOST_HEAD, note)
}

// The same where the kind and the numbers take so many bytes.
#[inline(always)]
fn compact_room_behind(head: usize, note: &Note) -> usize {
    let head = head.saturating_add(COMPACT_HEAD + COMPACT_SPARE);
    let mut room = head.saturating_add(note.path.len());
    if let Some((level, message)) = event_shown(note) {
        room = room
            .saturating_add(COMPACT_EVENT)
            .saturating_add(level.name().len())
            .saturating_add(compact_len(message.as_bytes()));
    }
    for field in note.fields.as_slice() {
        room = room
            .saturating_add(COMPACT_PAIR)
            .saturating_add(field.key.len())
            .saturating_add(compact_len(field.value.as_bytes()));
    }
    room
}

/// The length of a note's JSON text where little is escaped, and some bytes more.
pub(crate) fn json_room(note: &Note) -> usize {
    let mut room = JSON_FRAME.saturating_add(note.path.len());
    if let Some((_, message)) = event_shown(note) {
        room = room.saturating_add(json_len(message));
    }
    for field in note.fields.as_slice() {
        room = room
            .saturating_add(JSON_PAIR)
            .saturating_add(field.key.len())
            .saturating_add(json_len(&field.value));
    }
    room
}

// The kind's name and the numbers.
fn head_len(note: &Note) -> usize {
    let numbers = digits(note.id) + digits(u64::from(note.worker));
    numbers.saturating_add(note.kind.name().len())
}

// The level and the message, which are shown of events alone.
fn event_shown(note: &Note) -> Option<(Level, &str)> {
    match (note.kind, &note.event) {
        (Kind::OnEvent, Some((level, message))) => Some((*level, message.as_str())),
        _ => None,
    }
}

// How long the compact form writes a text, as far as its blocks tell.
fn compact_len(text: &[u8]) -> usize {
    let mut len = text.len();
    let mut at = 0;
    while text.len() - at >= BLOCK {
        len = len.saturating_add(escapes_in::<BLOCK>(text, at).count_ones() as usize);
        at += BLOCK;
    }
    len
}

// How long JSON writes a text, without its quotes: of a long one some bytes are taken to be escaped.
fn json_len(text: &str) -> usize {
    let len = text.len();
    if len < LONG {
        len
    } else {
        len.saturating_add(LONG_SPARE)
    }
}

// How many digits a number has.
fn digits(number: u64) -> usize
    ensures { result ≤ 20 }
{
    match number.checked_ilog10() {
        Some(log) => log as usize + 1,
        None => 1,
    }
}
