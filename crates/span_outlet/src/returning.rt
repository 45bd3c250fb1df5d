//! The ring through which lists of notes that were told come back to the thread that made them.
ghost use Rattle.std.specs.Prelude.{◌≡◌, [], IfSome};

use rtrb::{Consumer, Producer};
use span_layers::Note;
use std::mem;

/// How many lists may be on their way back.
pub(crate) const MOST_LISTS: usize = 64;

// A list with room for more notes than this is freed.
const MOST_NOTES: usize = 16;

// So is one whose notes hold more bytes of texts and fields than this.
const MOST_BYTES: usize = 2048;

/// The end that a reader has.
pub(crate) type Returning = Producer<Vec<Note>>;

/// The end that the thread of the core has.
pub(crate) type Returned = Consumer<Vec<Note>>;

/// Gives back a list of notes that were told, which holds them still: they are freed where they were made. It is dropped
/// here where it is large or there is no place for it.
// Inlined, a list without memory costs a branch.
#[inline(always)]
pub(crate) fn give_back(back: &mut Returning, notes: Vec<Note>) {
    if notes.capacity() > 0 {
        send_back(back, notes);
    } else {
        // To drop it is to look for notes in it.
        mem::forget(notes);
    }
}

#[inline(never)]
fn send_back(back: &mut Returning, notes: Vec<Note>) {
    if notes.capacity() <= MOST_NOTES && bytes_of(notes.as_slice()) <= MOST_BYTES {
        // Without a place it comes out again, and is dropped.
        let _ = back.push(notes);
    }
}

// How many bytes of texts and fields the notes hold, or the greatest number.
fn bytes_of(notes: &[Note]) -> usize {
    let mut bytes: usize = 0;
    for note in notes {
        bytes = bytes.saturating_add(note.path.len());
        if let Some((_, message)) = &note.event {
            bytes = bytes.saturating_add(message.len());
        }
        bytes = bytes.saturating_add(note.fields.bytes());
    }
    bytes
}

/// A list that came back, without its notes, which are freed here.
#[inline(never)]
pub(crate) fn take_returned(back: &mut Returned) -> Option<Vec<Note>>
    ensures { IfSome result (λ list. list.items ≡ []) }
{
    let mut list = back.pop().ok()?;
    list.clear();
    Some(list)
}
