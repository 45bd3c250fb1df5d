//! What the closures of layers do besides their answers. The boxes are made where they are used, since only tests may
//! hand them out.
ghost use Rattle.std.specs.Prelude.{◌≡◌, string_bytes};
ghost use Rattle.std.specs.Result.{ForOk};
ghost use Rattle.span_layers.specs.Note.{plain_note};
ghost use Rattle.span_layers.specs.Rule.{pairs_of, is_admitted};
ghost use Rattle.span_layers.specs.Text.{text_of};

use span_id::Meta;
use span_layers::{Form, Kind, Note, Rule, admits, text};
use std::alloc::{AllocError, Global};
use std::sync::atomic::{AtomicU64, Ordering};
use std::sync::{Arc, ArcStr};

/// Which texts are refused memory.
#[derive(Clone, Copy)]
pub enum Refused {
    /// No text.
    None,
    /// Those of notes of this kind.
    At(Kind),
}

/// What closures write down when they are called.
#[derive(Clone, Copy)]
pub enum Noting {
    /// Nothing.
    Nothing,
    /// Behind what is written: the first digit for a rule that is asked, the other one for a note that is written.
    Digits(u64, u64),
    /// How many owners the path of the note has.
    Owners,
    /// For how many bytes the value of the note's first field has room.
    Room,
}

/// The number that closures of some layers write down, and what each of them does at a call.
#[derive(Drop)]
pub struct Watch {
    number: Arc<AtomicU64, Global>,
    noting: Noting,
    refused: Refused,
}

impl Watch {
    /// Nothing was written down yet.
    pub fn new(alloc: Global, noting: Noting, refused: Refused) -> Result<Watch, AllocError> {
        Ok(Watch {
            number: Arc::new(alloc, AtomicU64::new(0))?,
            noting,
            refused,
        })
    }

    /// For other closures, that write down this in the same number.
    pub fn with(&self, noting: Noting) -> Result<Watch, AllocError> {
        Ok(Watch {
            number: Arc::try_clone(&self.number)?,
            noting,
            refused: self.refused,
        })
    }

    /// The same for one more closure.
    pub fn share(&self) -> Result<Watch, AllocError> {
        self.with(self.noting)
    }

    /// The number.
    pub fn number(&self) -> u64 {
        self.number.load(Ordering::SeqCst)
    }

    /// The number, which begins again.
    pub fn taken(&self) -> u64 {
        self.number.swap(0, Ordering::SeqCst)
    }

    /// Whether a rule admits what the meta describes.
    pub fn admits(&self, rule: &Rule, meta: &Meta) -> bool
        ensures { result
            ≡ is_admitted (pairs_of rule.now) (string_bytes meta.now.target) meta.now.level }
    {
        if let Noting::Digits(digit, _) = self.noting {
            self.write_digit(digit);
        }
        admits(rule, meta)
    }

    /// The text of a note.
    pub fn text(&self, alloc: Global, form: Form, note: &Note) -> Result<Vec<u8>, AllocError>
        ensures { ForOk result (λ text. text.items ≡ text_of form (plain_note note.now)) }
    {
        self.write_note(note);
        if self.refuses(note.kind) {
            return Err(AllocError);
        }
        text(alloc, form, note)
    }

    // Writes a digit behind the others.
    fn write_digit(&self, digit: u64) {
        let before = self.number();
        let after = before.wrapping_mul(10).wrapping_add(digit);
        self.number.store(after, Ordering::SeqCst);
    }

    fn write_note(&self, note: &Note) {
        match self.noting {
            Noting::Nothing => {}
            Noting::Digits(_, digit) => self.write_digit(digit),
            Noting::Owners => {
                let owners = ArcStr::strong_count(&note.path);
                self.number.store(owners as u64, Ordering::SeqCst);
            }
            Noting::Room => self.number.store(room_of(note), Ordering::SeqCst),
        }
    }

    fn refuses(&self, kind: Kind) -> bool {
        match self.refused {
            Refused::None => false,
            Refused::At(other) => kind == other,
        }
    }
}

// For how many bytes the value of a note's first field has room.
fn room_of(note: &Note) -> u64 {
    let fields = note.fields.as_slice();
    fields.first().map_or(0, |one| one.value.capacity()) as u64
}
