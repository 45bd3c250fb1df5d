//! Short labels that were bound lately.
ghost use Rattle.std.specs.Prelude.{◌≡◌, ◌≤◌, ℕ, List, IfSome, take};
ghost use Rattle.std.specs.Str.{bytes_eq};
ghost use Rattle.span_replay.specs.Labels.{Bound, with_label};
ghost use Rattle.span_replay.specs.inside.Lately.{AreBound, IsBound};

use span_id::Id;
use std::marker::Model;

// How many bytes a label has that is kept, at most.
const LONGEST: usize = 24;

// A short label and the id that it names. Contracts see the label's bytes and the id.
#[derive(Drop)]
struct Kept {
    text: [u8; LONGEST],
    length: usize,
    id: Id,
}

impl Model for Kept {
    ghost Value = { List ℕ × ℕ };

    ghost view = { λ kept. (take kept.length kept.text, kept.id) };

    ghost invariant = { λ kept. kept.length ≤ 24 };
}

impl Kept {
    // The label with its id, unless it is too long.
    fn of(label: &str, id: Id) -> Option<Kept>
        ensures { IfSome result (λ kept. kept ≡ (label.now, id)) }
    {
        let bytes = label.as_bytes();
        if bytes.len() > LONGEST {
            return None;
        }
        let mut text = [0; LONGEST];
        text[..bytes.len()].copy_from_slice(bytes);
        Some(Kept {
            text,
            length: bytes.len(),
            id,
        })
    }

    // Whether this is the label.
    fn is(&self, label: &str) -> bool
        ensures { result ≡ bytes_eq label.now self.now.0 }
    {
        label.as_bytes() == &self.text[..self.length]
    }

    // The id that it names.
    fn id(&self) -> Id
        ensures { result ≡ self.now.1 }
    {
        self.id
    }
}

/// The two labels that were bound last, each to the id that it names, where they are short. A line mostly names one of
/// them. They take no memory of their own.
#[derive(Drop)]
pub struct Lately {
    newest: Option<Kept>,
    older: Option<Kept>,
}

impl Lately {
    /// None.
    pub fn new() -> Lately
        ensures { (labels : Bound) → AreBound labels result.newest result.older }
    {
        Lately {
            newest: None,
            older: None,
        }
    }

    /// The id that the label names, if it is one of them.
    pub fn get(&self, label: &str) -> Option<Id>
        ensures { (labels : Bound) → AreBound labels self.now.newest self.now.older
            → IfSome result (λ id. IsBound labels (label.now, id)) }
    {
        match &self.newest {
            Some(newest) if newest.is(label) => Some(newest.id()),
            _ => match &self.older {
                Some(older) if older.is(label) => Some(older.id()),
                _ => None,
            },
        }
    }

    /// The label is bound to this id from now on.
    pub fn bind(&mut self, label: &str, id: Id)
        ensures { (labels : Bound) → AreBound labels self.old.newest self.old.older
            → AreBound (with_label labels label.now id) self.new.newest self.new.older }
    {
        self.older = match self.newest.take() {
            Some(newest) => { if newest.is(label) { None } else { Some(newest) } }
            None => None,
        };
        self.newest = Kept::of(label, id);
    }
}
