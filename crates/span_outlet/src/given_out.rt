//! The lines that were given out, known and not kept.
ghost use Rattle.std.specs.Prelude.{◌≡◌, ◌++◌, ◌∷◌, []};
ghost use Rattle.span_outlet.specs.Lines.{plain_line};
ghost use Rattle.span_outlet.specs.inside.GivenOut.{lines_given};

use crate::line::Line;
use span_known::KnownValue;
use std::mem;

/// The lines that were given out, as clauses see them. A known value of it has no bytes.
#[derive(Drop)]
pub(crate) enum GivenOut {
    Nothing,
    After(KnownValue<GivenOut>, KnownValue<Line>),
}

impl GivenOut {
    // No line yet.
    pub(crate) fn nothing() -> KnownValue<GivenOut>
        ensures { lines_given result.value ≡ [] }
    {
        KnownValue::of(&GivenOut::Nothing)
    }

    // One line more, behind the others.
    pub(crate) fn add(given: &mut KnownValue<GivenOut>, line: &Line)
        ensures { lines_given given.new.value ≡ lines_given given.old.value ++ plain_line line.now ∷ [] }
    {
        let before = mem::replace(given, GivenOut::nothing());
        let after = GivenOut::After(before, KnownValue::of(line));
        *given = KnownValue::of(&after);
    }
}
