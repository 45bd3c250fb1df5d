//! What lies behind the handle of a drain.
ghost use Rattle.std.specs.Prelude.{◌≡◌, length};
ghost use Rattle.span_ffi.specs.Drain.{TakesOut};

use crate::heading_reader::HeadingReader;
use span_layers::{ByForm, Formatters};
use span_outlet::LineReader;
use std::marker::Model;

/// The other end of a registry's ring, whose layers write in their forms.
pub(crate) type Lines = LineReader<Formatters<ByForm>>;

/// The reader behind a handle. Contracts see the line reader and the end of the headings.
#[derive(Drop)]
pub struct Reader {
    pub(crate) lines: Lines,
    // Where they are kept.
    pub(crate) headings: Option<HeadingReader>,
}

impl Model for Reader {
    ghost use Rattle.span_ffi.specs.Drain.{ReaderView};

    ghost Value = { ReaderView };

    ghost view = { λ reader. record { lines = reader.lines; headings = reader.headings } };
}

impl Reader {
    /// Takes the headings out of their ring of the batches that were taken, as long as there is memory for
    /// them, so that the ring has places. Without memory they stay in it.
    #[inline(always)]
    pub(crate) fn take_headings(&mut self)
        ensures lines { self.new.lines ≡ self.old.lines }
        ensures headings { TakesOut (length self.old.lines.taken) self.old.headings self.new.headings }
    {
        if let Some(headings) = &mut self.headings {
            let _ = headings.take_before(self.lines.taken());
        }
    }
}
