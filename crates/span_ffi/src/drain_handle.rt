//! The handle of a reader: one word, which owns a reader where it isn't null.
ghost use Rattle.std.specs.Prelude.{◌≡◌, Some, None, Option};
ghost use Rattle.span_border.specs.inside.HandleOwned.{handle_owns};
ghost use Rattle.span_ffi.specs.Drain.{ReaderView};
ghost use Rattle.span_ffi.specs.inside.ReaderHeld.{the_row, held_coded};

use crate::reader::Reader;
use span_border::{Handle, Holds};
use std::alloc::Global;
use std::marker::Model;

/// A reader for C, or none: then it is null.
#[repr(C)]
#[derive(Drop)]
pub struct SpanDrain {
    at: *mut u8,
    alloc: Global,
    pub ghost held: { Option ReaderView } by { held_coded },
}

impl Model for SpanDrain {
    ghost also_owns = { λ drain. handle_owns the_row drain.alloc drain.at drain.held };
}

impl SpanDrain {
    fn around(handle: Handle<Reader>) -> SpanDrain
        ensures { result.held ≡ handle.held }
    {
        let Handle { at, alloc } = handle;
        SpanDrain {
            at: at as *mut u8,
            alloc,
        }
    }

    fn inside(self) -> Handle<Reader>
        ensures { result.held ≡ self.held }
    {
        let SpanDrain { at, alloc } = self;
        Handle {
            at: at as *mut Reader,
            alloc,
        }
    }
}

impl Holds<Reader> for SpanDrain {
    ghost held = { λ drain. drain.held };

    fn none(alloc: Global) -> SpanDrain {
        SpanDrain::around(Handle::empty(alloc))
    }

    fn into_handle(self) -> Handle<Reader> {
        self.inside()
    }

    fn put(&mut self, reader: Box<Reader>)
        requires { self.old.held ≡ None }
        ensures { self.new.held ≡ Some reader.value }
    {
        *self = SpanDrain::around(Handle::full(reader));
    }
}

unsafe impl Send for SpanDrain {}
