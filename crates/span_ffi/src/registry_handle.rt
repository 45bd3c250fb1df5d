//! The handle of a registry: one word, which owns a registry where it isn't null.
ghost use Rattle.std.specs.Prelude.{◌≡◌, Some, None, Option};
ghost use Rattle.span_border.specs.inside.HandleOwned.{handle_owns};
ghost use Rattle.span_ffi.specs.Registry.{RegistryView};
ghost use Rattle.span_ffi.specs.inside.RegistryHeld.{the_row, held_coded};

use crate::registry::Registry;
use span_border::{Handle, Holds};
use std::alloc::Global;
use std::marker::Model;

/// A registry for C, or none: then it is null.
#[repr(C)]
#[derive(Drop)]
pub struct SpanRegistry {
    at: *mut u8,
    alloc: Global,
    pub ghost held: { Option RegistryView } by { held_coded },
}

impl Model for SpanRegistry {
    ghost also_owns = { λ registry. handle_owns the_row registry.alloc registry.at registry.held };
}

impl SpanRegistry {
    fn around(handle: Handle<Registry>) -> SpanRegistry
        ensures { result.held ≡ handle.held }
    {
        let Handle { at, alloc } = handle;
        SpanRegistry {
            at: at as *mut u8,
            alloc,
        }
    }

    fn inside(self) -> Handle<Registry>
        ensures { result.held ≡ self.held }
    {
        let SpanRegistry { at, alloc } = self;
        Handle {
            at: at as *mut Registry,
            alloc,
        }
    }
}

impl Holds<Registry> for SpanRegistry {
    ghost held = { λ registry. registry.held };

    fn none(alloc: Global) -> SpanRegistry {
        SpanRegistry::around(Handle::empty(alloc))
    }

    fn into_handle(self) -> Handle<Registry> {
        self.inside()
    }

    fn put(&mut self, registry: Box<Registry>)
        requires { self.old.held ≡ None }
        ensures { self.new.held ≡ Some registry.value }
    {
        *self = SpanRegistry::around(Handle::full(registry));
    }
}

unsafe impl Send for SpanRegistry {}
