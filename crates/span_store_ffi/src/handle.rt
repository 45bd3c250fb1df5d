//! The handle of a store: one word, which owns a store where it isn't null.
ghost use Rattle.std.specs.Prelude.{◌≡◌, Some, None, Option};
ghost use Rattle.span_border.specs.inside.HandleOwned.{handle_owns};
ghost use Rattle.span_store.specs.Store.{StoreView};
ghost use Rattle.span_store_ffi.specs.inside.Held.{the_row, held_coded};

use span_border::{Handle, Holds};
use span_store::Store;
use std::alloc::Global;
use std::marker::Model;

/// A store for C, or none: then it is null.
#[repr(C)]
#[derive(Drop)]
pub struct SpanStore {
    at: *mut u8,
    alloc: Global,
    pub ghost held: { Option StoreView } by { held_coded },
}

impl Model for SpanStore {
    ghost also_owns = { λ store. handle_owns the_row store.alloc store.at store.held };
}

impl SpanStore {
    fn around(handle: Handle<Store>) -> SpanStore
        ensures { result.held ≡ handle.held }
    {
        let Handle { at, alloc } = handle;
        SpanStore {
            at: at as *mut u8,
            alloc,
        }
    }

    fn inside(self) -> Handle<Store>
        ensures { result.held ≡ self.held }
    {
        let SpanStore { at, alloc } = self;
        Handle {
            at: at as *mut Store,
            alloc,
        }
    }
}

impl Holds<Store> for SpanStore {
    ghost held = { λ store. store.held };

    fn none(alloc: Global) -> SpanStore {
        SpanStore::around(Handle::empty(alloc))
    }

    fn into_handle(self) -> Handle<Store> {
        self.inside()
    }

    fn put(&mut self, store: Box<Store>)
        requires { self.old.held ≡ None }
        ensures { self.new.held ≡ Some store.value }
    {
        *self = SpanStore::around(Handle::full(store));
    }
}

unsafe impl Send for SpanStore {}
