//! What C holds, as Rattle sees it: a pointer that owns a value where it isn't null.
ghost use Rattle.std.specs.Prelude.{◌≡◌, Some, None, Option};
ghost use Rattle.std.specs.Option.{option_map};
ghost use Rattle.std.specs.Coded.{coded_option};
ghost use denote.RawPtr.{null_ptr};
ghost use Rattle.span_border.specs.inside.HandleOwned.{handle_owns};

use crate::parts::Parts;
use std::alloc::Global;
use std::marker::Model;
use std::ptr;

/// A value, or none: then it is null. An exported function takes no type with a parameter, so each struct that C passes
/// has these two fields.
#[derive(Drop)]
pub struct Handle<T> {
    pub at: *mut T,
    pub alloc: Global,
    pub ghost held: { Option T } by { coded_option T.code },
}

impl<T> Model for Handle<T> {
    ghost also_owns = { λ handle. handle_owns T.row handle.alloc handle.at handle.held };
}

impl<T> Handle<T> {
    fn of_null(at: *mut T, alloc: Global) -> Handle<T>
        requires { at ≡ null_ptr }
        ensures { result.held ≡ None }
    {
        Handle { at, alloc }
    }

    fn of_parts(parts: Parts<T, Global>) -> Handle<T>
        ensures { result.held ≡ Some parts.value }
    {
        let Parts { at, alloc } = parts;
        Handle { at, alloc }
    }

    fn into_parts(self) -> Option<Parts<T, Global>>
        ensures { option_map (λ parts. parts.value) result ≡ self.held }
    {
        let Handle { at, alloc } = self;
        if at.is_null() {
            None
        } else {
            Some(Parts { at, alloc })
        }
    }

    /// No value.
    pub fn empty(alloc: Global) -> Handle<T>
        ensures { result.held ≡ None }
    {
        Handle::of_null(null(), alloc)
    }

    /// The value, if there is one.
    pub fn into_box(self) -> Option<Box<T>>
        ensures { option_map (λ value. value.value) result ≡ self.held }
    {
        let parts = self.into_parts()?;
        Some(parts.into_box())
    }
}

impl<T: Drop> Handle<T> {
    /// A value.
    pub fn full(value: Box<T>) -> Handle<T>
        ensures { result.held ≡ Some value.value }
    {
        Handle::of_parts(Parts::of(value))
    }
}

fn null<T>() -> *mut T
    ensures { result ≡ null_ptr }
{
    ptr::null_mut()
}
