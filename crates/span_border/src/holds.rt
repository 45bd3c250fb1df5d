//! What the structs that C passes have in common.
ghost use Rattle.std.specs.Prelude.{◌≡◌, Some, None, Option, is_some, is_none, if◌then◌else◌};
ghost use Rattle.std.specs.Option.{option_map};

use crate::handle::Handle;
use crate::status::Status;
use std::alloc::Global;
use std::mem;

/// A struct of C that holds a `T`, or none.
pub trait Holds<T: Drop>: Sized + Drop {
    ghost held: { Self → Option T };

    /// The struct that holds none.
    fn none(alloc: Global) -> Self
        ensures { held result ≡ None };

    /// The handle of what it holds.
    fn into_handle(self) -> Handle<T>
        ensures { result.held ≡ held self };

    /// Holds a value from now on, where it held none.
    fn put(&mut self, value: Box<T>)
        requires { held self.old ≡ None }
        ensures { held self.new ≡ Some value.value };

    /// Takes the value out, if there is one: nothing is held then.
    fn take(&mut self, alloc: Global) -> Option<Box<T>>
        ensures value { option_map (λ value. value.value) result ≡ held self.old }
        ensures empty { held self.new ≡ None }
    {
        let taken = mem::replace(self, Self::none(alloc));
        taken.into_handle().into_box()
    }

    /// Whether it holds none. It stays as it is.
    fn is_empty(&mut self, alloc: Global) -> bool
        ensures empty { result ≡ is_none (held self.old) }
        ensures same { held self.new ≡ held self.old }
    {
        let Some(value) = self.take(alloc) else {
            return true;
        };
        self.put(value);
        false
    }

    /// Gives the value and its memory up: nothing is held then.
    fn free(&mut self, alloc: Global) -> Status
        ensures status { result ≡ (if is_some (held self.old) then Status.Done else Status.EmptyHandle) }
        ensures empty { held self.new ≡ None }
    {
        let Some(value) = self.take(alloc) else {
            return Status::EmptyHandle;
        };
        drop(value);
        Status::Done
    }
}
