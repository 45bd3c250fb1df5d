//! What the items of a slice were, for clauses to read.
#![tactic(auto)]

ghost use Rattle.std.specs.Prelude.{◌≡◌, List};
ghost use Rattle.std.specs.Borrow.{ftrue};

use std::marker::{Model, PhantomData};

/// The items of a slice as clauses see them. It has no bytes and owns nothing.
#[derive(Drop)]
pub struct KnownItems<T> {
    marker: PhantomData<T>,
    pub ghost items: { List T },
}

impl<T> Model for KnownItems<T> {
    ghost also_owns = { λ _. ftrue };
}

unsafe impl<T> Send for KnownItems<T> {}

unsafe impl<T> Sync for KnownItems<T> {}

impl<T> KnownItems<T> {
    /// The items that `items` shows.
    pub fn of(items: &[T]) -> KnownItems<T>
        ensures { result.items ≡ items.now }
    {
        let _ = items;
        KnownItems {
            marker: PhantomData,
        }
    }
}

/// A value as clauses see it. It has no bytes and owns nothing, so it may go to any thread, whatever it is of.
#[derive(Drop)]
pub struct KnownValue<T> {
    marker: PhantomData<T>,
    pub ghost value: { T },
}

impl<T> Model for KnownValue<T> {
    ghost also_owns = { λ _. ftrue };
}

unsafe impl<T> Send for KnownValue<T> {}

unsafe impl<T> Sync for KnownValue<T> {}

impl<T> KnownValue<T> {
    /// What `value` shows.
    pub fn of(value: &T) -> KnownValue<T>
        ensures { result.value ≡ value.now }
    {
        let _ = value;
        KnownValue {
            marker: PhantomData,
        }
    }
}
