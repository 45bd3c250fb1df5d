//! What goes into a buffer of C.
ghost use Rattle.std.specs.Prelude.{◌≡◌, ◌≤◌, ◌++◌, drop, length, map};
ghost use Rattle.span_border.specs.Buffers.{WritesAll};

use crate::status::Status;
use span_id::Id;

/// What stands for an `S` in C: a number, or a struct of numbers.
pub trait InC<S>: Copy {
    ghost in_c: { S → Self };

    /// What stands for this one.
    fn to_c(thing: &S) -> Self
        ensures { result ≡ in_c thing.now };
}

impl InC<Id> for u64 {
    ghost in_c = { λ id. id };

    fn to_c(id: &Id) -> u64 {
        id.get()
    }
}

// Copies things to the beginning of a buffer that has room for them.
fn copy_front<T: Copy>(things: &[T], into: &mut [T])
    requires { length things.now ≤ length into.old }
    ensures { into.new ≡ things.now ++ drop (length things.now) into.old }
{
    into[..things.len()].copy_from_slice(things);
}

// Copies what stands for things in C to the beginning of a buffer that has room for it.
fn copy_in_c<S, T: InC<S>>(things: &[S], into: &mut [T])
    requires { length things.now ≤ length into.old }
    ensures { into.new ≡ map T.in_c things.now ++ drop (length things.now) into.old }
{
    for (place, thing) in things.iter().enumerate() {
        into[place] = T::to_c(thing);
    }
}

/// Writes things to the beginning of a buffer, and tells how many they are. Where the buffer is too short for them, it
/// only tells how many they are.
pub fn write_all<T: Copy>(things: &[T], into: &mut [T], len: &mut usize) -> Status
    ensures { WritesAll things.now into.old result into.new len.new }
{
    *len = things.len();
    if things.len() > into.len() {
        return Status::ShortBuffer;
    }
    copy_front(things, into);
    Status::Done
}

/// Writes what stands for things in C, as `write_all` writes things.
pub fn write_in_c<S, T: InC<S>>(things: &[S], into: &mut [T], len: &mut usize) -> Status
    ensures { WritesAll (map T.in_c things.now) into.old result into.new len.new }
{
    *len = things.len();
    if things.len() > into.len() {
        return Status::ShortBuffer;
    }
    copy_in_c(things, into);
    Status::Done
}

/// Writes ids as numbers, as `write_all` writes things.
#[tactic(auto, using(crate::proofs::Ids::same_ids))]
pub fn write_ids(ids: &[Id], into: &mut [u64], len: &mut usize) -> Status
    ensures { WritesAll ids.now into.old result into.new len.new }
{
    write_in_c(ids, into, len)
}
