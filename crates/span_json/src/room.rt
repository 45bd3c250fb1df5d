//! How deep a text may nest, and the room that its objects get.
ghost use Rattle.std.specs.Prelude.{◌≡◌, [], IfOk};

use crate::value::Value;
use std::alloc::{AllocError, Global};

/// How deep lists and objects may nest.
pub(crate) const MAX_DEPTH: usize = 127;

// How deep they may nest inside of the outermost one.
const INSIDE: usize = MAX_DEPTH - 1;

// For how many members the outermost object has room at first, which a line of a script seldom passes.
const FEW: usize = 8;

/// Where the members of an object go. An outermost one, of which there is one in a line, has room for a few at once.
#[inline(always)]
pub(crate) fn room<'t>(alloc: Global, depth: usize) -> Result<Vec<(&'t str, Value<'t>)>, AllocError>
    ensures { IfOk result (λ members. members.items ≡ []) }
{
    if depth < INSIDE {
        return Ok(Vec::new(alloc));
    }
    Vec::with_capacity(alloc, FEW)
}
