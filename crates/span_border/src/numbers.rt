//! What C is told as a number.
ghost use Rattle.std.specs.Prelude.{◌≡◌};
ghost use Rattle.span_border.specs.Numbers.{id_number};

use span_id::Id;

/// An id as a number, 0 where there is none.
pub fn id_number(id: Option<Id>) -> u64
    ensures { result ≡ id_number id }
{
    match id {
        Some(id) => id.get(),
        None => 0,
    }
}
