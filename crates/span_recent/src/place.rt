ghost use Rattle.std.specs.Prelude.{◌<◌};

/// How many places there are.
pub(crate) const PLACES: usize = 64;

// How many bytes at the end of a text tell its place.
const LAST: usize = 6;

// The place of a text: equal texts have the same one.
pub(crate) fn place_of(bytes: &[u8]) -> usize
    ensures { result < 64 }
{
    let tail = &bytes[bytes.len().saturating_sub(LAST)..];
    let mut mixed = bytes.len() as u64;
    for byte in tail {
        mixed = mixed.wrapping_mul(31).wrapping_add(u64::from(*byte));
    }
    let folded = mixed ^ (mixed >> 6) ^ (mixed >> 12);
    (folded % PLACES as u64) as usize
}
