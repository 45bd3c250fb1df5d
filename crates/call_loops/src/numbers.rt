//! Numbers of the command line.
ghost use Rattle.std.specs.Prelude.{◌≤◌, IfSome};

/// The number at a place, if it is one in this range.
pub fn number(words: &[String], place: usize, least: u64, most: u64) -> Option<u64>
    ensures { IfSome result (λ n. (least ≤ n) × (n ≤ most)) }
{
    let number = words.get(place)?.parse::<u64>().ok()?;
    if least <= number && number <= most {
        Some(number)
    } else {
        None
    }
}

/// The same for a small one.
pub fn small_number(words: &[String], place: usize, least: u32, most: u32) -> Option<u32>
    ensures { IfSome result (λ n. (least ≤ n) × (n ≤ most)) }
{
    let number = number(words, place, u64::from(least), u64::from(most))?;
    u32::try_from(number).ok()
}
