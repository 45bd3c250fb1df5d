//! The numbers of a text.
ghost use Rattle.std.specs.Prelude.{◌≡◌, ◌==◌, slice_index, IfSome, Some};
ghost use Rattle.std.specs.Option.{option_map};
ghost use Rattle.serde_json.specs.Data.{unsigned};
ghost use Rattle.serde_json.specs.Find.{of_float};
ghost use Rattle.serde_json.specs.Read.{number_of, number_from};
ghost use Rattle.span_json.specs.Seen.{number_view};

use crate::value::Number;
use fast_float::{Numeral, parse_u64};

// A number below 2^64 has no more digits, but for zeros before them.
const MOST_DIGITS: usize = 20;

/// The value of a number, if it is in range: an integer of 64 bits where it is written as one, else the nearest float,
/// which has to be finite.
#[inline(always)]
pub(crate) fn read_number(text: &str) -> Option<Number>
    ensures { option_map number_view result ≡ number_of text.now }
{
    match read_whole(text.as_bytes()) {
        Some(whole) => Some(Number::Whole(whole)),
        None => read_other(text),
    }
}

// The value of a number that is written in digits alone, as most are, and is below 2^64.
#[inline(always)]
fn read_whole(bytes: &[u8]) -> Option<u64>
    ensures { IfSome result (λ whole. number_of bytes.now ≡ Some (unsigned whole)) }
{
    // (`parse_u64` lets a plus stand first)
    if bytes.is_empty() || bytes.len() > MOST_DIGITS || bytes[0] == b'+' {
        return None;
    }
    match parse_u64(bytes) {
        Ok(whole) => Some(whole),
        Err(_) => None,
    }
}

// The value of any other number.
#[inline(never)]
fn read_other(text: &str) -> Option<Number>
    ensures { option_map number_view result ≡ number_of text.now }
{
    let bytes = text.as_bytes();
    let is_below_zero = begins_with_minus(bytes);
    let digits = &bytes[usize::from(is_below_zero)..];
    value_of(&Numeral::scan(digits), is_below_zero)
}

#[inline(always)]
fn begins_with_minus(bytes: &[u8]) -> bool
    ensures { result ≡ (slice_index bytes.now 0 == 45) }
{
    !bytes.is_empty() && bytes[0] == b'-'
}

// The value of digits, below zero or not. Zero below zero is no integer.
#[inline(always)]
fn value_of(digits: &Numeral<'_>, is_below_zero: bool) -> Option<Number>
    ensures { option_map number_view result ≡ number_from is_below_zero digits.now }
{
    if !is_below_zero {
        return match digits.to_u64() {
            Some(whole) => Some(Number::Whole(whole)),
            None => if_finite(digits.to_float(false)),
        };
    }
    match digits.to_i64(true) {
        Some(integer) if integer != 0 => Some(Number::Negative(integer)),
        _ => if_finite(digits.to_float(true)),
    }
}

fn if_finite(nearest: f64) -> Option<Number>
    ensures { option_map number_view result ≡ of_float nearest }
{
    nearest.is_finite().then(|| Number::Float(nearest))
}
