//! What the words of the command line ask for.
ghost use Rattle.std.specs.Prelude.{◌≤◌, IfSome};
ghost use Rattle.call_loops.specs.Order.{MayBeAsked};

use crate::numbers::small_number;
use crate::order::{Beside, Order, Shape};

/// The run that the words name, if they name one.
pub fn read_order(words: &[String]) -> Option<Order>
    ensures { IfSome result MayBeAsked }
{
    let kind = words.first()?;
    let numbers = &words[1..];
    match kind.as_str() {
        "core" => Some(Order::Core(read_shape(numbers)?)),
        "registry" => Some(Order::Registry(read_shape(numbers)?)),
        "storm" => {
            let (workers, rounds) = two(numbers, 16, 400)?;
            Some(Order::Storm { workers, rounds })
        }
        "chain" => Some(Order::Chain {
            length: one(numbers, 1_000_000)?,
        }),
        "slow" => {
            let (places, rounds) = two(numbers, 65536, 1_000_000)?;
            Some(Order::Beside(Beside::Slow { places, rounds }))
        }
        _ => None,
    }
}

// The only number, from 1 to its greatest value.
fn one(numbers: &[String], most: u32) -> Option<u32>
    ensures { IfSome result (λ number. (1 ≤ number) × (number ≤ most)) }
{
    if numbers.len() != 1 {
        return None;
    }
    small_number(numbers, 0, 1, most)
}

// The only two numbers, each from 1 to its greatest value.
fn two(numbers: &[String], most: u32, other_most: u32) -> Option<(u32, u32)>
    ensures one { IfSome result (λ pair. (1 ≤ pair.0) × (pair.0 ≤ most)) }
    ensures other { IfSome result (λ pair. (1 ≤ pair.1) × (pair.1 ≤ other_most)) }
{
    if numbers.len() != 2 {
        return None;
    }
    Some((
        small_number(numbers, 0, 1, most)?,
        small_number(numbers, 1, 1, other_most)?,
    ))
}

// The shape that four numbers give.
fn read_shape(numbers: &[String]) -> Option<Shape> {
    if numbers.len() != 4 {
        return None;
    }
    Some(Shape {
        layers: small_number(numbers, 0, 0, 64)?,
        fields: small_number(numbers, 1, 0, 64)?,
        depth: small_number(numbers, 2, 1, 60_000)?,
        rounds: small_number(numbers, 3, 1, 10_000_000)?,
    })
}
