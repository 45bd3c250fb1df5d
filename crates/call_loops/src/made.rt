//! A run with its layers.
ghost use Rattle.std.specs.Prelude.{◌≡◌, ◌≤◌, string_bytes};
ghost use Rattle.std.specs.Result.{ForOk};
ghost use Rattle.span_layers.specs.Note.{plain_note};
ghost use Rattle.span_layers.specs.Rule.{pairs_of, is_admitted};
ghost use Rattle.span_layers.specs.Text.{text_of};
ghost use Rattle.call_loops.specs.Order.{MayBeAsked};

use crate::call_costs::chain::chain;
use crate::call_costs::core_loop::calls_on_core;
use crate::call_costs::registry_loop::calls_on_registry;
use crate::call_costs::slow_reader::beside_a_slow_reader;
use crate::ended::{Ended, Made};
use crate::layers::{add, plain, write};
use crate::order::{Beside, Order};
use crate::soak::soaked::soak;
use span_id::{Fault, Meta};
use span_layers::{Form, Hooks, Layers, Note, Rule, Style, admits};
use span_storm::{Open, storm};
use std::alloc::{AllocError, Global};
use std::sync::Wait;
use std::thread::Threads;
use std::time::Clock;

/// Makes a run. Its layers admit everything; only those beside a reader have closures, and a storm has no layer.
pub fn make<R: Threads + Wait + Clock + Sync>(
    rt: &R,
    alloc: Global,
    order: &Order,
) -> Result<Made, Fault>
    requires { MayBeAsked order.now }
{
    let style = Style {
        form: Form::Compact,
        spans: order.spans(),
    };
    match order {
        Order::Core(shape) => calls_on_core(alloc, shape, plain(alloc, shape.layers, style)?),
        Order::Registry(shape) => {
            calls_on_registry(rt, alloc, shape, plain(alloc, shape.layers, style)?)
        }
        Order::Storm { workers, rounds } => in_a_storm(rt, alloc, *workers, *rounds),
        Order::Chain { length } => chain(alloc, *length, plain(alloc, 1, style)?),
        Order::Beside(beside) => numbers_of(with_closures(rt, alloc, beside, style)),
    }
}

// The run beside a reader, whose layer has closures. Their contracts are what `Hooks::new` asks for.
fn with_closures<R: Threads + Wait + Clock + Sync>(
    rt: &R,
    alloc: Global,
    beside: &Beside,
    style: Style,
) -> Result<Ended, Fault>
    requires { MayBeAsked (Order.Beside beside.now) }
{
    let more = beside.more();
    let mut layers = Layers::new(alloc);
    let admit = Box::new(
        alloc,
        |rule: &Rule, meta: &Meta| -> bool
            ensures { result
                ≡ is_admitted (pairs_of rule.now) (string_bytes meta.now.target) meta.now.level }
        { admits(rule, meta) },
    )?;
    let say = Box::new(
        alloc,
        move |alloc: Global, form: Form, note: &Note| -> Result<Vec<u8>, AllocError>
            ensures { ForOk result (λ text. text.items ≡ text_of form (plain_note note.now)) }
        { write(alloc, form, note, more) },
    )?;
    add(alloc, &mut layers, style, Hooks::new(admit, say))?;
    match beside {
        Beside::Slow { places, rounds } => {
            beside_a_slow_reader(rt, alloc, *places, *rounds, layers)
        }
        Beside::Soak(crew) => soak(rt, alloc, crew, layers),
    }
}

// A storm without layers.
fn in_a_storm<R: Threads + Wait + Sync>(
    rt: &R,
    alloc: Global,
    workers: u32,
    rounds: u32,
) -> Result<Made, Fault>
    requires { (1 ≤ workers) × (workers ≤ 16) × (1 ≤ rounds) × (rounds ≤ 400) }
{
    let layers: Layers = Layers::new(alloc);
    match storm(rt, alloc, workers, rounds, layers, &Open) {
        Ok(report) => Ok(Made {
            calls: report.calls,
            ..Made::NONE
        }),
        Err(_) => Err(Fault::Memory),
    }
}

fn numbers_of(ended: Result<Ended, Fault>) -> Result<Made, Fault> {
    Ok(ended?.made())
}
