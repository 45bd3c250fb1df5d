//! Which hooks the layers of a run call.
use crate::tests::compare::same;
use crate::tests::replay::fixtures::{hooks, run_with};
use span_layers::Hooks;
use std::alloc::Global;
use std::process::Abort;

const ONE_LAYER: &str =
    "{\"op\":\"layer\"}\n{\"op\":\"new\",\"name\":\"a\"}\n{\"op\":\"close\",\"span\":\"a\"}\n";

const TWO_LAYERS: &str =
    "{\"op\":\"layer\"}\n{\"op\":\"layer\"}\n{\"op\":\"new\",\"name\":\"a\"}\n{\"op\":\"close\",\"span\":\"a\"}\n";

/// A layer's formatter has memory.
const HAS_MEMORY: bool = true;

/// It never has any.
pub(crate) const HAS_NONE: bool = false;

/// Hooks for each layer in turn, whose formatter has memory or never any.
pub(crate) fn hooks_of(rt: &impl Abort, alloc: Global, formatters: &[bool]) -> Vec<Hooks> {
    let mut all = Vec::new(alloc);
    for has_memory in formatters {
        let hooks = hooks(rt, alloc, *has_memory);
        all.push(hooks).expect(rt, "memory");
    }
    all
}

/// A script, the hooks of its layers, what a run with them writes, and how it ends.
type Row = (&'static str, &'static [bool], &'static str, &'static str);

fn runs(rt: &impl Abort, alloc: Global, row: &Row) {
    let (script, formatters, text, end) = *row;
    let hooks = hooks_of(rt, alloc, formatters);
    let mut taken = Vec::new(alloc);
    let ran = run_with(rt, alloc, script.as_bytes(), &mut taken, hooks);
    let ended = (taken.as_slice(), ran.end.as_str());
    same(rt, ended, (text.as_bytes(), end), script);
}

/// Hooks whose formatter never has memory.
const NO_MEMORY: Row = (ONE_LAYER, &[HAS_NONE], "= layer 0\n", "out of memory");

#[test]
fn a_formatter_without_memory_ends_the_run(rt: HostRuntime) {
    runs(&rt, rt.alloc(), &NO_MEMORY);
}

/// With hooks for two layers.
static IN_ORDER: [Row; 2] = [
    (
        ONE_LAYER,
        &[HAS_MEMORY, HAS_NONE],
        "= layer 0\nL0 new 1 w0 a\n= 1\nL0 close 1 w0 a\n= closed\nleft 0\n",
        "0",
    ),
    (
        TWO_LAYERS,
        &[HAS_MEMORY, HAS_NONE],
        "= layer 0\n= layer 1\n",
        "out of memory",
    ),
];

#[test]
fn layers_take_the_hooks_in_their_order(rt: HostRuntime) {
    for row in &IN_ORDER {
        runs(&rt, rt.alloc(), row);
    }
}

/// With hooks for one layer.
const TOO_FEW: Row = (
    TWO_LAYERS,
    &[HAS_MEMORY],
    "= layer 0\n! too many layers\nL0 new 1 w0 a\n= 1\nL0 close 1 w0 a\n= closed\nleft 0\n",
    "0",
);

#[test]
fn no_layer_is_there_without_hooks(rt: HostRuntime) {
    runs(&rt, rt.alloc(), &TOO_FEW);
}
