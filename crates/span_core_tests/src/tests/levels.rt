//! Up to which level a core may want something.
use crate::tests::compare::same;
use crate::tests::hooks::layers;
use crate::tests::on_a_ring::ringed;
use span_component_tests::plans::{Plan, Wanted};
use span_id::{Level, Limits};
use span_layers::Form;
use std::alloc::Global;
use std::process::Abort;

const LIMITS: Limits = Limits {
    slots: 1,
    last_generation: 0,
    max_count: 1,
    workers: 1,
    ring: 1,
};

const QUIET: Plan = (Form::Compact, Wanted::None, "app", Level::Warn);

fn max_level(rt: &impl Abort, alloc: Global, plans: &[Plan]) -> Option<Level> {
    let layers = layers(rt, alloc, plans);
    let (core, _drain) = ringed(rt, alloc, &LIMITS, layers);
    core.max_level()
}

#[test]
fn layers_want_nothing_above_their_rules(rt: HostRuntime) {
    let alloc = rt.alloc();
    same(
        &rt,
        max_level(&rt, alloc, &[]),
        Some(Level::Trace),
        "no layer",
    );
    same(
        &rt,
        max_level(&rt, alloc, &[QUIET]),
        Some(Level::Warn),
        "one layer",
    );
}
