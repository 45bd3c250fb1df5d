//! The most verbose level that the rules of layers name, and that the pairs of a rule do, and which layers want a kind
//! of notes.

use crate::plans::{Plan, Wanted, plain_layers, rule};
use crate::tests::compare::same;
use span_id::Level;
use span_layers::{Form, Kind};
use std::alloc::Global;
use std::process::Abort;

const QUIET: Plan<'static> = (Form::Json, Wanted::None, "app", Level::Error);

const LOUD: Plan<'static> = (Form::Compact, Wanted::All, "app.db", Level::Debug);

// Layers, the level that they name, and the bits of those that want notes of new spans.
type Case = (&'static [Plan<'static>], Option<Level>, u64);

static LAYERS: [Case; 4] = [
    (&[], None, 0),
    (&[QUIET], Some(Level::Error), 0),
    (&[LOUD, QUIET], Some(Level::Debug), 1),
    (&[QUIET, LOUD], Some(Level::Debug), 2),
];

fn layers_name(rt: &impl Abort, alloc: Global, case: &Case) {
    let (plans, level, wanting) = *case;
    let (filters, _) = plain_layers(alloc, plans).expect(rt, "layers").split();
    let rules = &filters.rules;
    let found = (rules.max_level(), rules.wanting(Kind::OnNew).0);
    same(rt, found, (level, wanting), plans.len());
}

const THREE: &[(&str, Level)] = &[("a", Level::Warn), ("b", Level::Trace), ("b", Level::Info)];

static PAIRS: [(&[(&str, Level)], Option<Level>); 2] = [(&[], None), (THREE, Some(Level::Trace))];

fn pairs_name(rt: &impl Abort, alloc: Global, pairs: &[(&str, Level)], want: Option<Level>) {
    let rule = rule(alloc, pairs).expect(rt, "memory");
    same(rt, rule.max_level(), want, pairs.len());
}

#[test]
fn the_most_verbose_level_is_named(rt: HostRuntime) {
    for case in &LAYERS {
        layers_name(&rt, rt.alloc(), case);
    }
    for (pairs, want) in &PAIRS {
        pairs_name(&rt, rt.alloc(), pairs, *want);
    }
}
