//! Layers with no closures.

use crate::plans::{Plan, Wanted, plain_layers};
use crate::tests::compare::same;
use crate::tests::layers::fixtures::note;
use crate::values::meta;
use span_id::Level;
use span_layers::{Admit, Form, Forms, Rules, Say};
use std::alloc::Global;
use std::process::Abort;

static PLANS: [Plan<'static>; 2] = [
    (Form::Json, Wanted::All, "", Level::Trace),
    (Form::Compact, Wanted::All, "app", Level::Info),
];

/// A target and a level, and the bits of the layers that admit.
type Case = (&'static str, Level, u64);

static CASES: [Case; 3] = [
    ("app", Level::Info, 3),
    ("app", Level::Debug, 1),
    ("web", Level::Error, 1),
];

// Through the bound alone.
fn admit<A: Admit>(rt: &impl Abort, alloc: Global, rules: &Rules, admitters: &A, case: &Case) {
    let (target, level, want) = *case;
    let meta = meta(alloc, "a", target, level).expect(rt, "memory");
    same(rt, rules.bits(admitters, &meta).0, want, target);
}

/// The layer of a note, a form, and the text of the note.
type Told = (u32, Form, &'static str);

static TOLD: [Told; 2] = [
    (
        0,
        Form::Json,
        r#"{"fields":[["k","1"]],"id":1,"kind":"new","path":"a","worker":3}"#,
    ),
    (1, Form::Compact, "new 1 w3 a k=1"),
];

// Whether this text is said, by itself and onto a buffer.
fn say<S: Say>(rt: &impl Abort, alloc: Global, says: &S, told: &Told) {
    let (layer, form, want) = *told;
    let note = note(rt, alloc, layer);
    let text = says.say(form, &note).expect(rt, "memory");
    same(rt, text.as_slice(), want.as_bytes(), layer);
    let mut out = Vec::new(alloc);
    says.say_onto(form, &note, &mut out).expect(rt, "memory");
    same(rt, out.as_slice(), want.as_bytes(), layer);
}

// The forms of these layers, and of one that isn't there.
fn have_forms(rt: &impl Abort, forms: &Forms) {
    let found = [forms.get(0), forms.get(1), forms.get(2)];
    let want = [Some(Form::Json), Some(Form::Compact), None];
    same(rt, (forms.len(), found), (2, want), "the forms");
}

#[test]
fn layers_without_closures_admit_and_tell(rt: HostRuntime) {
    let alloc = rt.alloc();
    let (filters, formatting) = plain_layers(alloc, &PLANS).expect(&rt, "layers").split();
    for case in &CASES {
        admit(&rt, alloc, &filters.rules, &filters.admitters, case);
    }
    for told in &TOLD {
        say(&rt, alloc, &formatting.formatters, told);
    }
    have_forms(&rt, &formatting.forms);
}
