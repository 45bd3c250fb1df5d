//! Which closures are called, and how often. Hooks and what is made of them go from thread to thread.
use crate::plans::{Wanted, add};
use crate::tests::compare::{crosses_threads, same};
use crate::tests::hooks::hooks;
use crate::tests::layers::fixtures::{admission, note, tells};
use crate::watch::{Noting, Refused, Watch};
use span_id::{Fault, Level};
use span_layers::{Filters, Form, Formatting, Kind, Layers, Say};
use std::alloc::Global;
use std::process::Abort;

/// No call yet: closures write down a digit at each, the last call's last. These texts are refused memory.
pub(crate) fn no_calls(rt: &impl Abort, alloc: Global, refused: Refused) -> Watch {
    Watch::new(alloc, Noting::Nothing, refused).expect(rt, "memory")
}

/// The two digits of a layer's closures: what `admit` writes down, and what `say` does.
pub(crate) type Digits = (u64, u64);

/// Layers of these forms that admit targets that begin with `app`, and whose closures write down these digits.
pub(crate) fn noting_layers(
    rt: &impl Abort,
    alloc: Global,
    calls: &Watch,
    layers: &[(Form, Digits)],
) -> (Filters, Formatting) {
    let mut made = Layers::new(alloc);
    for (form, (of_rule, of_note)) in layers {
        let noting = Noting::Digits(*of_rule, *of_note);
        let watch = calls.with(noting).expect(rt, "memory");
        let hooks = crosses_threads(hooks(rt, alloc, &watch));
        let plan = (*form, Wanted::All, "app", Level::Info);
        add(alloc, &mut made, &plan, hooks).expect(rt, "a layer");
    }
    made.split()
}

/// The form of each layer, and the digits of its closures.
static TWO: [(Form, Digits); 2] = [(Form::Compact, (1, 2)), (Form::Json, (3, 4))];

fn two_layers(rt: &impl Abort, alloc: Global, calls: &Watch) -> (Filters, Formatting) {
    noting_layers(rt, alloc, calls, &TWO)
}

#[test]
fn each_layer_is_asked_once(rt: HostRuntime) {
    let alloc = rt.alloc();
    let calls = no_calls(&rt, alloc, Refused::None);
    let (filters, _) = two_layers(&rt, alloc, &calls);
    let filters = crosses_threads(filters);
    same(&rt, calls.taken(), 0, "no call");
    asks_each(&rt, alloc, &calls, &filters);
}

fn asks_each(rt: &impl Abort, alloc: Global, calls: &Watch, filters: &Filters) {
    for (target, want) in &[("app", 3), ("web", 0)] {
        let bits = admission(rt, alloc, filters, target, Level::Info);
        same(rt, bits.0, *want, *target);
        same(rt, calls.taken(), 13, *target);
    }
}

#[test]
fn a_layer_writes_its_own_notes(rt: HostRuntime) {
    let alloc = rt.alloc();
    let calls = no_calls(&rt, alloc, Refused::At(Kind::OnExit));
    let (_, formatting) = two_layers(&rt, alloc, &calls);
    let formatting = crosses_threads(formatting);
    asks_one(&rt, alloc, &calls, &formatting);
    asks_none(&rt, alloc, &formatting.formatters);
    same(&rt, calls.taken(), 0, "no call");
    is_refused(&rt, alloc, &formatting);
}

const COMPACT: &str = "new 1 w3 a k=1";

const JSON: &str = r#"{"fields":[["k","1"]],"id":1,"kind":"new","path":"a","worker":3}"#;

/// The layer that is asked, its text, and the digit that is written down.
static ASKED: [(u32, &str, u64); 4] = [
    (0, COMPACT, 2),
    (1, JSON, 4),
    (1, JSON, 4),
    (0, COMPACT, 2),
];

fn asks_one(rt: &impl Abort, alloc: Global, calls: &Watch, formatting: &Formatting) {
    for (layer, want, digit) in &ASKED {
        tells(rt, alloc, formatting, *layer, want);
        same(rt, calls.taken(), *digit, *layer);
    }
}

// A note to a layer that isn't there is written by no closure.
fn asks_none<S: Say>(rt: &impl Abort, alloc: Global, formatters: &S) {
    let note = note(rt, alloc, u32::MAX);
    let text = formatters.say(Form::Compact, &note).expect(rt, "memory");
    same(rt, text.as_slice(), COMPACT.as_bytes(), "no layer");
}

// A text that the layer's closure was refused memory for is `Memory`.
fn is_refused(rt: &impl Abort, alloc: Global, formatting: &Formatting) {
    let mut note = note(rt, alloc, 0);
    note.kind = Kind::OnExit;
    assert!(rt; (note.layer as usize) < formatting.len());
    same(
        rt,
        formatting.say(&note).err(),
        Some(Fault::Memory),
        "a note",
    );
}
