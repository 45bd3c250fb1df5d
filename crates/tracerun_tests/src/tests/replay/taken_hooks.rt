//! Which hooks are called, and when: each layer takes the next ones once its line comes.
ghost use Rattle.std.specs.Prelude.{◌≡◌, [], string_bytes};
ghost use Rattle.std.specs.Result.{ForOk};
ghost use Rattle.span_layers.specs.Note.{plain_note};
ghost use Rattle.span_layers.specs.Rule.{pairs_of, is_admitted};
ghost use Rattle.span_layers.specs.Text.{text_of};

use crate::tests::compare::same;
use crate::tests::replay::fixtures::run_with;
use span_core::Core;
use span_id::{Id, Level, Limits, Meta};
use span_layers::{
    Admit, Filters, FmtSpan, Form, Hooks, Layer, Layers, MAX_LAYERS, Note, Rule, Say, Style,
    admits, text,
};
use span_outlet::{Kept, ParentOf};
use std::alloc::{AllocError, Global};
use std::process::Abort;
use std::sync::Arc;
use std::sync::atomic::{AtomicU64, Ordering};

/// The calls of some closures, in their order, as one number.
type Calls = Arc<AtomicU64, Global>;

// The factor is odd, so each call changes the number, and a later one in another way.
fn write_down(calls: &Calls, closure: u64) {
    let before = calls.load(Ordering::SeqCst);
    let next = before.wrapping_mul(1_000_003).wrapping_add(closure);
    calls.store(next, Ordering::SeqCst);
}

/// Closures that write down which of them is called. These have the next two numbers from this one on.
fn noting_hooks(rt: &impl Abort, alloc: Global, calls: &Calls, first: u64) -> Hooks {
    let admit_calls = Arc::try_clone(calls).expect(rt, "memory");
    let say_calls = Arc::try_clone(calls).expect(rt, "memory");
    let admit = Box::new(
        alloc,
        move |rule: &Rule, meta: &Meta| -> bool
            ensures { result
                ≡ is_admitted (pairs_of rule.now) (string_bytes meta.now.target) meta.now.level }
        {
            write_down(&admit_calls, first);
            admits(rule, meta)
        },
    );
    let say = Box::new(
        alloc,
        move |alloc: Global, form: Form, note: &Note| -> Result<Vec<u8>, AllocError>
            ensures { ForOk result (λ text. text.items ≡ text_of form (plain_note note.now)) }
        {
            write_down(&say_calls, first.wrapping_add(1));
            text(alloc, form, note)
        },
    );
    Hooks::new(admit.expect(rt, "memory"), say.expect(rt, "memory"))
}

fn all_hooks(rt: &impl Abort, alloc: Global, calls: &Calls, count: usize) -> Vec<Hooks> {
    let mut all = Vec::new(alloc);
    let mut first = 1u64;
    for _ in 0..count {
        let hooks = noting_hooks(rt, alloc, calls, first);
        all.push(hooks).expect(rt, "memory");
        first = first.wrapping_add(2);
    }
    all
}

/// What a layer writes and admits: its form, and the one pair of its rule. As a line of a script, and as values.
type Plan = (&'static str, Form, &'static str, Level);

/// The layers have these plans in turn.
static PLANS: [Plan; 3] = [
    ("{\"op\":\"layer\"}\n", Form::Compact, "", Level::Trace),
    (
        "{\"op\":\"layer\",\"form\":\"json\",\"rule\":[[\"app\",\"INFO\"]]}\n",
        Form::Json,
        "app",
        Level::Info,
    ),
    (
        "{\"op\":\"layer\",\"rule\":[[\"web\",\"ERROR\"]]}\n",
        Form::Compact,
        "web",
        Level::Error,
    ),
];

const CALLS: &str = r#"{"op":"new","name":"a"}
{"op":"event","message":"m"}
{"op":"new","name":"b","target":"web","level":"ERROR","parent":"a"}
{"op":"event","message":"m","target":"web","level":"ERROR"}
{"op":"close","span":"a"}
{"op":"close","span":"b"}
"#;

fn script_of(rt: &impl Abort, alloc: Global, lines: usize) -> String {
    let mut script = String::new(alloc);
    for number in 0..lines {
        let (line, ..) = PLANS[number % PLANS.len()];
        script.push_str(line).expect(rt, "memory");
    }
    script.push_str(CALLS).expect(rt, "memory");
    script
}

// ---- the same calls, with each layer taking the last of the hooks that are left, which come in reverse

fn layer_of(rt: &impl Abort, alloc: Global, number: usize, hooks: Hooks) -> Layer {
    let (_, form, prefix, level) = PLANS[number % PLANS.len()];
    let prefix = String::from_str(alloc, prefix).expect(rt, "memory");
    let mut pairs = Vec::new(alloc);
    pairs.push((prefix, level)).expect(rt, "memory");
    let spans = FmtSpan::FULL;
    Layer {
        style: Style { form, spans },
        rule: Rule { pairs },
        hooks,
    }
}

// Adds a layer with the next hooks, where there are some left and the layers are fewer than 64, and answers whether it
// was added.
fn add_layer(
    rt: &impl Abort,
    alloc: Global,
    layers: &mut Layers,
    added: usize,
    hooks: &mut Vec<Hooks>,
) -> bool {
    if added >= MAX_LAYERS {
        return false;
    }
    let Some(next) = hooks.pop() else {
        return false;
    };
    layers.add(layer_of(rt, alloc, added, next)).is_ok()
}

fn layers_with(rt: &impl Abort, alloc: Global, mut hooks: Vec<Hooks>, lines: usize) -> Layers {
    hooks.reverse();
    let mut layers = Layers::new(alloc);
    let mut added = 0usize;
    for _ in 0..lines {
        if add_layer(rt, alloc, &mut layers, added, &mut hooks) {
            added = added.saturating_add(1);
        }
    }
    layers
}

fn meta(rt: &impl Abort, alloc: Global, name: &str, target: &str, level: Level) -> Meta {
    Meta {
        name: String::from_str(alloc, name).expect(rt, "memory"),
        target: String::from_str(alloc, target).expect(rt, "memory"),
        level,
    }
}

fn new_span<V: Say, A: Admit>(
    rt: &impl Abort,
    core: &mut Core<Kept<V>, A>,
    meta: &Meta,
    parent: ParentOf,
) -> Id {
    assert!(rt; core.limits().workers > 0);
    let made = core.new_span(0, meta, &[], parent).expect(rt, "a span");
    made.expect(rt, "a wanted span")
}

fn tell<V: Say, A: Admit>(rt: &impl Abort, core: &mut Core<Kept<V>, A>, meta: &Meta) {
    assert!(rt; core.limits().workers > 0);
    core.event(0, meta, "m", &[]).expect(rt, "an event");
}

fn close<V: Say, A: Admit>(rt: &impl Abort, core: &mut Core<Kept<V>, A>, id: Id) {
    assert!(rt; core.limits().workers > 0);
    let _ = core.try_close(0, id).expect(rt, "a handle");
}

fn make_calls<V: Say, A: Admit>(rt: &impl Abort, alloc: Global, core: &mut Core<Kept<V>, A>) {
    let app = meta(rt, alloc, "a", "app", Level::Info);
    let web = meta(rt, alloc, "b", "web", Level::Error);
    let a = new_span(rt, core, &app, ParentOf::Root);
    tell(rt, core, &meta(rt, alloc, "event", "app", Level::Info));
    let b = new_span(rt, core, &web, ParentOf::Of(a));
    tell(rt, core, &meta(rt, alloc, "event", "web", Level::Error));
    close(rt, core, a);
    close(rt, core, b);
}

fn calls_on_core<V: Say>(rt: &impl Abort, alloc: Global, filters: Filters, outlet: Kept<V>)
    requires { outlet.sent ≡ [] }
{
    let checked = Limits::default().check().expect(rt, "limits");
    let core = Core::new(alloc, &checked, filters, outlet);
    let mut core = core.expect(rt, "memory");
    make_calls(rt, alloc, &mut core);
}

// ---- both

/// The calls of the hooks by a run, and by the same calls on a core.
fn compare(rt: &impl Abort, alloc: Global, count: usize, lines: usize) {
    let calls = Arc::new(alloc, AtomicU64::new(0)).expect(rt, "memory");
    let hooks = all_hooks(rt, alloc, &calls, count);
    let layers = layers_with(rt, alloc, hooks, lines);
    let (filters, formatting) = layers.split();
    calls_on_core(rt, alloc, filters, Kept::new(alloc, formatting));
    let want = calls.swap(0, Ordering::SeqCst);
    ran(rt, alloc, &calls, count, lines);
    let called = calls.load(Ordering::SeqCst);
    same(rt, (lines, called), (lines, want), count);
}

// A run with so many hooks and so many lines that add a layer.
fn ran(rt: &impl Abort, alloc: Global, calls: &Calls, count: usize, lines: usize) {
    let hooks = all_hooks(rt, alloc, calls, count);
    let script = script_of(rt, alloc, lines);
    let mut taken = Vec::new(alloc);
    let ran = run_with(rt, alloc, script.as_bytes(), &mut taken, hooks);
    same(rt, ran.end.as_str(), "0", count);
}

static COUNTS: [usize; 8] = [0, 1, 2, 3, 63, 64, 65, 70];

#[test]
fn each_layer_calls_the_hooks_that_it_takes(rt: HostRuntime) {
    for count in COUNTS {
        compare(&rt, rt.alloc(), count, count);
        compare(&rt, rt.alloc(), count, count.saturating_add(1));
        compare(&rt, rt.alloc(), count, count / 2);
    }
}
