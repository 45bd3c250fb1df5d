//! When hooks are dropped. Those that no layer took go before the first call of the script, or at a fault before it, the
//! last one first. After a fault those of the layers go next: what writes their notes, then what applies their rules.
ghost use Rattle.std.specs.Prelude.{◌≡◌, string_bytes};
ghost use Rattle.std.specs.Result.{ForOk};
ghost use Rattle.span_layers.specs.Note.{plain_note};
ghost use Rattle.span_layers.specs.Rule.{pairs_of, is_admitted};
ghost use Rattle.span_layers.specs.Text.{text_of};

use crate::tests::compare::same;
use span_id::Meta;
use span_layers::{Form, Hooks, Note, Rule, admits, text};
use span_replay::{Remains, replay};
use span_run::Counted;
use std::alloc::{AllocError, Global};
use std::process::Abort;
use std::sync::Arc;
use std::sync::atomic::{AtomicU64, Ordering};

/// What happened to some closures, as the digits of one number, the first of them in front.
type Log = Arc<AtomicU64, Global>;

/// The digit of calls that follow one another.
const CALLED: u64 = 9;

// Writes a digit behind the others.
fn write_down(log: &Log, digit: u64) {
    let before = log.load(Ordering::SeqCst);
    let next = before.wrapping_mul(10).wrapping_add(digit);
    log.store(next, Ordering::SeqCst);
}

/// What a closure owns. It writes its digit down as it is dropped.
struct Owned {
    log: Log,
    digit: u64,
}

impl Drop for Owned {
    fn drop(self) {
        let Owned { log, digit } = self;
        write_down(&log, digit);
    }
}

impl Owned {
    fn new(rt: &impl Abort, log: &Log, digit: u64) -> Owned {
        Owned {
            log: Arc::try_clone(log).expect(rt, "memory"),
            digit,
        }
    }

    // Writes a call down, but for one that follows another.
    fn called(&self) {
        if self.log.load(Ordering::SeqCst) % 10 != CALLED {
            write_down(&self.log, CALLED);
        }
    }
}

/// Hooks whose closures own this digit and the next one.
fn owning_hooks(rt: &impl Abort, alloc: Global, log: &Log, digit: u64) -> Hooks {
    let of_admit = Owned::new(rt, log, digit);
    let of_say = Owned::new(rt, log, digit.wrapping_add(1));
    let admit = Box::new(
        alloc,
        move |rule: &Rule, meta: &Meta| -> bool
            ensures { result
                ≡ is_admitted (pairs_of rule.now) (string_bytes meta.now.target) meta.now.level }
        {
            of_admit.called();
            admits(rule, meta)
        },
    );
    let say = Box::new(
        alloc,
        move |alloc: Global, form: Form, note: &Note| -> Result<Vec<u8>, AllocError>
            ensures { ForOk result (λ text. text.items ≡ text_of form (plain_note note.now)) }
        {
            of_say.called();
            text(alloc, form, note)
        },
    );
    Hooks::new(admit.expect(rt, "memory"), say.expect(rt, "memory"))
}

/// The first hooks have the digits 1 and 2, the second ones 3 and 4, and so on.
fn all_hooks(rt: &impl Abort, alloc: Global, log: &Log, count: usize) -> Vec<Hooks> {
    let mut all = Vec::new(alloc);
    let mut digit = 1u64;
    for _ in 0..count {
        let hooks = owning_hooks(rt, alloc, log, digit);
        all.push(hooks).expect(rt, "memory");
        digit = digit.wrapping_add(2);
    }
    all
}

const NO_LAYER: &str = r#"{"op":"new","name":"a"}
{"op":"close","span":"a"}
"#;

const ONE_LAYER: &str = r#"{"op":"layer"}
{"op":"new","name":"a"}
{"op":"close","span":"a"}
"#;

const TWO_LAYERS: &str = r#"{"op":"layer"}
{"op":"layer"}
{"op":"new","name":"a"}
{"op":"close","span":"a"}
"#;

const FAULT: &str = "{}\n";

const ONE_LAYER_THEN_FAULT: &str = r#"{"op":"layer"}
{}
"#;

const TWO_LAYERS_THEN_FAULT: &str = r#"{"op":"layer"}
{"op":"layer"}
{}
"#;

const FAULT_AFTER_A_CALL: &str = r#"{"op":"layer"}
{"op":"layer"}
{"op":"new","name":"a"}
{}
"#;

/// A script, how many hooks there are, how many spans it leaves open where it has no fault, and what is written down of
/// the hooks.
type Row = (&'static str, usize, Option<u64>, u64);

// Where a script has no fault the hooks that layers took are left at the end, so none of them is dropped.
static ROWS: [Row; 8] = [
    (NO_LAYER, 2, Some(0), 3412),
    (ONE_LAYER, 3, Some(0), 56349),
    (TWO_LAYERS, 2, Some(0), 9),
    (FAULT, 2, None, 3412),
    (ONE_LAYER_THEN_FAULT, 3, None, 563421),
    (TWO_LAYERS_THEN_FAULT, 2, None, 2413),
    (TWO_LAYERS_THEN_FAULT, 4, None, 78562413),
    (FAULT_AFTER_A_CALL, 3, None, 5692413),
];

fn drops(rt: &impl Abort, alloc: Global, row: &Row) {
    let (script, count, left, want) = *row;
    let log = Arc::new(alloc, AtomicU64::new(0)).expect(rt, "memory");
    let hooks = all_hooks(rt, alloc, &log, count);
    let mut input = Counted::new(script.as_bytes());
    let mut output = Counted::new(Vec::<u8>::new(alloc));
    let ended = replay(alloc, &mut input, &mut output, hooks, Remains::Left);
    same(rt, ended.ok(), left, script);
    same(rt, log.load(Ordering::SeqCst), want, script);
}

#[test]
fn hooks_are_dropped_in_this_order(rt: HostRuntime) {
    for row in &ROWS {
        drops(&rt, rt.alloc(), row);
    }
}
