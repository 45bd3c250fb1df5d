//! Layers, and batches of few notes.
ghost use Rattle.std.specs.Prelude.{◌≡◌, ◌+◌, ◌-◌, ◌^◌, ◌<◌, ◌≤◌, [], length};

use crate::lines::{push_line, shown};
use crate::plans::Wanted;
use crate::tests::compare::{id, same};
use crate::tests::hooks::add_plan;
use crate::watch::Refused;
use span_id::{Fields, Level, Limits};
use span_layers::{Form, Formatting, Kind, Layers, Note};
use span_outlet::{Batch, Call, Drain, Outlet, Reply, Ring, Tap};
use std::alloc::Global;
use std::process::Abort;
use std::sync::ArcStr;

/// The forms of two layers.
pub(crate) const FORMS: [Form; 2] = [Form::Json, Form::Compact];

/// The lines that layers of these forms have of an entry that both are told of, of a call that none is told of, and of
/// an exit that both are told of, the second one first.
pub(crate) const THREE_LINES: &str =
    r#"0 0 0 {"fields":[],"id":1,"kind":"enter","path":"a","worker":0}
0 1 1 enter 1 w0 a
2 0 1 exit 1 w0 a
2 1 0 {"fields":[],"id":1,"kind":"exit","path":"a","worker":0}
"#;

/// Formatting of layers with these forms. Notes of new spans are refused memory.
pub(crate) fn formatting(rt: &impl Abort, alloc: Global, forms: &[Form]) -> Formatting {
    let mut layers = Layers::new(alloc);
    for form in forms {
        let plan = (*form, Wanted::All, "", Level::Trace);
        let at_new = Refused::At(Kind::OnNew);
        add_plan(rt, alloc, &mut layers, &plan, at_new);
    }
    layers.split().1
}

/// Both ends of a ring of so many places.
pub(crate) fn pair(rt: &impl Abort, alloc: Global, places: u32) -> (Ring, Tap)
    ensures new { result.0.sent ≡ [] }
    ensures pair { result.0.name ≡ result.1 }
{
    let limits = Limits {
        ring: places,
        ..Limits::default()
    };
    let checked = limits.check().expect(rt, "limits");
    Ring::pair(alloc, &checked).expect(rt, "memory")
}

/// A ring of so many places, and a drain of it that writes in these forms.
pub(crate) fn opened(rt: &impl Abort, alloc: Global, places: u32, forms: &[Form]) -> (Ring, Drain)
    ensures { result.0.sent ≡ [] }
{
    let (ring, tap) = pair(rt, alloc, places);
    (ring, Drain::new(alloc, tap, formatting(rt, alloc, forms)))
}

/// Sends a batch where there is room, and answers whether there was.
pub(crate) fn send<O: Outlet>(rt: &impl Abort, outlet: &mut O, batch: Batch) -> bool
    requires { length (O.sent outlet.old) < 2 ^ 64 - 1 }
    ensures sent { length (O.sent outlet.new) ≤ length (O.sent outlet.old) + 1 }
    ensures name { O.name outlet.new ≡ O.name outlet.old }
{
    let room = outlet.room().expect(rt, "memory");
    if room {
        outlet.put(batch);
    }
    room
}

/// Sends a call whose layers are told of a span with the name `a`, each in the order in which they stand here. Whether
/// there was room for its batch is what is wanted.
pub(crate) fn sends<O: Outlet>(
    rt: &impl Abort,
    alloc: Global,
    outlet: &mut O,
    call: (Kind, &[u32]),
    want: bool,
)
    requires { length (O.sent outlet.old) < 2 ^ 64 - 1 }
    ensures sent { length (O.sent outlet.new) ≤ length (O.sent outlet.old) + 1 }
    ensures name { O.name outlet.new ≡ O.name outlet.old }
{
    let (kind, layers) = call;
    let sent = send(rt, outlet, batch(rt, alloc, kind, layers));
    same(rt, (kind, sent), (kind, want), "room for a batch");
}

fn batch(rt: &impl Abort, alloc: Global, kind: Kind, layers: &[u32]) -> Batch {
    let mut notes = Vec::new(alloc);
    for layer in layers {
        let note = note(rt, alloc, kind, *layer);
        notes.push(note).expect(rt, "memory");
    }
    batch_of(rt, notes)
}

/// A batch of these notes.
pub(crate) fn batch_of(rt: &impl Abort, notes: Vec<Note>) -> Batch {
    Batch {
        call: Call::CloneSpan {
            worker: 0,
            id: id(rt, 1),
        },
        reply: Reply::Cloned,
        notes,
    }
}

fn note(rt: &impl Abort, alloc: Global, kind: Kind, layer: u32) -> Note {
    Note {
        layer,
        kind,
        worker: 0,
        id: 1,
        path: ArcStr::from_str(alloc, "a").expect(rt, "memory"),
        fields: Fields::none(),
        event: None,
    }
}

/// The lines of a drain, each with its numbers.
pub(crate) fn are_lines<V>(rt: &impl Abort, alloc: Global, drain: &Drain<V>, want: &str) {
    let lines = shown(alloc, drain.all()).expect(rt, "memory");
    same(rt, lines.as_str(), want, "all lines");
}

/// The same of the lines of one layer.
pub(crate) fn are_lines_of<V>(
    rt: &impl Abort,
    alloc: Global,
    drain: &Drain<V>,
    layer: u32,
    want: &str,
) {
    let mut all = String::new(alloc);
    for line in drain.lines(layer) {
        push_line(&mut all, line).expect(rt, "memory");
    }
    same(rt, all.as_str(), want, layer);
}
