//! The calls that share what their caller has.
ghost use Rattle.std.specs.Prelude.{◌≡◌, []};

use crate::tests::acts::Act;
use crate::tests::answers::{Answer, accepted, made};
use crate::tests::compare::id;
use crate::tests::hooks::layers;
use crate::tests::play::{ends, keeping, perform_all, push_told, written};
use span_component_tests::plans::EVERYTHING;
use span_component_tests::values::{list, meta};
use span_core::Core;
use span_id::{Fields, Level, Limits, SharedMeta};
use span_layers::{Filters, Say};
use span_outlet::{Kept, ParentOf};
use std::alloc::Global;
use std::process::Abort;
use std::sync::ArcStr;

const LIMITS: Limits = Limits {
    slots: 3,
    last_generation: 0,
    max_count: 1,
    workers: 1,
    ring: 1,
};

// What the calls share.
#[derive(Drop)]
struct Texts {
    meta: SharedMeta,
    fields: Fields,
    message: ArcStr,
}

// The calls that share.
#[derive(Clone, Copy)]
enum Way {
    // A new root with the fields, one that takes them, and one without.
    New,
    NewOwning,
    NewBare,
    Record(u64),
    Event,
}

fn shares_with(rt: &impl Abort, alloc: Global, key: &str, message: &str) -> Texts {
    let meta = meta(alloc, "a", "app", Level::Info).expect(rt, "memory");
    let fields = list(alloc, &[(key, "1")]).expect(rt, "memory");
    Texts {
        meta: SharedMeta::new(alloc, meta).expect(rt, "memory"),
        fields: Fields::new(alloc, fields).expect(rt, "memory"),
        message: ArcStr::from_str(alloc, message).expect(rt, "memory"),
    }
}

// What a core answers to a call of its first worker that shares these texts.
fn share<V: Say>(rt: &impl Abort, core: &mut Core<Kept<V>>, way: Way, texts: &Texts) -> Answer {
    if core.limits().workers == 0 {
        return Answer::NoWorker;
    }
    let (meta, fields) = (&texts.meta, &texts.fields);
    match way {
        Way::New => made(core.new_span_shared(0, meta, fields, ParentOf::Root)),
        Way::NewOwning => {
            let fields = fields.share().expect(rt, "memory");
            made(core.new_span_owning(0, meta, fields, ParentOf::Root))
        }
        Way::NewBare => made(core.new_span_shared(0, meta, &Fields::none(), ParentOf::Root)),
        Way::Record(number) => {
            let recorded = core.record_shared(0, id(rt, number), fields);
            accepted(recorded, Answer::Recorded)
        }
        Way::Event => {
            let told = core.event_shared(0, meta, &texts.message, fields);
            accepted(told, Answer::Told)
        }
    }
}

// Makes calls that share these texts: for each call first the lines of its notes, then its answer.
fn share_in_turn<V: Say>(
    rt: &impl Abort,
    alloc: Global,
    core: &mut Core<Kept<V>>,
    text: &mut Vec<u8>,
    (ways, texts): (&[Way], &Texts),
) {
    for way in ways {
        let first = core.outlet().all().len();
        let answer = share(rt, core, *way, texts);
        push_told(rt, alloc, text, (core, first), &answer);
    }
}

// Each of the calls refuses a key that is no name. Then come three spans of one meta, and records and an event of the
// same fields.
const TOLD: &str = "\
! bad name
! bad name
! bad name
! bad name
L0 new 1 w0 a k=1
= 1
L0 new 2 w0 a
= 2
L0 new 3 w0 a k=1
= 3
L0 record 1 w0 a k=1
= recorded
L0 record 2 w0 a k=1
= recorded
L0 record 2 w0 a k=1
= recorded
L0 event 0 w0 - INFO told k=1
= told
L0 close 1 w0 a k=1 k=1
= closed
L0 close 2 w0 a k=1 k=1
= closed
L0 close 3 w0 a k=1
= closed
";

static BAD_WAYS: [Way; 4] = [Way::New, Way::NewOwning, Way::Record(1), Way::Event];

static GOOD_WAYS: [Way; 7] = [
    Way::New,
    Way::NewBare,
    Way::NewOwning,
    Way::Record(1),
    Way::Record(2),
    Way::Record(2),
    Way::Event,
];

static CLOSES: [(u32, Act<'static>); 3] = [
    (0, Act::Close(1)),
    (0, Act::Close(2)),
    (0, Act::Close(3)),
];

fn tell<V: Say>(
    rt: &impl Abort,
    alloc: Global,
    filters: Filters,
    outlet: Kept<V>,
    bad: &Texts,
    good: &Texts,
)
    requires { outlet.sent ≡ [] }
{
    let mut core = keeping(rt, alloc, &LIMITS, filters, outlet);
    let mut text = Vec::new(alloc);
    share_in_turn(rt, alloc, &mut core, &mut text, (&BAD_WAYS, bad));
    share_in_turn(rt, alloc, &mut core, &mut text, (&GOOD_WAYS, good));
    perform_all(rt, alloc, &mut core, &mut text, &CLOSES);
    ends(rt, &written(core, text), TOLD, (0, 0));
}

#[test]
fn what_is_shared_is_told_and_kept(rt: HostRuntime) {
    let bad = shares_with(&rt, rt.alloc(), "no name", "");
    let good = shares_with(&rt, rt.alloc(), "k", "told");
    let (filters, formatting) = layers(&rt, rt.alloc(), &[EVERYTHING]).split();
    let outlet = Kept::new(rt.alloc(), formatting);
    tell(&rt, rt.alloc(), filters, outlet, &bad, &good);
}
