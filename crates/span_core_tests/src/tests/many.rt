//! Many events, whose fields have short and long values by turns, paths about the longest that is remembered, and a long
//! chain, over a ring: each call is accepted, and no note is missed.
use crate::tests::acts::{Act, Calls, Ids};
use crate::tests::compare::{holds, same};
use crate::tests::hooks::layers;
use crate::tests::on_a_ring::played_on_ring;
use crate::tests::play::Play;
use span_component_tests::plans::{EVERYTHING, Plan, Wanted};
use span_id::{Level, Limits};
use span_layers::Form;

const LIMITS: Limits = Limits {
    slots: 500,
    last_generation: 0,
    max_count: 100,
    workers: 1,
    ring: 256,
};

const LIB: Plan<'static> = (Form::Json, Wanted::All, "lib", Level::Trace);

const APP: Plan<'static> = (Form::Json, Wanted::All, "app", Level::Trace);

const THREE: Act<'static> = Act::Event("lib", Level::Info, "three", &[("a", "1"), ("b", "2")]);

const ONE: Act<'static> = Act::Event("app", Level::Info, "one", &[("a", "1")]);

// The plays, and how many spans are open in the end.
static PLAYS: [(Play<'static>, u32); 2] = [
    // Below a chain of long names the paths have 4,096 and 4,097 bytes.
    (
        Play {
            limits: LIMITS,
            plans: &[EVERYTHING, APP],
            acts: &[
                (0, Act::Each(Ids::Up(1, 40), Calls::Events)),
                (0, Act::Drain(200)),
                (0, Act::Each(Ids::Up(1, 40), Calls::Events)),
                (0, Act::Drain(200)),
                (0, Act::Each(Ids::Up(1, 63), Calls::Look)),
                (0, Act::Drain(252)),
                (0, Act::New("a")),
                (0, Act::Enter(64)),
                (0, Act::Event("app", Level::Info, "look", &[])),
                (0, Act::Exit(64)),
                (0, Act::Close(64)),
                (0, Act::New("bc")),
                (0, Act::Enter(65)),
                (0, Act::Event("app", Level::Info, "look", &[])),
                (0, Act::New("d")),
                (0, Act::Event("app", Level::Info, "look", &[])),
                (0, Act::Drain(11)),
            ],
            expected: "= accepted 200\n= drained 200 0 400\n= accepted 200\n= drained 400 0 800\n\
                = accepted 252\n= drained 652 0 1304\n= 64\n= entered\n= told\n= open\n= closed\n\
                = 65\n= entered\n= told\n= 66\n= told\n= drained 662 0 1324\n",
        },
        65,
    ),
    // Calls of no, one and three notes, and a chain of 70 spans that closes at once.
    (
        Play {
            limits: LIMITS,
            plans: &[EVERYTHING, LIB, LIB],
            acts: &[
                (0, Act::Child("s", 0)),
                (0, THREE),
                (0, Act::Clone(1)),
                (0, ONE),
                (0, Act::Drain(3)),
                (0, Act::Record(1, &[("c", "3")])),
                (0, Act::Enter(1)),
                (0, Act::Drain(2)),
                (0, THREE),
                (0, ONE),
                (0, THREE),
                (0, Act::Exit(1)),
                (0, Act::Close(1)),
                (0, Act::Drain(6)),
                (0, Act::Each(Ids::Up(1, 69), Calls::Grow)),
                (0, Act::Drain(138)),
                (0, Act::Close(70)),
                (0, Act::Drain(1)),
                (0, THREE),
                (0, Act::Drain(2)),
            ],
            expected: "= 1\n= told\n= cloned\n= told\n= drained 3 0 4\n= recorded\n= entered\n\
                = drained 5 0 6\n= told\n= told\n= told\n= open\n= open\n= drained 11 0 15\n\
                = accepted 138\n= drained 149 0 84\n= closed\n= drained 150 0 154\n= told\n\
                = drained 151 0 157\n",
        },
        0,
    ),
];

// The lines behind the answers are those of the notes, as clauses say: only the answers are compared.
#[test]
fn many_calls_are_accepted_and_told(rt: HostRuntime) {
    for (of, open) in &PLAYS {
        let layers = layers(&rt, rt.alloc(), of.plans);
        let played = played_on_ring(&rt, rt.alloc(), &of.limits, layers, of.acts);
        let answers = played.text.starts_with(of.expected.as_bytes());
        holds(&rt, answers, "the answers");
        same(
            &rt,
            (played.open, played.missed),
            (*open, 0),
            "open and missed",
        );
    }
}
