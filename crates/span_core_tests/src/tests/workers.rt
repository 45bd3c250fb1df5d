//! Several workers and layers with rules of their own.
use crate::tests::acts::Act;
use crate::tests::play::{Play, THREE_WORKERS};
use span_component_tests::plans::{EVERYTHING, Wanted};
use span_id::Level;
use span_layers::Form;

// The second layer admits spans of `app` up to INFO, the third those of `app.db` up to DEBUG.
const QUERY: Act<'static> = Act::NewWith("query", "app.db", Level::Debug, &[]);

const SLOW: Act<'static> = Act::Event("app.db", Level::Debug, "slow", &[("ms", "12")]);

const LATE: Act<'static> = Act::Event("app", Level::Warn, "late", &[]);

const ANSWERS: &str = "\
L0 new 1 w0 serve
L1 new 1 w0 serve
= 1
L0 enter 1 w0 serve
= entered
L0 new 2 w0 serve:query
= 2
L0 enter 2 w1 serve:query
L2 {\"fields\":[],\"id\":2,\"kind\":\"enter\",\"path\":\"query\",\"worker\":1}
= entered
L0 enter 2 w2 serve:query
L2 {\"fields\":[],\"id\":2,\"kind\":\"enter\",\"path\":\"query\",\"worker\":2}
= entered
L0 record 1 w2 serve user=ann
L1 record 1 w2 serve user=ann
= recorded
L0 event 2 w1 serve:query DEBUG slow ms=12
L2 {\"fields\":[[\"ms\",\"12\"]],\"id\":2,\"kind\":\"event\",\"level\":\"DEBUG\",\"message\":\"slow\",\"path\":\"query\",\"worker\":1}
= told
L0 event 2 w2 serve:query WARN late
L1 event 0 w2 - WARN late
= told
L0 event 1 w0 serve WARN late
L1 event 1 w0 serve WARN late
= told
= open
= open
L0 exit 2 w1 serve:query
L2 {\"fields\":[],\"id\":2,\"kind\":\"exit\",\"path\":\"query\",\"worker\":1}
= open
L0 exit 1 w0 serve
= open
! unknown
L0 exit 2 w2 serve:query
L2 {\"fields\":[],\"id\":2,\"kind\":\"exit\",\"path\":\"query\",\"worker\":2}
L0 close 2 w2 serve:query
L0 close 1 w2 serve user=ann
L1 close 1 w2 serve user=ann
= closed
";

// What each worker calls, in turn.
pub(crate) const PLAY: Play<'static> = Play {
    limits: THREE_WORKERS,
    plans: &[
        EVERYTHING,
        (Form::Compact, Wanted::NewAndClose, "app", Level::Info),
        (Form::Json, Wanted::EnterAndExit, "app.db", Level::Debug),
    ],
    acts: &[
        (0, Act::New("serve")),
        (0, Act::Enter(1)),
        (0, QUERY),
        (1, Act::Enter(2)),
        (2, Act::Enter(2)),
        (2, Act::Record(1, &[("user", "ann")])),
        (1, SLOW),
        (2, LATE),
        (0, LATE),
        (0, Act::Close(1)),
        (1, Act::Close(2)),
        (1, Act::Exit(2)),
        (0, Act::Exit(1)),
        (2, Act::Record(2, &[])),
        (2, Act::Exit(2)),
    ],
    expected: ANSWERS,
};
