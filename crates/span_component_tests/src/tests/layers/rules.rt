//! Which targets and levels a rule admits.

use crate::plans::rule;
use crate::tests::compare::same;
use crate::values::meta;
use span_id::Level;
use span_layers::admits;
use std::alloc::Global;
use std::process::Abort;

/// The pairs of a rule, a target and a level, and whether the rule admits them.
type Case = (&'static [(&'static str, Level)], &'static str, Level, bool);

const APP: &[(&str, Level)] = &[
    ("app", Level::Error),
    ("app.db", Level::Trace),
    ("app", Level::Info),
];

// The longest prefix decides, and of equal ones the later.
static LONGEST: [Case; 8] = [
    (APP, "app", Level::Info, true),
    (APP, "app", Level::Debug, false),
    (APP, "app.db", Level::Debug, true),
    (APP, "app.db.pool", Level::Trace, true),
    (APP, "apple", Level::Info, true),
    (APP, "ap", Level::Error, false),
    (APP, "web", Level::Error, false),
    (APP, "", Level::Error, false),
];

const NONE: &[(&str, Level)] = &[];

const ONE: &[(&str, Level)] = &[("", Level::Error)];

const LATER: &[(&str, Level)] = &[("", Level::Trace), ("", Level::Error)];

// The empty rule, and the empty prefix.
static EMPTY: [Case; 7] = [
    (NONE, "", Level::Error, false),
    (NONE, "app", Level::Error, false),
    (ONE, "", Level::Error, true),
    (ONE, "app", Level::Error, true),
    (LATER, "", Level::Error, true),
    (LATER, "app", Level::Error, true),
    (LATER, "app", Level::Warn, false),
];

// Prefixes are bytes: U+00E9 is the bytes C3 A9, U+00E8 is C3 A8, and an `e` with U+0301 behind it is the bytes
// 65 CC 81.
static BYTES: [Case; 5] = [
    (
        &[("\u{e9}", Level::Trace)],
        "\u{e9}t\u{e9}",
        Level::Info,
        true,
    ),
    (
        &[("\u{e8}", Level::Trace)],
        "\u{e9}t\u{e9}",
        Level::Info,
        false,
    ),
    (&[("e", Level::Trace)], "e\u{301}t", Level::Info, true),
    (&[("e", Level::Trace)], "\u{e9}t", Level::Info, false),
    (
        &[("e\u{301}", Level::Trace)],
        "e\u{300}",
        Level::Info,
        false,
    ),
];

fn is_judged(rt: &impl Abort, alloc: Global, case: &Case) {
    let (pairs, target, level, want) = *case;
    let rule = rule(alloc, pairs).expect(rt, "memory");
    let meta = meta(alloc, "a", target, level).expect(rt, "memory");
    let of = (pairs.len(), level);
    same(rt, (of, admits(&rule, &meta)), (of, want), target);
}

fn are_judged(rt: &impl Abort, alloc: Global, cases: &[Case]) {
    for case in cases {
        is_judged(rt, alloc, case);
    }
}

#[test]
fn rules_judge_targets_and_levels(rt: HostRuntime) {
    are_judged(&rt, rt.alloc(), &LONGEST);
    are_judged(&rt, rt.alloc(), &EMPTY);
    are_judged(&rt, rt.alloc(), &BYTES);
}
