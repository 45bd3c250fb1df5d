//! How the rules of layers are shown: by their filters alone, whatever is kept beside them.

use crate::plans::{Plan, Wanted, plain_layers};
use crate::tests::compare::same;
use span_id::Level;
use span_layers::Form;
use std::alloc::Global;
use std::process::Abort;

static PLANS: [Plan<'static>; 2] = [
    (Form::Json, Wanted::NewAndClose, "app", Level::Info),
    (Form::Compact, Wanted::None, "a \"b\"\n", Level::Error),
];

// In a row, and on lines.
const SHOWN: &str =
    r#"Rules { filters: [Filter { rule: Rule { pairs: [("app", Info)] }, spans: FmtSpan(9) }, Filter { rule: Rule { pairs: [("a \"b\"\n", Error)] }, spans: FmtSpan(0) }] }
Rules {
    filters: [
        Filter {
            rule: Rule {
                pairs: [
                    (
                        "app",
                        Info,
                    ),
                ],
            },
            spans: FmtSpan(
                9,
            ),
        },
        Filter {
            rule: Rule {
                pairs: [
                    (
                        "a \"b\"\n",
                        Error,
                    ),
                ],
            },
            spans: FmtSpan(
                0,
            ),
        },
    ],
}"#;

fn are_shown(rt: &impl Abort, alloc: Global, plans: &[Plan], want: &str) {
    let (filters, _) = plain_layers(alloc, plans).expect(rt, "layers").split();
    let rules = &filters.rules;
    let text = format!(in alloc; "{rules:?}\n{rules:#?}").expect(rt, "memory");
    same(rt, text.as_str(), want, "the rules");
}

#[test]
fn rules_are_shown_by_their_filters(rt: HostRuntime) {
    are_shown(
        &rt,
        rt.alloc(),
        &[],
        "Rules { filters: [] }\nRules {\n    filters: [],\n}",
    );
    are_shown(&rt, rt.alloc(), &PLANS, SHOWN);
}
