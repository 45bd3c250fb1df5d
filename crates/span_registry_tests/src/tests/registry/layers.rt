//! Layers that admit by their rules and write in their forms, and the texts that calls take.

use span_id::{Field, Level, Meta};
use span_layers::{
    Admitters, ByForm, ByRule, Filters, FmtSpan, Form, Formatters, Formatting, Hooks, Layer,
    Layers, Rule, Style,
};
use span_registry::{Drain, LineReader, Registry};
use std::alloc::Global;
use std::process::Abort;

/// A registry whose layers have no closures.
pub(crate) type PlainRegistry<H, C, S, O> = Registry<H, C, S, O, Admitters<ByRule>>;

/// A drain of such layers.
pub(crate) type PlainDrain = Drain<Formatters<ByForm>>;

/// A reader of such layers.
pub(crate) type PlainReader = LineReader<Formatters<ByForm>>;

/// A layer in few words: its form, the kinds that it wants, and the pairs of its rule.
pub(crate) type Plan<'a> = (Form, FmtSpan, &'a [(&'a str, Level)]);

/// The pairs of a rule that admits everything.
pub(crate) const ALL: &[(&str, Level)] = &[("", Level::Trace)];

/// The pairs of a rule that admits what the target `app` has up to INFO.
pub(crate) const APP: &[(&str, Level)] = &[("app", Level::Info)];

/// Lets everything in, and writes everything in the compact form.
pub(crate) const EVERYTHING: Plan<'static> = (Form::Compact, FmtSpan::FULL, ALL);

fn rule(rt: &impl Abort, alloc: Global, pairs: &[(&str, Level)]) -> Rule {
    let mut made = Vec::new(alloc);
    for (prefix, level) in pairs {
        let pair = (owned(rt, alloc, prefix), *level);
        made.push(pair).expect(rt, "memory");
    }
    Rule { pairs: made }
}

fn layer(rt: &impl Abort, alloc: Global, plan: &Plan) -> Layer<ByRule, ByForm> {
    let (form, spans, pairs) = plan;
    Layer {
        style: Style {
            form: *form,
            spans: *spans,
        },
        rule: rule(rt, alloc, pairs),
        hooks: Hooks::by_rule_and_form(),
    }
}

/// The two parts of layers of these plans.
pub(crate) fn layers(
    rt: &impl Abort,
    alloc: Global,
    plans: &[Plan],
) -> (Filters<ByRule>, Formatting<ByForm>) {
    let mut layers = Layers::new(alloc);
    for plan in plans {
        let added = layers.add(layer(rt, alloc, plan)).ok();
        added.expect(rt, "a layer too many, or no memory");
    }
    layers.split()
}

// A text of its own.
fn owned(rt: &impl Abort, alloc: Global, text: &str) -> String {
    String::from_str(alloc, text).expect(rt, "memory")
}

pub(crate) fn meta_of(
    rt: &impl Abort,
    alloc: Global,
    name: &str,
    target: &str,
    level: Level,
) -> Meta {
    Meta {
        name: owned(rt, alloc, name),
        target: owned(rt, alloc, target),
        level,
    }
}

/// What a call says: a meta and fields.
#[derive(Drop)]
pub(crate) struct Said {
    pub(crate) meta: Meta,
    pub(crate) fields: Vec<Field>,
}

/// A meta and fields of these texts.
pub(crate) fn said_of(
    rt: &impl Abort,
    alloc: Global,
    names: (&str, &str),
    level: Level,
    pairs: &[(&str, &str)],
) -> Said {
    Said {
        meta: meta_of(rt, alloc, names.0, names.1, level),
        fields: fields_of(rt, alloc, pairs),
    }
}

fn field_of(rt: &impl Abort, alloc: Global, key: &str, value: &str) -> Field {
    Field {
        key: owned(rt, alloc, key),
        value: owned(rt, alloc, value),
    }
}

fn fields_of(rt: &impl Abort, alloc: Global, pairs: &[(&str, &str)]) -> Vec<Field> {
    let mut fields = Vec::new(alloc);
    for (key, value) in pairs {
        let field = field_of(rt, alloc, key, value);
        fields.push(field).expect(rt, "memory");
    }
    fields
}
