//! The making of a registry and of the other end of its ring, from what C passes.
//!
//! Where one of the `read_` functions gives None, the data say nothing, there are more than 64 layers, or memory is
//! refused.
ghost use Rattle.std.specs.Prelude.{◌≡◌, ◌≤◌, ◌↔◌, ◌++◌, ◌∷◌, [], true, Some, map, take, drop};
ghost use Rattle.std.specs.Prelude.{IsOk, IsSome, IfSome, OnSome, IfOk, IfErr};
ghost use Rattle.span_id.specs.Limits.{AreInRange};
ghost use Rattle.span_layers.specs.Rule.{pair_of, pairs_of};
ghost use Rattle.span_layers.specs.Filter.{filter_of};
ghost use Rattle.span_layers.specs.FmtSpan.{bits_of};
ghost use Rattle.span_layers.specs.Layers.{filters_in, forms_in};
ghost use Rattle.span_core.specs.World.{empty_world};
ghost use Rattle.span_ffi.specs.Data.{BeginsWithText, said_level};
ghost use Rattle.span_ffi.specs.Opening.{AreRules, said_pairs, behind_rules, said_form, IsLayer, AreLayers};
ghost use Rattle.span_ffi.specs.Opening.{said_filters, said_forms, said_limits, AreNew, AreNewHeadings, WhyNone};

use crate::callsites::Callsites;
use crate::data::{SpanLayer, SpanLimits, SpanRule};
use crate::heading_reader::HeadingReader;
use crate::headings::Headings;
use crate::reader::Reader;
use crate::reading::{read_level, read_text, unread};
use crate::registry::Registry;
use crate::valid::are_layers;
use bitflags::Flags;
use span_border::Status;
use span_core::Core;
use span_id::{Checked, Fault, Level, Limits};
use span_layers::{
    ByForm, ByRule, Filters, FmtSpan, Form, Hooks, Layer, Layers, MAX_LAYERS, Rule, Style,
};
use span_outlet::{LineReader, Ring};
use std::alloc::Global;

// Layers with no closures.
type PlainLayers = Layers<ByRule, ByForm>;

// Adds the pair of a rule, and gives the bytes behind its prefix.
fn add_pair<'b>(
    alloc: Global,
    rule: &SpanRule,
    bytes: &'b [u8],
    pairs: &mut Vec<(String, Level)>,
) -> Option<&'b [u8]>
    ensures level { OnSome result (rule.now.level ≤ 4) }
    ensures begins { OnSome result (BeginsWithText rule.now.prefix_len bytes.now) }
    ensures pair { OnSome result (map pair_of pairs.new.items ≡ map pair_of pairs.old.items
        ++ (take rule.now.prefix_len bytes.now, said_level rule.now.level) ∷ []) }
    ensures behind { IfSome result (λ behind. behind.now ≡ drop rule.now.prefix_len bytes.now) }
{
    let level = read_level(rule.level)?;
    let (prefix, behind) = read_text(alloc, bytes, rule.prefix_len)?;
    pairs.push((prefix, level)).ok()?;
    Some(behind)
}

// Adds the pairs of rules, and gives the bytes behind their prefixes.
fn add_pairs<'b>(
    alloc: Global,
    rules: &[SpanRule],
    bytes: &'b [u8],
    pairs: &mut Vec<(String, Level)>,
) -> Option<&'b [u8]>
    ensures are { OnSome result (AreRules rules.now bytes.now) }
    ensures pairs { OnSome result (map pair_of pairs.new.items
        ≡ map pair_of pairs.old.items ++ said_pairs rules.now bytes.now) }
    ensures behind { IfSome result (λ behind. behind.now ≡ behind_rules rules.now bytes.now) }
{
    let mut left = bytes;
    for rule in rules {
        left = add_pair(alloc, rule, left, pairs)?;
    }
    Some(left)
}

// The rule of these pairs, and the bytes behind their prefixes.
fn read_rule<'b>(alloc: Global, rules: &[SpanRule], bytes: &'b [u8]) -> Option<(Rule, &'b [u8])>
    ensures are { OnSome result (AreRules rules.now bytes.now) }
    ensures pairs { IfSome result (λ read. pairs_of read.0 ≡ said_pairs rules.now bytes.now) }
    ensures behind { IfSome result (λ read. read.1.now ≡ behind_rules rules.now bytes.now) }
{
    let mut pairs = Vec::new(alloc);
    let left = add_pairs(alloc, rules, bytes, &mut pairs)?;
    Some((Rule { pairs }, left))
}

// How and of what a layer writes.
fn read_style(layer: &SpanLayer) -> Option<Style>
    ensures exact { IsSome result ↔ ((layer.now.form ≤ 1) × (layer.now.kinds ≤ bits_of FmtSpan.FULL)) }
    ensures form { IfSome result (λ style. style.form ≡ said_form layer.now.form) }
    ensures kinds { IfSome result (λ style. bits_of style.spans ≡ layer.now.kinds) }
{
    let form = match layer.form {
        0 => Form::Compact,
        1 => Form::Json,
        _ => return None,
    };
    if layer.kinds > u32::from(FmtSpan::FULL.bits()) {
        return None;
    }
    let spans = FmtSpan::from_bits_retain(layer.kinds as u8);
    Some(Style { form, spans })
}

// A layer with the first of the rules for its own, and the bytes behind their prefixes.
fn read_layer<'b>(
    alloc: Global,
    layer: &SpanLayer,
    own: &[SpanRule],
    bytes: &'b [u8],
) -> Option<(Layer<ByRule, ByForm>, &'b [u8])>
    ensures form { OnSome result (layer.now.form ≤ 1) }
    ensures kinds { OnSome result (layer.now.kinds ≤ bits_of FmtSpan.FULL) }
    ensures rules { OnSome result (AreRules own.now bytes.now) }
    ensures filter { IfSome result (λ read. filter_of read.0.rule read.0.style.spans
        ≡ record { pairs = said_pairs own.now bytes.now; spans = layer.now.kinds }) }
    ensures style { IfSome result (λ read. read.0.style.form ≡ said_form layer.now.form) }
    ensures behind { IfSome result (λ read. read.1.now ≡ behind_rules own.now bytes.now) }
{
    let style = read_style(layer)?;
    let (rule, left) = read_rule(alloc, own, bytes)?;
    let hooks = Hooks::by_rule_and_form();
    Some((Layer { style, rule, hooks }, left))
}

// Adds a layer with the first of the rules for its own, and gives the other rules, and the bytes behind the prefixes.
fn add_layer<'r, 'b>(
    alloc: Global,
    layer: &SpanLayer,
    rules: &'r [SpanRule],
    bytes: &'b [u8],
    read: &mut PlainLayers,
) -> Option<(&'r [SpanRule], &'b [u8])>
    ensures is { OnSome result (IsLayer layer.now rules.now bytes.now) }
    ensures filter { OnSome result (filters_in read.new ≡ filters_in read.old
        ++ (record { pairs = said_pairs (take layer.now.rules rules.now) bytes.now; spans = layer.now.kinds }) ∷ []) }
    ensures form { OnSome result (forms_in read.new ≡ forms_in read.old ++ said_form layer.now.form ∷ []) }
    ensures rules { IfSome result (λ left. left.0.now ≡ drop layer.now.rules rules.now) }
    ensures behind { IfSome result (λ left. left.1.now
        ≡ behind_rules (take layer.now.rules rules.now) bytes.now) }
{
    let (own, others) = rules.split_at_checked(layer.rules as usize)?;
    let (layer, behind) = read_layer(alloc, layer, own, bytes)?;
    read.add(layer).ok()?;
    Some((others, behind))
}

// Adds the layers, with all rules and all bytes. No: the data say nothing, or memory is refused.
fn add_layers(
    alloc: Global,
    layers: &[SpanLayer],
    rules: &[SpanRule],
    bytes: &[u8],
    read: &mut PlainLayers,
) -> bool
    ensures are { result ≡ true → AreLayers layers.now rules.now bytes.now }
    ensures filters { result ≡ true → filters_in read.new
        ≡ filters_in read.old ++ said_filters layers.now rules.now bytes.now }
    ensures forms { result ≡ true → forms_in read.new ≡ forms_in read.old ++ said_forms layers.now }
{
    let mut rules_left = rules;
    let mut left = bytes;
    for item in layers {
        let Some((others, behind)) = add_layer(alloc, item, rules_left, left, read) else {
            return false;
        };
        rules_left = others;
        left = behind;
    }
    rules_left.is_empty() && left.is_empty()
}

// The layers, with all rules and all bytes.
fn read_layers(
    alloc: Global,
    layers: &[SpanLayer],
    rules: &[SpanRule],
    bytes: &[u8],
) -> Option<PlainLayers>
    ensures are { OnSome result (AreLayers layers.now rules.now bytes.now) }
    ensures filters { IfSome result (λ read. filters_in read ≡ said_filters layers.now rules.now bytes.now) }
    ensures forms { IfSome result (λ read. forms_in read ≡ said_forms layers.now) }
{
    let mut read = Layers::new(alloc);
    if !add_layers(alloc, layers, rules, bytes, &mut read) {
        return None;
    }
    Some(read)
}

// The limits, where each is in its range.
fn read_limits(limits: &SpanLimits) -> Result<Checked, Fault>
    ensures exact { IsOk result ↔ AreInRange (said_limits limits.now) }
    ensures value { IfOk result (λ checked. checked ≡ said_limits limits.now) }
    ensures fault { IfErr result (λ fault. fault ≡ Fault.BadLimits) }
{
    let limits = Limits {
        slots: limits.slots,
        last_generation: limits.last_generation,
        max_count: limits.max_count,
        workers: limits.workers,
        ring: limits.ring,
    };
    limits.check()
}

// Both ends of the headings' ring, where any are kept. While the reader takes the batches that stand in the other ring, as
// many may come there, and their headings here, where all of those batches stand still, and one that was on its way at
// the reader's last look. The only error is `Memory`.
fn make_headings(
    alloc: Global,
    checked: &Checked,
    keeps: bool,
) -> Result<(Option<Headings>, Option<HeadingReader>), Fault>
    ensures new { IfOk result (λ ends. AreNewHeadings keeps checked.now.ring ends.0 ends.1) }
    ensures memory { IfErr result (λ fault. fault ≡ Fault.Memory) }
{
    if !keeps {
        return Ok((None, None));
    }
    let (headings, reader) = Headings::pair(alloc, 2 * checked.limits().ring as usize + 1)?;
    Ok((Some(headings), Some(reader)))
}

// A registry with this end of a ring, in a box. The only error is `Memory`.
fn box_registry(
    alloc: Global,
    checked: &Checked,
    filters: Filters<ByRule>,
    ring: Ring,
    headings: Option<Headings>,
) -> Result<Box<Registry>, Fault>
    requires { ring.sent ≡ [] }
    ensures registry { IfOk result (λ boxed. boxed.value ≡ record {
      core = record {
        limits = checked.now;
        rules = filters.rules;
        world = empty_world checked.now.workers;
        sent = [];
        times_full = ring.times_full;
        forms = [];
        name = Some ring.name;
      };
      callsites = [];
      headings = headings;
    }) }
    ensures memory { IfErr result (λ fault. fault ≡ Fault.Memory) }
{
    let core = Core::new(alloc, checked, filters, ring)?;
    let callsites = Callsites::new(alloc);
    Ok(Box::new(
        alloc,
        Registry {
            core,
            callsites,
            headings,
        },
    )?)
}

// A registry with these layers, and the other end of its ring, each in a box. The only error is `Memory`.
fn make(
    alloc: Global,
    checked: &Checked,
    layers: PlainLayers,
    keeps: bool,
) -> Result<(Box<Registry>, Box<Reader>), Fault>
    ensures core { IfOk result (λ made. made.0.value.core ≡ record {
      limits = checked.now;
      rules = filters_in layers;
      world = empty_world checked.now.workers;
      sent = [];
      times_full = 0;
      forms = [];
      name = Some made.1.value.lines.name;
    }) }
    ensures callsites { IfOk result (λ made. made.0.value.callsites ≡ []) }
    ensures reader { IfOk result (λ made. made.1.value.lines ≡ record {
      name = made.1.value.lines.name;
      looks = 0;
      forms = forms_in layers;
      taken = [];
      given = [];
      waiting = [];
      missed = 0;
    }) }
    ensures places { IfOk result (λ made. made.1.value.lines.name.places ≡ checked.now.ring) }
    ensures headings { IfOk result (λ made.
        AreNewHeadings keeps checked.now.ring made.0.value.headings made.1.value.headings) }
    ensures memory { IfErr result (λ fault. fault ≡ Fault.Memory) }
{
    let Ok((ring, tap)) = Ring::pair(alloc, checked) else {
        return Err(Fault::Memory);
    };
    let (filters, formatting) = layers.split();
    let lines = LineReader::new(alloc, tap, formatting);
    let (headings, other) = make_headings(alloc, checked, keeps)?;
    let Ok(registry) = box_registry(alloc, checked, filters, ring, headings) else {
        return Err(Fault::Memory);
    };
    let Ok(reader) = Box::new(
        alloc,
        Reader {
            lines,
            headings: other,
        },
    ) else {
        return Err(Fault::Memory);
    };
    Ok((registry, reader))
}

/// A new registry and the other end of its ring, each in a box, which keep headings or not.
pub(crate) fn open(
    alloc: Global,
    limits: &SpanLimits,
    layers: &[SpanLayer],
    rules: &[SpanRule],
    bytes: &[u8],
    keeps: bool,
) -> Result<(Box<Registry>, Box<Reader>), Status>
    ensures new { IfOk result (λ made.
        AreNew keeps limits.now layers.now rules.now bytes.now made.0.value made.1.value) }
    ensures none { IfErr result (λ status. WhyNone limits.now layers.now rules.now bytes.now status) }
{
    let checked = match read_limits(limits) {
        Ok(checked) => checked,
        Err(fault) => return Err(Status::Refused(fault)),
    };
    if layers.len() > MAX_LAYERS {
        return Err(Status::Refused(Fault::TooManyLayers));
    }
    match read_layers(alloc, layers, rules, bytes) {
        Some(read) => make(alloc, &checked, read, keeps).map_err(Status::Refused),
        None => Err(unread(are_layers(layers, rules, bytes))),
    }
}
