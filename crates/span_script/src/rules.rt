//! The rule that a line gives for a layer.
ghost use Rattle.std.specs.Prelude.{◌≡◌, Result, option_and_then};
ghost use Rattle.std.specs.Option.{option_map};
ghost use Rattle.serde_json.specs.Find.{as_str};
ghost use Rattle.span_layers.specs.Rule.{pairs_of};
ghost use Rattle.span_script.specs.Operation.{optional, rule_in, prefix_in, all_targets};
ghost use Rattle.span_script.specs.Reason.{AnswersOrStops, or_fault};

use crate::key::Key;
use crate::key_values::level_in;
use crate::line_value::JsonValue;
use crate::pairs::pair;
use crate::reason::Reason;
use crate::stop::Stop;
use span_id::Level;
use span_layers::Rule;
use std::alloc::Global;

/// The rule that a line gives. Where it has no such key, all targets are let in up to `TRACE`.
pub fn rule<'v, V: JsonValue<'v>>(alloc: Global, line: V) -> Result<Rule, Stop>
    ensures { AnswersOrStops pairs_of result (optional Key.Rule rule_in all_targets (V.json line)) }
{
    let Some(value) = line.member(Key::Rule.text()) else {
        return Ok(Rule::everything(alloc)?);
    };
    all_pairs(alloc, value)
}

/// The rule whose pairs the items of a list are.
fn all_pairs<'v, V: JsonValue<'v>>(alloc: Global, list: V) -> Result<Rule, Stop>
    ensures { AnswersOrStops pairs_of result (or_fault (rule_in (V.json list)) (Reason.BadKey Key.Rule)) }
{
    let Some(count) = list.count() else {
        return Err(Stop::Refused(Reason::BadKey(Key::Rule)));
    };
    let mut pairs = Vec::with_capacity(alloc, count)?;
    for place in 0..count {
        let Some((prefix, level)) = prefix_and_level(list.item(place)) else {
            return Err(Stop::Refused(Reason::BadKey(Key::Rule)));
        };
        pairs.push((String::from_str(alloc, prefix)?, level))?;
    }
    Ok(Rule { pairs })
}

/// A list of a text and a level.
fn prefix_and_level<'v, V: JsonValue<'v>>(value: V) -> Option<(&'v str, Level)>
    ensures { option_map (λ pair. (pair.0.now, pair.1)) result ≡ prefix_in (V.json value) }
{
    let (prefix, level) = pair(value)?;
    Some((prefix.text()?, level_in(level)?))
}
