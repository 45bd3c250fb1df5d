//! Pairs that a line gives as lists of two values.
ghost use Rattle.std.specs.Prelude.{◌≡◌, option_and_then};
ghost use Rattle.std.specs.Option.{option_map};
ghost use Rattle.serde_json.specs.Find.{as_array};
ghost use Rattle.span_script.specs.Operation.{two_in};

use crate::line_value::JsonValue;

/// The values of a list of two.
pub fn pair<'v, V: JsonValue<'v>>(value: V) -> Option<(V, V)>
    ensures { option_map (λ pair. (V.json pair.0, V.json pair.1)) result
        ≡ option_and_then two_in (as_array (V.json value)) }
{
    if value.count()? != 2 {
        return None;
    }
    Some((value.item(0), value.item(1)))
}
