//! The member of a note's object that lists its fields.

ghost use Rattle.std.specs.Prelude.{codes, map};
ghost use Rattle.json.specs.Tree.{json_tokens};
ghost use Rattle.serde_json.specs.Data.{array};
ghost use Rattle.serde_json.specs.View.{items_of};
ghost use Rattle.serde_json.specs.Written.{outline};
ghost use Rattle.span_id.specs.Meta.{key_value};
ghost use Rattle.span_layers.specs.Text.{field_value};
ghost use Rattle.span_layers.specs.inside.Tokens.{Appends, member_tokens};

use json::Writer;
use span_id::Field;
use std::alloc::AllocError;

/// Writes the list of the fields, a pair for each, under the name `fields`.
#[tactic(auto, using(std::proofs::Common::append_assoc))]
pub(super) fn write_fields(out: &mut Writer, fields: &[Field]) -> Result<(), AllocError>
    ensures { Appends result out.old out.new
        (member_tokens (codes "fields") (array (items_of (map field_value (map key_value fields.now))))) }
{
    out.key("fields")?;
    out.begin_array()?;
    for field in fields {
        write_pair(out, field)?;
    }
    out.end_array()
}

fn write_pair(out: &mut Writer, field: &Field) -> Result<(), AllocError>
    ensures { Appends result out.old out.new (json_tokens (outline (field_value (key_value field.now)))) }
{
    out.begin_array()?;
    out.string(field.key.as_str())?;
    out.string(field.value.as_str())?;
    out.end_array()
}
