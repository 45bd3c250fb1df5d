ghost use Rattle.std.specs.Prelude.{◌≡◌};
ghost use Rattle.span_id.specs.Meta.{plain_fields};
ghost use Rattle.span_core.specs.Core.{are_keys};

use span_id::Field;

// Whether all keys are names.
pub(crate) fn are_keys(fields: &[Field]) -> bool
    ensures { result ≡ are_keys (plain_fields fields.now) }
{
    fields.iter().all(|field| field.fit())
}
