//! Copies of texts and fields that a caller lent.
ghost use Rattle.std.specs.Prelude.{◌≡◌, IfOk, IfErr, OnOk, length, string_bytes};
ghost use Rattle.span_id.specs.Meta.{key_value, plain_fields};

use crate::fault::Fault;
use crate::meta::Field;
use std::alloc::Global;

/// A text of its own with the same bytes. The only error is `Memory`.
pub fn copy_text(alloc: Global, text: &str) -> Result<String, Fault>
    ensures text { IfOk result (λ copy. string_bytes copy ≡ text.now) }
    ensures memory { IfErr result (λ fault. fault ≡ Fault.Memory) }
{
    Ok(String::from_str(alloc, text)?)
}

/// Equal fields of their own, in the same order, in a list with no room for more. The only error is `Memory`.
pub fn copy_fields(alloc: Global, fields: &[Field]) -> Result<Vec<Field>, Fault>
    ensures fields { IfOk result (λ copies. plain_fields copies.items ≡ plain_fields fields.now) }
    ensures memory { IfErr result (λ fault. fault ≡ Fault.Memory) }
{
    let mut copies = Vec::with_capacity(alloc, fields.len())?;
    for field in fields {
        let copy = field.copy(alloc)?;
        copies.push_reserved(copy);
    }
    Ok(copies)
}

// The room for how many bytes more a text may have that is written over another one: so fields that are owned for long
// take little more memory than they need, whatever stood there before them.
const MOST_LEFT: usize = 32;

/// Writes equal fields over those of a list that is as long, place by place. The only error is `Memory`, after which any
/// texts may stand in the list.
pub(crate) fn write_fields(alloc: Global, list: &mut [Field], fields: &[Field]) -> Result<(), Fault>
    requires len { length list.old ≡ length fields.now }
    ensures fields { OnOk result (plain_fields list.new ≡ plain_fields fields.now) }
    ensures memory { IfErr result (λ fault. fault ≡ Fault.Memory) }
{
    for (index, place) in list.iter_mut().enumerate() {
        let field = &fields[index];
        write_text(alloc, &mut place.key, &field.key)?;
        write_text(alloc, &mut place.value, &field.value)?;
    }
    Ok(())
}

/// Writes a key and a value over those of a field. The only error is `Memory`, after which any texts may stand there.
pub(crate) fn write_field(
    alloc: Global,
    field: &mut Field,
    key: &str,
    value: &str,
) -> Result<(), Fault>
    ensures field { OnOk result (key_value field.new ≡ (key.now, value.now)) }
    ensures memory { IfErr result (λ fault. fault ≡ Fault.Memory) }
{
    write_text(alloc, &mut field.key, key)?;
    write_text(alloc, &mut field.value, value)?;
    Ok(())
}

// Writes a text over the one that stands there: in its memory, where that has room for the text and for few bytes more.
// The only error is `Memory`.
fn write_text(alloc: Global, place: &mut String, text: &str) -> Result<(), Fault>
    ensures text { OnOk result (string_bytes place.new ≡ text.now) }
    ensures memory { IfErr result (λ fault. fault ≡ Fault.Memory) }
{
    let room = place.capacity();
    if room < text.len() || room - text.len() > MOST_LEFT {
        *place = copy_text(alloc, text)?;
        return Ok(());
    }
    place.clear();
    place.push_str(text)?;
    Ok(())
}
