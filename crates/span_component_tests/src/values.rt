//! Metas and fields of given texts, and ids that no span has.
ghost use Rattle.std.specs.Prelude.{◌≡◌, IfOk, IfErr, string_bytes};

use span_id::{Fault, Field, Level, Meta, copy_text};
use std::alloc::Global;

/// Ids that no span has in a table of four slots with two generations, of which slot 0 is retired, slot 1 has its
/// second span, slot 2 is free again, and slot 3 was never used: the closed ids of the retired slot, and one generation
/// more of it; the closed id of the open span's slot, and one generation more than the open one's; the closed id of the
/// free slot, and the id that it will give; the slot never used, one beyond the table, the last one of the layout, and
/// the greatest id.
pub const STRANGERS: [u64; 11] = [
    1,
    16777217,
    33554433,
    2,
    33554434,
    3,
    16777219,
    4,
    5,
    16777216,
    72057594037927936,
];

/// A meta of these texts. The only error is `Memory`.
pub fn meta(alloc: Global, name: &str, target: &str, level: Level) -> Result<Meta, Fault>
    ensures name { IfOk result (λ meta. string_bytes meta.name ≡ name.now) }
    ensures target { IfOk result (λ meta. string_bytes meta.target ≡ target.now) }
    ensures level { IfOk result (λ meta. meta.level ≡ level) }
    ensures memory { IfErr result (λ fault. fault ≡ Fault.Memory) }
{
    let name = copy_text(alloc, name)?;
    let target = copy_text(alloc, target)?;
    Ok(Meta {
        name,
        target,
        level,
    })
}

/// A field of these texts. The only error is `Memory`.
pub fn field(alloc: Global, key: &str, value: &str) -> Result<Field, Fault>
    ensures key { IfOk result (λ field. string_bytes field.key ≡ key.now) }
    ensures value { IfOk result (λ field. string_bytes field.value ≡ value.now) }
    ensures memory { IfErr result (λ fault. fault ≡ Fault.Memory) }
{
    let key = copy_text(alloc, key)?;
    let value = copy_text(alloc, value)?;
    Ok(Field { key, value })
}

/// Fields of these keys and values. The only error is `Memory`.
pub fn list(alloc: Global, pairs: &[(&str, &str)]) -> Result<Vec<Field>, Fault>
    ensures memory { IfErr result (λ fault. fault ≡ Fault.Memory) }
{
    let mut list = Vec::new(alloc);
    for (key, value) in pairs {
        list.push(field(alloc, key, value)?)?;
    }
    Ok(list)
}
