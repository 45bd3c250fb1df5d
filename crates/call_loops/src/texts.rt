//! What spans and events are called, and their fields.
use span_id::{Fault, Field, Level, Meta, copy_text};
use std::alloc::Global;

/// What each call passes, made once.
#[derive(Drop)]
pub struct Texts {
    pub meta: Meta,
    pub fields: Vec<Field>,
}

impl Texts {
    /// With so many fields. The only error is `Memory`.
    pub fn new(alloc: Global, fields: u32) -> Result<Texts, Fault> {
        let fields = make_fields(alloc, fields)?;
        let meta = make_meta(alloc)?;
        Ok(Texts { meta, fields })
    }
}

fn make_fields(alloc: Global, number: u32) -> Result<Vec<Field>, Fault> {
    let mut fields = Vec::new(alloc);
    for _ in 0..number {
        fields.push(make_field(alloc)?)?;
    }
    Ok(fields)
}

fn make_field(alloc: Global) -> Result<Field, Fault> {
    let key = copy_text(alloc, "key")?;
    let value = copy_text(alloc, "a value")?;
    Ok(Field { key, value })
}

fn make_meta(alloc: Global) -> Result<Meta, Fault> {
    let name = copy_text(alloc, "request")?;
    let target = copy_text(alloc, "app")?;
    Ok(Meta {
        name,
        target,
        level: Level::Info,
    })
}
