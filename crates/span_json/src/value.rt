//! The value of a text.

/// A number, by its value.
#[derive(Clone, Copy, Debug)]
pub enum Number {
    /// Written in digits alone, and below 2^64.
    Whole(u64),
    /// Below 0, written in a minus and digits alone, and of 64 bits.
    Negative(i64),
    /// Any other: the nearest float.
    Float(f64),
}

/// A value whose texts lie in the line, or in the scratch where they had escapes.
#[derive(Debug, Drop)]
pub enum Value<'t> {
    Null,
    Bool(bool),
    Number(Number),
    Text(&'t str),
    List(Vec<Value<'t>>),
    /// The members as the text gives them, in its order: a key may come twice.
    Object(Vec<(&'t str, Value<'t>)>),
}
