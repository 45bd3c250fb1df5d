//! JSON values over borrowed text, seen as the data that `serde_json` reads.
#![tactic(auto)]

mod numbers;
mod plain;
mod plain_text;
mod reading;
mod room;
mod runs;
mod value;
mod values;

pub use json::Scratch;
pub use reading::{Unread, read_value};
pub use value::{Number, Value};
pub use values::{as_array, as_str, as_u64, is_null, is_object, member};
