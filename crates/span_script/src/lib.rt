//! A script of calls: its lines, and the operation that each line asks for.
//!
//! A line is cut out of the script's bytes (`cut_line`), read as JSON (`json_value`), and then as what it asks for
//! (`operation`): the first fault of the line, in the order of the format, or the operation with its values.
//! `json_line` and `operation_in_line` do the same over the line's own text, with no copy of it.
#![tactic(auto)]

mod borrowed;
mod fields;
mod key;
mod key_values;
mod line_metas;
mod line_value;
mod lines;
mod meta;
mod operations;
mod pairs;
mod reading;
mod reason;
mod rules;
mod stop;

pub use borrowed::{is_setup_line, json_line, op_in_line, operation_in_line, operation_with_metas};
pub use key::Key;
pub use line_metas::LineMetas;
pub use lines::{cut_line, is_skipped};
pub use operations::{NewEvent, NewLayer, NewSpan, Operation, Parent, SpanCall, SpanKey};
pub use reading::{Op, Stage, is_setup, json_value, op_in, operation};
pub use reason::Reason;
pub use stop::Stop;
