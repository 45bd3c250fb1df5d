//! Layers: which spans and events they admit, which kinds of notes they want, and what they write of a note.
#![tactic(auto)]

mod clean;
mod compact;
mod filters;
mod form;
mod formatting;
mod hooks;
mod json_form;
mod layers;
mod note;
mod plain_hooks;
mod room;
mod rule;
mod sheet;
mod style;
mod wanting;

pub use filters::{Admit, Admitters, Filters, MAX_LAYERS, Rules};
pub use form::{Form, text, text_onto};
pub use formatting::{Formatters, Formatting, Forms, Say};
pub use hooks::{AdmitHook, Admitter, Formatter, Hooks, SayHook};
pub use layers::{Layer, Layers};
pub use note::{Kind, Note};
pub use plain_hooks::{ByForm, ByRule};
pub use rule::{Rule, admits};
pub use style::{FmtSpan, Style};
