//! The keys of a script's lines.
ghost use Rattle.std.specs.Prelude.{◌≡◌};
ghost use Rattle.span_script.specs.Key.{key_text};

use std::fmt;

/// The keys of a script's lines whose values are looked at.
#[derive(Clone, Copy, Debug, PartialEq, Eq)]
pub enum Key {
    Slots,
    LastGeneration,
    MaxCount,
    Workers,
    Form,
    Spans,
    Rule,
    Name,
    Message,
    Target,
    Level,
    Parent,
    Fields,
    Label,
    Worker,
    Span,
    Old,
}

impl Key {
    /// The key as it is written in a line.
    pub fn text(self) -> &'static str
        ensures { result.now ≡ key_text self }
    {
        match self {
            Key::Slots => "slots",
            Key::LastGeneration => "last_generation",
            Key::MaxCount => "max_count",
            Key::Workers => "workers",
            Key::Form => "form",
            Key::Spans => "spans",
            Key::Rule => "rule",
            Key::Name => "name",
            Key::Message => "message",
            Key::Target => "target",
            Key::Level => "level",
            Key::Parent => "parent",
            Key::Fields => "fields",
            Key::Label => "label",
            Key::Worker => "w",
            Key::Span => "span",
            Key::Old => "old",
        }
    }
}

impl fmt::Display for Key {
    fn fmt<W: fmt::Write>(&self, f: &mut fmt::Formatter<W>) -> fmt::Result {
        f.write_str(self.text())
    }
}
