//! A buffer that a text is appended to.
ghost use Rattle.std.specs.Prelude.{◌≡◌, [], ◌++◌};
ghost use Rattle.span_layers.specs.inside.Sheet.{Adds};

use std::alloc::AllocError;
use std::marker::Model;

/// A buffer whose first bytes stay, whatever is appended to it. Contracts see these, and the text behind them.
#[derive(Drop)]
pub(crate) struct Sheet {
    bytes: Vec<u8>,
    start: usize,
}

impl Model for Sheet {
    ghost use Rattle.std.specs.Prelude.{◌≤◌, length, take, drop};
    ghost use Rattle.span_layers.specs.inside.Sheet.{Sheeted, sheeted_code};

    ghost Value = { Sheeted };

    ghost coded = { sheeted_code };

    ghost view = { λ s. record { before = take s.start s.bytes.items; text = drop s.start s.bytes.items } };

    ghost invariant = { λ s. s.start ≤ length s.bytes.items };
}

impl Sheet {
    /// Takes a buffer, behind whose bytes the text shall stand.
    pub(crate) fn new(bytes: Vec<u8>) -> Sheet
        ensures before { result.before ≡ bytes.items }
        ensures text { result.text ≡ [] }
    {
        let start = bytes.len();
        Sheet { bytes, start }
    }

    /// Appends bytes to the text. The only error is that memory was refused.
    #[inline(always)]
    pub(crate) fn push(&mut self, bytes: &[u8]) -> Result<(), AllocError>
        ensures { Adds result self.old self.new bytes.now }
    {
        self.bytes.extend_from_slice(bytes)
    }

    /// The buffer with the text.
    pub(crate) fn finish(self) -> Vec<u8>
        ensures { result.items ≡ self.before ++ self.text }
    {
        let Sheet { bytes, .. } = self;
        bytes
    }

    /// The buffer as it was, with no text.
    pub(crate) fn give_up(self) -> Vec<u8>
        ensures { result.items ≡ self.before }
    {
        let Sheet { mut bytes, start } = self;
        bytes.truncate(start);
        bytes
    }
}
