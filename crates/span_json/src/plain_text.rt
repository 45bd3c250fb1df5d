//! A text of JSON as it is read byte by byte, as long as it is plain.
ghost use Rattle.std.specs.Prelude.{◌≡◌, ◌<◌, [], ◌∷◌, ◌++◌, IfSome, true};
ghost use Rattle.std.specs.Bool.{MatchBool, OnTrue};
ghost use Rattle.json.specs.Lex.{between, class, lex, operator, operator_lexeme, token};
ghost use Rattle.json.specs.Token as spec;
ghost use Rattle.json.specs.Word.{ends_word, head};

use crate::runs::{is_space, number_end, plain_end, spaces_end};
use json::is_number;
use std::marker::Model;

/// A text from a place on. Contracts see what is left of it. Where a number or a literal isn't taken the place may have
/// moved: the text isn't plain then.
#[derive(Drop)]
pub(crate) struct PlainText<'t> {
    text: &'t str,
    // Where it goes on.
    at: usize,
}

impl<'t> Model for PlainText<'t> {
    ghost use Rattle.std.specs.Prelude.{ℕ, List, drop};
    ghost use Rattle.span_json.specs.inside.Plain.{IsInside};

    ghost Value = { List ℕ };

    ghost view = { λ inside. drop inside.at inside.text.now };

    ghost invariant = { IsInside };
}

impl<'t> PlainText<'t> {
    #[inline(always)]
    pub(crate) fn new(text: &'t str) -> PlainText<'t>
        ensures { result ≡ text.now }
    {
        PlainText { text, at: 0 }
    }

    /// Whether nothing is left.
    #[inline(always)]
    pub(crate) fn is_empty(&self) -> bool
        ensures { OnTrue result (self.now ≡ []) }
    {
        self.at == self.text.len()
    }

    /// The next byte, or a space at the end.
    #[inline(always)]
    pub(crate) fn peek(&self) -> u8
        ensures { result ≡ head self.now }
    {
        let bytes = self.text.as_bytes();
        if self.at < bytes.len() {
            bytes[self.at]
        } else {
            b' '
        }
    }

    #[inline(always)]
    pub(crate) fn skip_spaces(&mut self)
        ensures { lex between self.new ≡ lex between self.old }
    {
        self.at = spaces_end(self.text.as_bytes(), self.at);
    }

    /// Takes a bracket, a comma or a colon, which is the next byte.
    #[inline(always)]
    pub(crate) fn skip_mark(&mut self)
        requires { class (head self.old) ≡ operator }
        ensures { lex between self.old ≡ operator_lexeme (head self.old) ∷ lex between self.new }
    {
        self.at += 1;
    }

    /// Takes a bracket, a comma or a colon, where it is the next byte.
    #[inline(always)]
    pub(crate) fn takes(&mut self, mark: u8) -> bool
        requires { class mark ≡ operator }
        ensures { MatchBool result (lex between self.old ≡ operator_lexeme mark ∷ lex between self.new)
            (self.new ≡ self.old) }
    {
        if self.peek() != mark {
            return false;
        }
        self.skip_mark();
        true
    }

    /// Takes a text without escapes, which begins with the next byte, a quote.
    #[inline(always)]
    pub(crate) fn text(&mut self) -> Option<&'t str>
        requires { head self.old ≡ 34 }
        ensures { IfSome result (λ text. lex between self.old ≡ token (spec.string text.now) ∷ lex between self.new) }
    {
        let text = self.text;
        let bytes = text.as_bytes();
        let start = self.at + 1;
        let end = plain_end(bytes, start);
        if end == bytes.len() || bytes[end] != b'"' {
            return None;
        }
        self.at = end + 1;
        Some(&text[start..end])
    }

    /// Takes a number, which begins with the next byte.
    #[inline(always)]
    pub(crate) fn number(&mut self) -> Option<&'t str>
        requires { head self.old < 128 }
        ensures { IfSome result (λ text. lex between self.old ≡ token (spec.number text.now) ∷ lex between self.new) }
    {
        let text = self.text;
        let start = self.at;
        let end = number_end(text.as_bytes(), start);
        self.at = end;
        if !self.ends_word() {
            return None;
        }
        let number = &text[start..end];
        if is_number(number) {
            Some(number)
        } else {
            None
        }
    }

    /// Takes a literal, where it is what comes next.
    #[inline(always)]
    pub(crate) fn takes_literal(&mut self, literal: &[u8]) -> bool
        ensures { OnTrue result ((self.old ≡ literal.now ++ self.new) × (ends_word self.new ≡ true)) }
    {
        let rest = &self.text.as_bytes()[self.at..];
        if !rest.starts_with(literal) {
            return false;
        }
        self.at += literal.len();
        self.ends_word()
    }

    // Whether a number or a literal may end here.
    #[inline(always)]
    fn ends_word(&self) -> bool
        ensures { OnTrue result (ends_word self.now ≡ true) }
    {
        let next = self.peek();
        matches!(next, b',' | b'}' | b']') || is_space(next)
    }
}
