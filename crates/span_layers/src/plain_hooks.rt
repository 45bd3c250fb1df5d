//! Layers with no closures: each admits as `admits` does and writes as `text` does.

use crate::filters::{Admit, Admitters};
use crate::form::{Form, text, text_onto};
use crate::formatting::{Formatters, Say};
use crate::hooks::Hooks;
use crate::note::Note;
use crate::rule::{Rule, admits};
use span_id::Meta;
use std::alloc::AllocError;

/// In the place of a closure that applies rules: a layer admits by its rule.
#[derive(Clone, Copy, Debug, PartialEq, Eq, Hash)]
pub struct ByRule;

/// In the place of a closure that writes notes: a layer writes in its form.
#[derive(Clone, Copy, Debug, PartialEq, Eq, Hash)]
pub struct ByForm;

impl Hooks<ByRule, ByForm> {
    /// Hooks of a layer that admits by its rule and writes in its form. They need no closure and no memory.
    pub fn by_rule_and_form() -> Hooks<ByRule, ByForm> {
        Hooks {
            admitter: ByRule,
            formatter: ByForm,
        }
    }
}

impl Admit for Admitters<ByRule> {
    // The rule alone decides, whichever layer it is.
    fn admits(&self, _number: usize, rule: &Rule, meta: &Meta) -> bool {
        admits(rule, meta)
    }
}

impl Say for Formatters<ByForm> {
    // The note's text is made here, whichever layer it is.
    fn say(&self, form: Form, note: &Note) -> Result<Vec<u8>, AllocError> {
        text(self.alloc, form, note)
    }

    // The text is written where it shall stand.
    #[inline(always)]
    fn say_onto(&self, form: Form, note: &Note, out: &mut Vec<u8>) -> Result<(), AllocError> {
        text_onto(form, note, out)
    }

    // There is no closure to be called.
    #[inline(always)]
    fn allows_copies(&self) -> bool {
        true
    }
}
