//! Open spans by their parents.
ghost use Rattle.std.specs.Prelude.{◌≡◌, ℕ, [], ◌∷◌, ◌++◌, map, IfOk, OnOk};
ghost use Rattle.std.specs.Option.{option_map_or};
ghost use Rattle.span_why.specs.Why.{children_of, plain_open_span, roots};
ghost use Rattle.span_why.specs.inside.Families.{AreFamilies, children_in, roots_in};

use crate::open_span::OpenSpan;
use span_id::Id;
use std::alloc::{AllocError, Global};
use std::collections::BTreeMap;

/// The roots, and for each span that has children these, all in the order in which they came.
#[derive(Drop)]
pub(crate) struct Families<'s> {
    pub(crate) roots: Vec<&'s OpenSpan>,
    children: BTreeMap<u64, Vec<&'s OpenSpan>>,
}

impl<'s> Families<'s> {
    /// The families of these spans.
    pub(crate) fn of(alloc: Global, spans: &'s [OpenSpan]) -> Result<Families<'s>, AllocError>
        ensures { IfOk result (AreFamilies (map plain_open_span spans.now)) }
    {
        let mut families = Families {
            roots: Vec::new(alloc),
            children: BTreeMap::new(alloc),
        };
        for span in spans {
            families.add(alloc, span)?;
        }
        Ok(families)
    }

    /// The children of a span, the first one first, if it has some.
    pub(crate) fn children(&self, id: Id) -> Option<&Vec<&'s OpenSpan>>
        ensures { option_map_or (λ listed. map (λ span. plain_open_span span.now) listed.now.items) result []
            ≡ children_in self.now id }
    {
        self.children.get(&id.get())
    }

    // Adds a span to the roots, or to the children of its parent.
    fn add(&mut self, alloc: Global, span: &'s OpenSpan) -> Result<(), AllocError>
        ensures roots { OnOk result (roots_in self.new ≡ roots_in self.old ++ roots (plain_open_span span.now ∷ [])) }
        ensures children { OnOk result ((id : ℕ) →
            children_in self.new id ≡ children_in self.old id ++ children_of (plain_open_span span.now ∷ []) id) }
    {
        match span.details.parent {
            Some(parent) => self.add_child(alloc, parent, span),
            None => {
                self.roots.push(span)?;
                Ok(())
            }
        }
    }

    // Adds a span to the children of its parent.
    fn add_child(&mut self, alloc: Global, parent: Id, span: &'s OpenSpan) -> Result<(), AllocError>
        requires { span.now.details.parent ≡ Some parent }
        ensures roots { roots_in self.new ≡ roots_in self.old }
        ensures children { OnOk result ((id : ℕ) →
            children_in self.new id ≡ children_in self.old id ++ children_of (plain_open_span span.now ∷ []) id) }
    {
        let mut siblings = match self.children.remove(&parent.get()) {
            Some(siblings) => siblings,
            None => Vec::new(alloc),
        };
        siblings.push(span)?;
        self.children.insert(parent.get(), siblings)?;
        Ok(())
    }
}
