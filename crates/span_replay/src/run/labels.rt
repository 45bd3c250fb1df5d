//! The labels by which a script's lines name spans.
ghost use Rattle.std.specs.Prelude.{◌≡◌, [], None, map, OnOk, OnErr};

use crate::run::lately::Lately;
use span_id::Id;
use std::alloc::{AllocError, Global};
use std::collections::BTreeMap;
use std::collections::btree_map::Values;
use std::marker::Model;

/// The labels that were bound, each to the id that its last accepted `new` got. Contracts see them in the order of
/// their bytes, each with its id.
#[derive(Drop)]
pub struct Labels {
    ids: BTreeMap<String, Id>,
    // Those of them that were bound last: most lines name one of these, and need not look for it among all.
    lately: Lately,
}

impl Model for Labels {
    ghost use Rattle.std.specs.Prelude.{map, string_bytes};
    ghost use Rattle.span_replay.specs.Labels.{Bound};
    ghost use Rattle.span_replay.specs.inside.Lately.{AreBound};

    ghost Value = { Bound };

    ghost view = { λ labels. map (λ entry. (string_bytes entry.0, entry.1)) labels.ids.entries };

    ghost invariant = { λ labels. AreBound (map (λ entry. (string_bytes entry.0, entry.1)) labels.ids.entries)
        labels.lately.newest labels.lately.older };
}

impl Labels {
    ghost use Rattle.span_replay.specs.Labels.{id_in, with_label};

    /// No labels.
    pub fn new(alloc: Global) -> Labels
        ensures { result ≡ [] }
    {
        Labels {
            ids: BTreeMap::new(alloc),
            lately: Lately::new(),
        }
    }

    /// The id that the label names.
    pub fn get(&self, label: &str) -> Option<Id>
        ensures { result ≡ id_in self.now label.now }
    {
        match self.lately.get(label) {
            Some(id) => Some(id),
            None => self.ids.get(label).copied(),
        }
    }

    /// Binds a label to an id, in place of what it named before. The other labels stay.
    ///
    /// A label that is bound already takes no memory. Where memory is refused, no label has changed.
    pub fn bind(&mut self, alloc: Global, label: &str, id: Id) -> Result<(), AllocError>
        ensures ok { OnOk result (self.new ≡ with_label self.old label.now id) }
        ensures err { OnErr result (self.new ≡ self.old) }
    {
        if let Some(bound) = self.ids.get_mut(label) {
            *bound = id;
            self.lately.bind(label, id);
            return Ok(());
        }
        self.bind_first(alloc, label, id)
    }

    /// Binds a label that names nothing yet to an id.
    ///
    /// Where memory is refused, no label has changed.
    pub fn bind_first(&mut self, alloc: Global, label: &str, id: Id) -> Result<(), AllocError>
        requires { id_in self.old label.now ≡ None }
        ensures ok { OnOk result (self.new ≡ with_label self.old label.now id) }
        ensures err { OnErr result (self.new ≡ self.old) }
    {
        let text = String::from_str(alloc, label)?;
        self.ids.insert(text, id)?;
        self.lately.bind(label, id);
        Ok(())
    }

    /// The ids that the labels name, in the order of the labels' bytes.
    pub fn ids(&self) -> Values<'_, String, Id>
        ensures { result ≡ map (λ entry. entry.1) self.now }
    {
        self.ids.values()
    }
}
