//! A new span's notes, which are made before it is there.
ghost use Rattle.std.specs.Prelude.{◌≡◌, ◌++◌, ◌∷◌, [], map, filter, length, IfOk, OnOk, IfErr};
ghost use Rattle.std.specs.List.{range_with_len};
ghost use Rattle.span_layers.specs.declared.note.Kind.TheVariants.{OnNew};
ghost use Rattle.span_layers.specs.Note.{plain_note};
ghost use Rattle.span_forest.specs.Path.{path_text};
ghost use Rattle.span_core.specs.inside.Given.{meta_given};
ghost use Rattle.span_core.specs.inside.Sound.{hears};
ghost use Rattle.span_core.specs.inside.Lent.{first_note_of};
ghost use Rattle.span_core.specs.inside.Remembering.{Remembers};
ghost use Rattle.span_core.specs.inside.Telling.{Knows};

use crate::given::GivenMeta;
use crate::notes::layers::is_told_to_none;
use crate::notes::paths::SharedPaths;
use crate::notes::{Happening, Subject, listed};
use crate::recent::Recent;
use span_forest::Forest;
use span_id::{Bits, Fault, Fields, Id};
use span_layers::{Kind, Note, Rules};

/// A new span: which worker makes it, the id that it gets, the layers that admit it, its parent, and the meta that the
/// caller gave.
#[derive(Clone, Copy)]
pub(crate) struct NewSpan<'a> {
    pub(crate) worker: u32,
    pub(crate) id: Id,
    pub(crate) bits: Bits,
    pub(crate) parent: Option<Id>,
    pub(crate) meta: GivenMeta<'a>,
}

// The notes of a new span with these fields: one for each layer that admits it and wants new spans. The paths that they
// tell are left.
pub(crate) fn new_notes(
    recent: &mut Recent,
    rules: &Rules,
    forest: &Forest,
    new: &NewSpan<'_>,
    fields: &Fields,
    paths: &mut SharedPaths,
) -> Result<Vec<Note>, Fault>
    requires known { Knows (λ path. path_text (path ++ (meta_given new.now.meta).name ∷ [])) forest.now.spans paths.old }
    requires remembers { Remembers forest.now recent.old.paths }
    ensures notes { IfOk result (λ notes. map plain_note notes.items
        ≡ map (first_note_of forest.now.spans new.now fields.now)
        (filter (hears rules.now new.now.bits.0 OnNew) (range_with_len 0 (length rules.now)))) }
    ensures known { OnOk result
        (Knows (λ path. path_text (path ++ (meta_given new.now.meta).name ∷ [])) forest.now.spans paths.new) }
    ensures remembers { Remembers forest.now recent.new.paths }
    ensures memory { IfErr result (λ fault. fault ≡ Fault.Memory) }
{
    let kind = Kind::OnNew;
    if is_told_to_none(rules, new.bits, kind) {
        return Ok(Vec::new(recent.alloc));
    }
    let what = Happening {
        worker: new.worker,
        kind,
        bits: new.bits,
        fields,
        subject: Subject::NewSpan {
            id: new.id,
            parent: new.parent,
            name: new.meta.read().name.as_str(),
        },
    };
    listed(recent, paths, rules, forest, &what)
}
