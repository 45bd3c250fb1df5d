//! What a core keeps from call to call to spare allocations and walks.
ghost use Rattle.std.specs.Prelude.{◌≡◌, [], IfOk, IfErr};
ghost use Rattle.span_id.specs.Meta.{plain_fields};
ghost use Rattle.span_forest.specs.Forest.{ForestView};
ghost use Rattle.span_core.specs.inside.Remembering.{Remembers};

use crate::known_paths::KnownPaths;
use span_id::{Fault, Field, Fields, Id};
use span_layers::Note;
use span_recent::{RecentFields, RecentMetas, SpareFields};
use std::alloc::Global;
use std::mem;

// For how many notes more than twice those of a call its list may have room.
const MOST_LEFT: usize = 2;

// A list with room for more ids than this is freed.
const MOST_IDS: usize = 64;

/// The metas that were copied lately, to be shared where they come again, the fields of events that were copied lately,
/// to be written over where nobody else has them, as the fields of a span that closed are, the paths that were told at
/// spans that are open, and lists for the notes of a call to come and for the spans that it closes, which have no memory
/// where there is none. The metas and the fields have less than 64 KiB together, whatever is told.
#[derive(Drop)]
pub(crate) struct Recent {
    pub(crate) alloc: Global,
    pub(crate) metas: RecentMetas,
    fields: RecentFields,
    pub(crate) paths: KnownPaths,
    pub(crate) spare: Vec<Note>,
    pub(crate) spare_fields: SpareFields,
    ids: Vec<Id>,
    // How many entries of stacks were looked at in vain since the last event that was told in a deep one.
    pub(crate) in_vain: u64,
}

impl Recent {
    /// Nothing yet; the notes of later calls may share the paths or not. It takes no memory.
    pub(crate) fn none(alloc: Global, shares: bool) -> Recent
        ensures { (forest : ForestView) → Remembers forest result.paths }
    {
        Recent {
            alloc,
            metas: RecentMetas::none(alloc),
            fields: RecentFields::none(alloc),
            paths: KnownPaths::none(alloc, shares),
            spare: Vec::new(alloc),
            spare_fields: SpareFields::none(alloc),
            ids: Vec::new(alloc),
            in_vain: 0,
        }
    }

    /// Equal fields of their own. Where the notes of later calls may share what a call tells, they are made in the memory
    /// of an earlier copy that nobody else has any longer; where they may not, the caller is the only owner.
    pub(crate) fn copy_fields(&mut self, fields: &[Field]) -> Result<Fields, Fault>
        ensures fields { IfOk result (λ copy. copy ≡ plain_fields fields.now) }
        ensures paths { self.new.paths ≡ self.old.paths }
        ensures memory { IfErr result (λ fault. fault ≡ Fault.Memory) }
    {
        if self.paths.shares {
            self.fields.copy(fields)
        } else {
            Fields::copy_of(self.alloc, fields)
        }
    }

    /// Keeps the memory of a closed span's fields for the next span, where the notes of later calls may share what a call
    /// tells: else whoever keeps batches has the fields.
    pub(crate) fn keep_fields(&mut self, fields: Fields)
        ensures { self.new.paths ≡ self.old.paths }
    {
        if self.paths.shares {
            self.spare_fields.keep(fields);
        }
    }

    /// An empty list for the spans that a release closes: the one that was kept, in place of which another without memory
    /// stands then.
    pub(crate) fn empty_ids(&mut self) -> Vec<Id>
        ensures empty { result.items ≡ [] }
        ensures paths { self.new.paths ≡ self.old.paths }
    {
        let mut ids = mem::replace(&mut self.ids, Vec::new(self.alloc));
        ids.clear();
        ids
    }

    /// Keeps a list of ids for the next release, unless it has room for many.
    pub(crate) fn take_ids(&mut self, ids: Vec<Id>)
        ensures { self.new.paths ≡ self.old.paths }
    {
        if ids.capacity() <= MOST_IDS {
            self.ids = ids;
        }
    }
}

/// An empty list for so many notes, with no memory where there are none: the spare one, in place of which another
/// without memory stands then. One with room for many more is freed, so that a batch keeps little more memory than its
/// notes need.
pub(crate) fn empty_list(alloc: Global, spare: &mut Vec<Note>, notes: usize) -> Vec<Note>
    ensures { result.items ≡ [] }
{
    if notes == 0 {
        return Vec::new(alloc);
    }
    let mut list = mem::replace(spare, Vec::new(alloc));
    if list.capacity() > MOST_LEFT.saturating_add(notes.saturating_mul(2)) {
        return Vec::new(alloc);
    }
    list.clear();
    list
}
