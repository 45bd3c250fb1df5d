//! A meta and fields, copied, also to be shared and over earlier fields, and fields that grow.

use crate::answer::{Answer, done};
use crate::rows::Row;
use crate::stage::Memory::{self, Taken, Untouched};
use crate::stage::{Stage, TRIES};
use crate::stop::Stop;
use crate::texts::{fields_of, meta_of, shared_fields_of};
use crate::trial::{Planned, Subject, perform, tell};
use span_id::{Fault, Field, Fields, Level, Meta, SharedMeta};
use std::alloc::{AllocError, Global};

/// What is copied.
enum Act {
    Meta,
    /// The meta, to be shared.
    SharedMeta,
    /// The field at this place.
    Field(usize),
    /// The fields, to be shared.
    Fields,
    /// The first field, which is moved in to be shared.
    One,
    /// A field, over none.
    OneOver,
    /// So many of the fields, behind those that grow.
    More(usize),
    /// Nothing: what grew so is told.
    Grown,
    /// The fields, and a field, over some that have another owner, who keeps them.
    OverShared,
    OneOverShared,
    /// Nothing: what that other owner has is told.
    TheirOwner,
}

static META: [Planned<'static, Act>; 2] = [
    ("copy", Taken, Act::Meta),
    ("copy to share", Taken, Act::SharedMeta),
];

static FIELD: [Planned<'static, Act>; 3] = [
    ("copy", Taken, Act::Field(0)),
    ("copy", Taken, Act::Field(1)),
    ("copy to share", Taken, Act::Fields),
];

// The first field lies in the list itself, which takes a block for the second.
static GROWING: [Planned<'static, Act>; 6] = [
    ("one to share", Taken, Act::One),
    ("one over none", Taken, Act::OneOver),
    ("one behind none", Taken, Act::More(1)),
    ("one behind one", Taken, Act::More(1)),
    ("two behind two", Taken, Act::More(2)),
    ("what grew", Untouched, Act::Grown),
];

static OVER_SHARED: [Planned<'static, Act>; 3] = [
    ("copy over shared", Taken, Act::OverShared),
    ("one over shared", Taken, Act::OneOverShared),
    ("their other owner", Untouched, Act::TheirOwner),
];

/// Earlier fields of one owner, over which others are copied.
struct Earlier {
    /// What the call is called.
    name: &'static str,
    pairs: &'static [(&'static str, &'static str)],
    /// Whether the copy takes memory: none where they are as many, and their texts have room for the new ones.
    memory: Memory,
}

static EARLIER: [Earlier; 3] = [
    Earlier {
        name: "copy over shorter texts",
        pairs: &[("", ""), ("", "")],
        memory: Taken,
    },
    Earlier {
        name: "copy over longer texts",
        pairs: &[("key", "one"), ("key", "two")],
        memory: Untouched,
    },
    Earlier {
        name: "copy over fewer",
        pairs: &[("k", "3")],
        memory: Taken,
    },
];

// Earlier ones over which one field is written.
static BEFORE_ONE: [Earlier; 3] = [
    Earlier {
        name: "one over shorter texts",
        pairs: &[("", "")],
        memory: Taken,
    },
    Earlier {
        name: "one over longer texts",
        pairs: &[("key", "one")],
        memory: Untouched,
    },
    Earlier {
        name: "one over two",
        pairs: &[("k", "1"), ("k", "2")],
        memory: Taken,
    },
];

/// A meta, two fields, some that have another owner, and some that grow.
#[derive(Drop)]
struct Copied<'a> {
    alloc: Global,
    meta: &'a Meta,
    fields: &'a [Field],
    owned: &'a Fields,
    grown: Fields,
}

/// Makes the row's copies, and tells what they are.
pub(crate) fn run<R: Print>(stage: &Stage<R>, alloc: Global, row: Row) -> Result<(), Stop> {
    let meta = meta_of(alloc, "a", Level::Info)?;
    let fields = fields_of(alloc, &[("k", "1"), ("k", "2")])?;
    let owned = shared_fields_of(alloc, &[("k", "3"), ("k", "4")])?;
    let mut copied = Copied {
        alloc,
        meta: &meta,
        fields: fields.as_slice(),
        owned: &owned,
        grown: Fields::none(),
    };
    copy(stage, alloc, row, &mut copied)
}

fn copy<R: Print>(
    stage: &Stage<R>,
    alloc: Global,
    row: Row,
    copied: &mut Copied<'_>,
) -> Result<(), Stop> {
    match row {
        Row::Meta => perform(stage, alloc, copied, &META),
        Row::Field => {
            perform(stage, alloc, copied, &FIELD)?;
            perform(stage, alloc, copied, &GROWING)
        }
        _ => {
            for earlier in &EARLIER {
                copy_over(stage, alloc, copied.fields, earlier)?;
            }
            let (one, _) = copied.fields.split_at(copied.fields.len().min(1));
            for earlier in &BEFORE_ONE {
                copy_over(stage, alloc, one, earlier)?;
            }
            perform(stage, alloc, copied, &OVER_SHARED)
        }
    }
}

impl<'a> Subject<Act> for Copied<'a> {
    fn call(&mut self, act: &Act) -> Result<Answer, Fault> {
        let alloc = self.alloc;
        match act {
            Act::Meta => self.meta.copy(alloc).map(Answer::Meta),
            Act::SharedMeta => SharedMeta::copy_of(alloc, self.meta).map(Answer::SharedMeta),
            Act::Field(place) => match self.fields.get(*place) {
                Some(field) => field.copy(alloc).map(Answer::Field),
                None => Ok(Answer::Nothing),
            },
            Act::Fields => Fields::copy_of(alloc, self.fields).map(Answer::Fields),
            Act::One => match self.fields.first() {
                Some(field) => Fields::one(alloc, field.copy(alloc)?).map(Answer::Fields),
                None => Ok(Answer::Nothing),
            },
            Act::OneOver => {
                let over = Fields::none().one_over(alloc, "k", "1");
                over.map(Answer::Fields)
            }
            Act::More(most) => {
                let (more, _) = self.fields.split_at(self.fields.len().min(*most));
                done(self.grown.extend(alloc, more))
            }
            Act::Grown => self.grown.share().map(Answer::Fields),
            Act::OverShared => {
                let these = self.owned.share()?;
                these.copy_over(alloc, self.fields).map(Answer::Fields)
            }
            Act::OneOverShared => {
                let these = self.owned.share()?;
                these.one_over(alloc, "k", "1").map(Answer::Fields)
            }
            Act::TheirOwner => self.owned.share().map(Answer::Fields),
        }
    }

    fn look(&mut self, text: &mut String) -> Result<(), AllocError> {
        write!(text, "{:?} {:?} ", self.meta, self.fields)?;
        write!(text, "{:?} {:?}", self.owned, self.grown)
    }
}

// Copies the fields over earlier ones, which are gone where that was refused and are made anew.
fn copy_over<R: Print>(
    stage: &Stage<R>,
    alloc: Global,
    fields: &[Field],
    earlier: &Earlier,
) -> Result<(), Stop> {
    for _ in 0..TRIES {
        let these = shared_fields_of(alloc, earlier.pairs)?;
        stage.begin(earlier.memory);
        let copy = match fields {
            [one] => these.one_over(alloc, &one.key, &one.value),
            _ => these.copy_over(alloc, fields),
        };
        stage.over();
        if let Some(ended) = copied_over(stage, earlier, copy) {
            return ended;
        }
    }
    Err(stage.refused_too_often(earlier.name))
}

// What such a copy means: nothing where it was refused memory that it may take.
fn copied_over<R: Print>(
    stage: &Stage<R>,
    earlier: &Earlier,
    copy: Result<Fields, Fault>,
) -> Option<Result<(), Stop>> {
    match copy {
        Ok(copy) => {
            tell(stage, earlier.name, &Answer::Fields(copy));
            Some(Ok(()))
        }
        Err(Fault::Memory) if matches!(earlier.memory, Taken) => None,
        Err(_) => Some(Err(stage.refused(earlier.name))),
    }
}
