//! A span and its child, with what holds them.

use crate::answer::{Answer, done, held};
use crate::named::Named::{self, One, Two};
use crate::rows::acts::Called;
use crate::stage::Memory::{Taken, Untouched};
use crate::stage::Stage;
use crate::stop::Stop;
use crate::texts::{add_id, add_numbers, add_span, shared_fields_of, shared_meta_of};
use crate::trial::{Planned, Subject, perform};
use span_forest::Forest;
use span_forest::Holder::{self, Entry, Handle};
use span_id::{Bits, Fault, Fields, Id, Limits, SharedMeta};
use std::alloc::{AllocError, Global};

enum Act {
    Add(Called, Option<Named>),
    Keep(Named, Holder),
    Closing(Named, Holder),
    Release(Named, Holder),
    WriteFields(Named),
    Path(u32, Named),
    PathText(u32, Named),
    Find(Named),
    OpenSpans,
    HeldSpans,
    HoldersOf(Named),
    Len,
    Total,
    NextId,
}

// Both spans are made, kept, written and released.
static PLAN: [Planned<'static, Act>; 25] = [
    ("add a", Untouched, Act::Add(Called::A, None)),
    ("add b under 1", Untouched, Act::Add(Called::B, Some(One))),
    ("path of 2 for layer 0", Taken, Act::Path(0, Two)),
    ("path of 2 for layer 1", Taken, Act::Path(1, Two)),
    ("path text of 2 for layer 0", Taken, Act::PathText(0, Two)),
    ("path text of 2 for layer 1", Taken, Act::PathText(1, Two)),
    ("write fields of 1", Taken, Act::WriteFields(One)),
    ("write fields of 2", Taken, Act::WriteFields(Two)),
    ("keep 1 by an entry", Untouched, Act::Keep(One, Entry)),
    ("open spans", Taken, Act::OpenSpans),
    ("held spans", Taken, Act::HeldSpans),
    ("holders of 1", Taken, Act::HoldersOf(One)),
    ("release 1 by its entry", Taken, Act::Release(One, Entry)),
    ("closing 1", Taken, Act::Closing(One, Handle)),
    ("release 1", Taken, Act::Release(One, Handle)),
    ("closing 2", Taken, Act::Closing(Two, Handle)),
    ("find 2", Untouched, Act::Find(Two)),
    ("keep 1", Untouched, Act::Keep(One, Handle)),
    ("release 2", Taken, Act::Release(Two, Handle)),
    ("len", Untouched, Act::Len),
    ("total", Untouched, Act::Total),
    ("next id", Untouched, Act::NextId),
    ("release 2", Taken, Act::Release(Two, Handle)),
    ("path of 2 for layer 0", Taken, Act::Path(0, Two)),
    ("holders of 2", Taken, Act::HoldersOf(Two)),
];

/// What the spans are called, and their fields.
#[derive(Drop)]
struct Texts {
    a: SharedMeta,
    b: SharedMeta,
    fields: Fields,
    none: Fields,
}

impl Texts {
    // The spans `a` and `b`, two fields, and no fields.
    fn new(alloc: Global) -> Result<Texts, Stop> {
        Ok(Texts {
            a: shared_meta_of(alloc, "a")?,
            b: shared_meta_of(alloc, "b")?,
            fields: shared_fields_of(alloc, &[("k", "v"), ("l", "w")])?,
            none: Fields::none(),
        })
    }

    // What a span is made with: `a` has no fields.
    fn parts(&self, called: &Called) -> (&SharedMeta, &Fields) {
        match called {
            Called::A => (&self.a, &self.none),
            Called::B => (&self.b, &self.fields),
        }
    }
}

/// A forest, and what is put into it.
#[derive(Drop)]
struct OnForest<'t> {
    forest: Forest,
    texts: &'t Texts,
}

/// Makes the calls, and tells what they answer.
pub(crate) fn run<R: Print>(stage: &Stage<R>, alloc: Global) -> Result<(), Stop> {
    let texts = Texts::new(alloc)?;
    on_forest(stage, alloc, &texts)
}

fn on_forest<R: Print>(stage: &Stage<R>, alloc: Global, texts: &Texts) -> Result<(), Stop> {
    let checked = Limits::default().check()?;
    stage.begin(Taken);
    let made = Forest::new(alloc, &checked);
    stage.over();
    match made {
        Ok(forest) => perform(stage, alloc, &mut OnForest { forest, texts }, &PLAN),
        Err(_) => Err(Stop::Memory),
    }
}

impl<'t> Subject<Act> for OnForest<'t> {
    fn call(&mut self, act: &Act) -> Result<Answer, Fault> {
        let forest = &mut self.forest;
        match act {
            Act::Add(called, parent) => add(forest, self.texts.parts(called), *parent),
            Act::Keep(named, holder) => done(forest.keep(named.id(), *holder)),
            Act::Closing(named, holder) => {
                forest.closing(named.id(), *holder).map(Answer::Spans)
            }
            Act::Release(named, holder) => {
                forest.release(named.id(), *holder).map(Answer::Spans)
            }
            Act::WriteFields(named) => {
                done(forest.write_fields(named.id(), self.texts.fields.as_slice()))
            }
            Act::Path(layer, named) => forest.path(*layer, named.id()).map(Answer::Names),
            Act::PathText(layer, named) => {
                let path = forest.path_text(*layer, named.id())?;
                Ok(Answer::Text(path.text))
            }
            Act::Find(named) => Ok(held(forest.find(named.id()))),
            Act::OpenSpans => forest.open_spans().map(Answer::Spans),
            Act::HeldSpans => forest.held_spans().map(Answer::Holders),
            Act::HoldersOf(named) => forest.holders_of(named.id()).map(Answer::Holders),
            Act::Len => Ok(Answer::Number(u64::from(forest.len()))),
            Act::Total => Ok(Answer::Number(forest.total())),
            Act::NextId => Ok(Answer::from(forest.next_id())),
        }
    }

    fn look(&mut self, text: &mut String) -> Result<(), AllocError> {
        let forest = &self.forest;
        let len = u64::from(forest.len());
        add_numbers(text, &[len, forest.total(), forest.handles()])?;
        add_id(text, forest.next_id())?;
        for slot in 0..3 {
            if let Some(span) = forest.find(Id::pack(slot, 0)) {
                add_span(text, span)?;
            }
        }
        Ok(())
    }
}

fn add(
    forest: &mut Forest,
    (meta, fields): (&SharedMeta, &Fields),
    parent: Option<Named>,
) -> Result<Answer, Fault> {
    let parent = parent.map(Named::id);
    let (meta, fields) = (meta.share()?, fields.share()?);
    forest.add(meta, fields, parent, Bits(1)).map(Answer::Span)
}
