//! The rows: each a few calls on one part, by name.

mod acts;
mod appended;
mod caller;
mod copies;
mod ending;
mod forest;
mod hands;
mod kept;
mod layers;
mod on_core;
mod on_latest;
mod on_registry;
mod outlets;
mod plain;
mod reader;
mod ring;
mod slots;
mod stack;
mod with_layers;

use crate::rows::acts::Given;
use crate::stage::{Stage, TRIES};
use crate::stop::Stop;
use std::alloc::Global;
use std::sync::Wait;

/// What is called.
#[derive(Clone, Copy)]
pub(crate) enum Row {
    Meta,
    Field,
    Plain,
    Slots,
    Stack,
    Forest,
    Layers,
    Outlets,
    Core,
    Kept,
    GivenUp,
    FullRing,
    Ring,
    Over,
    Texts,
    LatestAlone,
    Latest,
}

// All rows.
static ALL: [Row; 17] = [
    Row::Meta,
    Row::Field,
    Row::Plain,
    Row::Slots,
    Row::Stack,
    Row::Forest,
    Row::Layers,
    Row::Outlets,
    Row::Core,
    Row::Kept,
    Row::GivenUp,
    Row::FullRing,
    Row::Ring,
    Row::Over,
    Row::Texts,
    Row::LatestAlone,
    Row::Latest,
];

impl Row {
    /// The rows that are run together. The others are run by their names alone.
    pub(crate) fn together() -> &'static [Row] {
        &ALL[..13]
    }

    /// The word for it.
    pub(crate) fn name(self) -> &'static str {
        match self {
            Row::Meta => "meta",
            Row::Field => "field",
            Row::Plain => "plain",
            Row::Slots => "slots",
            Row::Stack => "stack",
            Row::Forest => "forest",
            Row::Layers => "layers",
            Row::Outlets => "outlets",
            Row::Core => "core",
            Row::Kept => "kept",
            Row::GivenUp => "given_up",
            Row::FullRing => "full_ring",
            Row::Ring => "ring",
            Row::Over => "over",
            Row::Texts => "texts",
            Row::LatestAlone => "latest_alone",
            Row::Latest => "latest",
        }
    }

    /// The row of this name.
    pub(crate) fn named(name: &str) -> Option<Row> {
        ALL.iter().copied().find(|row| row.name() == name)
    }

    /// Makes its calls, and tells what they answer. Where memory is refused before the first one it begins anew.
    pub(crate) fn run<R: Print + Wait>(self, stage: &Stage<R>, alloc: Global) -> Result<(), Stop> {
        stage.wrote(println!(stage.rt; "== {}", self.name()));
        for _ in 0..TRIES {
            match self.begin(stage, alloc) {
                Err(Stop::Memory) => {}
                ended => return ended,
            }
        }
        Err(stage.refused_too_often("new"))
    }

    fn begin<R: Print + Wait>(self, stage: &Stage<R>, alloc: Global) -> Result<(), Stop> {
        match self {
            Row::Meta | Row::Field | Row::Over => copies::run(stage, alloc, self),
            Row::Plain => plain::run(stage, alloc),
            Row::Slots => slots::run(stage, alloc),
            Row::Stack => stack::run(stage, alloc),
            Row::Forest => forest::run(stage, alloc),
            Row::LatestAlone => outlets::run_latest(stage, alloc),
            Row::Layers => self.with_layers(stage, alloc, 65),
            Row::Latest => self.with_layers(stage, alloc, 2),
            Row::FullRing => self.with_layers(stage, alloc, 0),
            Row::Outlets | Row::Core | Row::Kept | Row::GivenUp | Row::Ring | Row::Texts => {
                self.with_layers(stage, alloc, 1)
            }
        }
    }

    // Makes what calls are given, and goes on with so many layers.
    fn with_layers<R: Print + Wait>(
        self,
        stage: &Stage<R>,
        alloc: Global,
        count: usize,
    ) -> Result<(), Stop> {
        let ring = if matches!(self, Row::FullRing) {
            1
        } else {
            1024
        };
        let given = Given::new(alloc, ring)?;
        with_layers::run(stage, alloc, self, count, &given)
    }
}
