//! Calls on plain values, which take no memory.

use crate::stage::{Memory, Stage};
use crate::stop::Stop;
use crate::texts::{field_of, meta_of};
use span_id::{Bits, Fault, Field, Id, Level, Limits, Meta};
use span_run::{Counted, WriteFailed, flush, write_text};
use std::alloc::Global;
use std::io;

/// Makes the calls, and tells what they answer.
pub(crate) fn run<R: Print>(stage: &Stage<R>, alloc: Global) -> Result<(), Stop> {
    ids(stage);
    names(stage, alloc)?;
    limits(stage);
    devices(stage);
    Ok(())
}

// The limits that are there without a word, and some that are none.
fn limits<R: Print>(stage: &Stage<R>) {
    stage.begin(Memory::Untouched);
    let most = slots_of(Limits::default());
    let refused = slots_of(Limits {
        slots: 0,
        ..Limits::default()
    });
    stage.over();
    stage.wrote(println!(stage.rt; "check: {most:?} {refused:?}"));
}

fn slots_of(limits: Limits) -> Result<u32, Fault> {
    let checked = limits.check()?;
    Ok(checked.limits().slots)
}

// A counted device, to which a text is written, and the status of a fault.
fn devices<R: Print>(stage: &Stage<R>) {
    stage.begin(Memory::Untouched);
    let mut counted = Counted::new(io::sink());
    let written = write_text(&mut counted, b"text").is_ok();
    let flushed = flush(&mut counted).is_ok();
    let (calls, failed) = (counted.calls(), counted.failed());
    let status = WriteFailed.status();
    stage.over();
    stage.wrote(println!(stage.rt;
        "written: {written}, flushed: {flushed}, counted: {calls} {failed}, status: {status}"
    ));
}

// Ids and sets of layers.
fn ids<R: Print>(stage: &Stage<R>) {
    stage.begin(Memory::Untouched);
    let id = Id::pack(5, 3);
    let parts = (id.get(), id.slot(), id.generation());
    let (none, first, old) = (Id::from_u64(0), Id::from_u64(1), Id::from_v1(65537));
    let bits = (Bits(2).has(0), Bits(2).has(1), Bits(2).has(64));
    stage.over();
    stage.wrote(println!(stage.rt;
        "pack: {parts:?}, from: {none:?} {first:?} {old:?}, has: {bits:?}"
    ));
}

// Whether names fit, and the words for what they are made of.
fn names<R: Print>(stage: &Stage<R>, alloc: Global) -> Result<(), Stop> {
    let meta = meta_of(alloc, "a b", Level::Warn)?;
    let field = field_of(alloc, "k", "v")?;
    words(stage, &meta, &field);
    Ok(())
}

fn words<R: Print>(stage: &Stage<R>, meta: &Meta, field: &Field) {
    stage.begin(Memory::Untouched);
    let fit = (meta.fit(), field.fit());
    let words = (meta.level.name(), Fault::BadName.text());
    stage.over();
    stage.wrote(println!(stage.rt; "fit: {fit:?}, words: {words:?}"));
}
