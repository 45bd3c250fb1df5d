//! The outlets by themselves: each takes a batch with no memory at all, once it had room for it.
ghost use Rattle.std.specs.Prelude.{◌≡◌, ◌≤◌, ◌+◌, [], true, OnOk, length};

use crate::rows::ending::tell_lines;
use crate::rows::reader::read_lines;
use crate::stage::{Memory, Stage, TRIES};
use crate::stop::Stop;
use crate::texts::{meta_of, note_of, plain_formatting};
use span_id::{Id, Level, Limits};
use span_layers::{Formatting, Kind, Note, Say};
use span_outlet::{
    Batch, Call, Kept, KnownEvent, KnownRelease, KnownSpan, Latest, Line, Outlet, ParentOf, Reply,
    Ring,
};
use std::alloc::Global;

/// An outlet that makes the lines itself.
pub(crate) trait Lines {
    /// How many batches were sent to it, and how many notes were missed.
    fn counted(&self) -> (u64, u64);

    /// The lines that it has.
    fn told(&self) -> &[Line];
}

impl<V> Lines for Kept<V> {
    fn counted(&self) -> (u64, u64) {
        (self.batches().len() as u64, self.missed())
    }

    fn told(&self) -> &[Line] {
        self.all()
    }
}

impl<V> Lines for Latest<V> {
    fn counted(&self) -> (u64, u64) {
        (self.sent(), self.missed())
    }

    fn told(&self) -> &[Line] {
        self.lines()
    }
}

/// How many notes were told or missed.
pub(crate) fn notes_of<O: Lines>(outlet: &O) -> u64 {
    outlet
        .counted()
        .1
        .saturating_add(outlet.told().len() as u64)
}

/// Puts a batch with one note into each of two outlets, and tells what they show.
pub(crate) fn run<R: Print>(
    stage: &Stage<R>,
    alloc: Global,
    formatting: Formatting,
) -> Result<(), Stop> {
    put_in_ring(stage, alloc)?;
    stage.begin(Memory::Untouched);
    let mut kept = Kept::new(alloc, formatting);
    stage.over();
    put_in_kept(stage, alloc, &mut kept)
}

fn put_in_ring<R: Print>(stage: &Stage<R>, alloc: Global) -> Result<(), Stop> {
    let checked = Limits::default().check()?;
    stage.begin(Memory::Taken);
    let ends = Ring::pair(alloc, &checked);
    stage.over();
    let Ok((mut ring, tap)) = ends else {
        return Err(Stop::Memory);
    };
    put_in_made_ring(stage, alloc, &mut ring)?;
    read_lines(stage, alloc, tap)
}

fn put_in_made_ring<R: Print>(stage: &Stage<R>, alloc: Global, ring: &mut Ring) -> Result<(), Stop>
    requires { ring.old.sent ≡ [] }
{
    put(stage, alloc, Memory::Untouched, ring)?;
    put_known(stage, alloc, Memory::Untouched, ring, Known::Event(1))?;
    put_known(stage, alloc, Memory::Untouched, ring, Known::Span)?;
    put_known(stage, alloc, Memory::Untouched, ring, Known::Release)?;
    stage.wrote(println!(stage.rt; "ring: times full {}", ring.times_full()));
    Ok(())
}

fn put_in_kept<V: Say, R: Print>(
    stage: &Stage<R>,
    alloc: Global,
    kept: &mut Kept<V>,
) -> Result<(), Stop>
    requires { kept.old.sent ≡ [] }
{
    put(stage, alloc, Memory::Taken, kept)?;
    stage.begin(Memory::Untouched);
    let (batches, notes) = (kept.counted().0, notes_of(kept));
    stage.over();
    stage.wrote(println!(stage.rt; "kept: batches {batches} lines and missed {notes}"));
    Ok(())
}

/// What an outlet is told that is known and not kept: an event of so many notes, a span that was made, or a handle that
/// was given back, both with one note.
#[derive(Clone, Copy)]
enum Known {
    Event(u32),
    Span,
    Release,
}

impl Known {
    fn kind(self) -> Kind {
        match self {
            Known::Event(_) => Kind::OnEvent,
            Known::Span => Kind::OnNew,
            Known::Release => Kind::OnClose,
        }
    }

    fn layers(self) -> u32 {
        match self {
            Known::Event(layers) => layers,
            Known::Span | Known::Release => 1,
        }
    }
}

/// Puts a batch with one note, three events, a span and a release into a `Latest`, and tells what it shows.
pub(crate) fn run_latest<R: Print>(stage: &Stage<R>, alloc: Global) -> Result<(), Stop> {
    let formatting = plain_formatting(alloc)?;
    stage.begin(Memory::Untouched);
    let mut latest = Latest::new(alloc, formatting);
    stage.over();
    put_in_latest(stage, alloc, &mut latest)
}

fn put_in_latest<V: Say, R: Print>(
    stage: &Stage<R>,
    alloc: Global,
    latest: &mut Latest<V>,
) -> Result<(), Stop>
    requires { latest.old.sent ≡ [] }
{
    let before = latest.counted();
    put(stage, alloc, Memory::Untouched, latest)?;
    tell_last(stage, latest, before);
    // The second one's text is copied from the first's.
    tell_known(stage, alloc, latest, Known::Event(1))?;
    tell_known(stage, alloc, latest, Known::Event(1))?;
    tell_known(stage, alloc, latest, Known::Event(2))?;
    tell_known(stage, alloc, latest, Known::Span)?;
    tell_known(stage, alloc, latest, Known::Release)?;
    tell_spare(stage, latest);
    Ok(())
}

// Puts what is known into a `Latest`, which may be refused memory: then notes are missed.
fn tell_known<V: Say, R: Print>(
    stage: &Stage<R>,
    alloc: Global,
    latest: &mut Latest<V>,
    known: Known,
) -> Result<(), Stop>
    requires { length latest.old.sent ≤ 5 }
    ensures { length latest.new.sent ≤ length latest.old.sent + 1 }
{
    let before = latest.counted();
    put_known(stage, alloc, Memory::Taken, latest, known)?;
    tell_last(stage, latest, before);
    Ok(())
}

// Puts what is known where there is room.
fn put_known<O: Outlet, R: Print>(
    stage: &Stage<R>,
    alloc: Global,
    memory: Memory,
    outlet: &mut O,
    known: Known,
) -> Result<(), Stop>
    requires few { length (O.sent outlet.old) ≤ 5 }
    ensures { length (O.sent outlet.new) ≤ length (O.sent outlet.old) + 1 }
{
    room(stage, Memory::Untouched, outlet)?;
    let meta = meta_of(alloc, "event", Level::Warn)?;
    let notes = notes(alloc, known.kind(), known.layers())?;
    let id = Id::pack(0, 0);
    stage.begin(memory);
    let put = match known {
        Known::Event(_) => {
            let event = KnownEvent::new(0, &meta, "x\ny", &[], ParentOf::Current);
            outlet.put_event(event, notes)
        }
        Known::Span => outlet.put_span(KnownSpan::new(0, id, &meta, &[], None), notes),
        Known::Release => outlet.put_release(KnownRelease::new(0, id, &[]), notes),
    };
    stage.over();
    match put {
        Ok(()) => Ok(()),
        Err(_) => Err(stage.refused("put known")),
    }
}

// Tells the list for notes to come, which is there once: both looks take no memory.
fn tell_spare<V: Say, R: Print>(stage: &Stage<R>, latest: &mut Latest<V>) {
    stage.begin(Memory::Untouched);
    let first = latest.spare_notes().is_some();
    let second = latest.spare_notes().is_some();
    stage.over();
    stage.wrote(println!(stage.rt; "spare notes: {first}, {second}"));
}

/// Tells the batch that was sent since so many batches were and so many notes were missed, if there was one: how many
/// notes it has, and the lines of those that were not missed.
pub(crate) fn tell_last<V, R: Print>(
    stage: &Stage<R>,
    latest: &Latest<V>,
    (batches, missed): (u64, u64),
) {
    if latest.sent() != batches {
        let notes = notes_of(latest).saturating_sub(missed);
        stage.wrote(println!(stage.rt; "lines and missed: {notes}"));
        tell_lines(stage, latest.lines());
    }
}

// A note for each of so many layers, which tell the same.
fn notes(alloc: Global, kind: Kind, layers: u32) -> Result<Vec<Note>, Stop> {
    let mut notes = Vec::new(alloc);
    for layer in 0..layers {
        notes.push(note_of(alloc, layer, kind, &[("k", "1")])?)?;
    }
    Ok(notes)
}

// A batch with one note.
fn batch(alloc: Global) -> Result<Batch, Stop> {
    Ok(Batch {
        call: Call::CloneSpan {
            worker: 0,
            id: Id::pack(0, 0),
        },
        reply: Reply::Cloned,
        notes: notes(alloc, Kind::OnNew, 1)?,
    })
}

// Asks for room, which may take memory, and puts a batch, which may not.
fn put<O: Outlet, R: Print>(
    stage: &Stage<R>,
    alloc: Global,
    memory: Memory,
    outlet: &mut O,
) -> Result<(), Stop>
    requires { length (O.sent outlet.old) ≤ 2 }
    ensures { length (O.sent outlet.new) ≤ length (O.sent outlet.old) + 1 }
{
    room(stage, memory, outlet)?;
    let batch = batch(alloc)?;
    stage.begin(Memory::Untouched);
    outlet.put(batch);
    stage.over();
    Ok(())
}

// Asks for room until there is some.
fn room<O: Outlet, R: Print>(stage: &Stage<R>, memory: Memory, outlet: &mut O) -> Result<(), Stop>
    ensures sent { O.sent outlet.new ≡ O.sent outlet.old }
    ensures ready { OnOk result (O.ready outlet.new ≡ true) }
{
    for _ in 0..TRIES {
        stage.begin(memory);
        let room = outlet.room();
        stage.over();
        match room {
            Ok(true) => return Ok(()),
            Ok(false) => return Err(stage.refused("room")),
            Err(_) => {}
        }
    }
    Err(stage.refused_too_often("room"))
}
