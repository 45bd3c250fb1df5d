//! The reader's thread, and what it reads when all threads have ended.
ghost use Rattle.std.specs.Prelude.{◌≡◌, ◌+◌, ◌++◌, ◌↔◌, [], Some, IfOk, length};
ghost use Rattle.span_outlet.specs.Lines.{lines_of};
ghost use Rattle.span_outlet.specs.LineReader.{AreLeft, HasGiven};
ghost use Rattle.span_registry.specs.Share.{IsWhole};
ghost use Rattle.call_loops.specs.ReadOut.{GivesLines, HasReadOn, IsReadOut};

use span_id::Fault;
use span_layers::Say;
use span_registry::{Counts, LineReader, Registry, Ring, Setup, Share};
use std::snapshot::Snapshot;
use std::sync::Wait;
use std::sync::atomic::{AtomicBool, Ordering};
use std::sync::ledger::Ledger;
use std::thread;
use std::thread::{Promise, PromisedHandle, Scope};
use std::time::{Clock, Duration};

/// How a reader goes through its lines.
#[derive(Clone, Copy)]
pub enum Pace {
    /// Without a rest.
    Steady,
    /// It sleeps now and then.
    WithSleeps,
}

// After so many fills the reader sleeps so long, in milliseconds.
const FILLS: u32 = 1000;

const SLEEP: u64 = 1;

/// A reader, and how many lines it gave out. They are kept nowhere.
#[derive(Drop)]
pub struct Reading<V> {
    pub reader: LineReader<V>,
    pub lines: u64,
}

/// The reader that comes back is that of the same ring, and how many lines it gave out was counted.
#[derive(Drop)]
pub struct BackAgain<V> {
    reader: Snapshot<LineReader<V>>,
}

impl<V> Promise<Reading<V>> for BackAgain<V> {
    ghost use Rattle.call_loops.specs.ReadOut.{HasReadOn};

    ghost kept_by = { λ back reading. HasReadOn back.reader.value reading.reader reading.lines };
}

/// Starts the reader's thread, which goes on until all workers have come back.
pub fn start_reading<'s, E: 's, V: Say + Drop + Send + 's, R: Wait + Clock + Sync>(
    rt: &'s R,
    scope: &Scope<'s, E>,
    reader: LineReader<V>,
    pace: Pace,
    all_back: &'s AtomicBool,
) -> Result<PromisedHandle<Reading<V>, BackAgain<V>>, Fault>
    ensures { IfOk result (λ running. running.promise.reader.value ≡ reader) }
{
    let promise = BackAgain {
        reader: Snapshot::of(&reader),
    };
    match scope.spawn_with(
        promise,
        move || -> Reading<V>
            ensures { HasReadOn reader result.reader result.lines }
        { read_until_back(rt, reader, pace, all_back) },
    ) {
        Ok(running) => Ok(running),
        Err(_) => Err(Fault::Memory),
    }
}

// Reads until all workers have come back.
#[tactic(auto, using(crate::proofs::ReadToEnd::reads_none, crate::proofs::ReadToEnd::filled, crate::proofs::ReadToEnd::filled_and_read))]
fn read_until_back<V: Say, R: Wait + Clock>(
    rt: &R,
    reader: LineReader<V>,
    pace: Pace,
    all_back: &AtomicBool,
) -> Reading<V>
    ensures { HasReadOn reader result.reader result.lines }
{
    let mut reader = reader;
    let mut lines = 0u64;
    let mut fills = 0u32;
    for _ in rt.forever() {
        if reader.fill() {
            lines = lines.saturating_add(read_waiting(&mut reader));
            fills = rest(rt, pace, fills);
        } else if all_back.load(Ordering::SeqCst) {
            return Reading { reader, lines };
        } else {
            thread::yield_now();
        }
    }
    unreachable!()
}

// Sleeps after so many fills, if that is the pace. Answers how many fills there were since the last sleep.
fn rest<R: Clock>(rt: &R, pace: Pace, fills: u32) -> u32 {
    match pace {
        Pace::Steady => 0,
        Pace::WithSleeps if fills < FILLS => fills + 1,
        Pace::WithSleeps => {
            thread::sleep(rt, Duration::from_millis(SLEEP));
            0
        }
    }
}

/// Reads the lines that wait, keeps none of them, and answers how many they were.
#[tactic(auto, using(crate::proofs::ReadToEnd::all_out))]
pub fn read_waiting<V>(reader: &mut LineReader<V>) -> u64
    ensures read { reader.new ≡ record reader.old {
      given = reader.old.given ++ reader.old.waiting;
      waiting = [];
    } }
    ensures left { AreLeft reader.new }
    ensures lines { GivesLines reader.old reader.new result }
{
    let mut lines = 0u64;
    while let Some(line) = reader.next() {
        reader.take_back(line);
        lines = lines.saturating_add(1);
    }
    lines
}

/// Reads all lines to the end of the ring, in a thread that has both, and answers how many they were. Then everything
/// that was sent is taken, no line waits, and all that the reader gave out, from its first line on, are the lines of
/// everything that was sent.
pub fn read_to_end<V: Say>(reader: &mut LineReader<V>, ring: &mut Ring) -> u64
    requires pair { ring.old.name ≡ reader.old.name }
    ensures taken { reader.new.taken ≡ ring.old.sent }
    ensures waiting { reader.new.waiting ≡ [] }
    ensures given { HasGiven ring.old.sent reader.new }
    ensures whole { reader.new.missed ≡ 0 → reader.new.given ≡ lines_of reader.new.forms ring.old.sent }
    ensures lines { HasReadOn reader.old reader.new result }
{
    let mut lines = read_waiting(reader);
    while reader.behind(ring) > 0 {
        reader.fill_beside(ring);
        lines = lines.saturating_add(read_waiting(reader));
    }
    lines
}

/// Ends a registry beside its line reader, and reads its lines to the last one, all in one thread. Answers what the
/// registry counts, and how many lines were left.
pub fn finish_and_read<H: Ledger, C: Ledger, S: Setup, V: Say, A: Drop>(
    registry: Registry<H, C, S, Ring, A>,
    share: Share<H, C, S>,
    reader: &mut LineReader<V>,
) -> (Counts, u64)
    requires whole { IsWhole H.parts C.parts share }
    requires pair { Some reader.old.name ≡ S.ring }
    ensures units { result.0.handles ≡ share.units }
    ensures accepted { result.0.calls ≡ share.accepted }
    ensures empty { (result.0.left ≡ 0) ↔ ((result.0.handles ≡ 0) × (result.0.entries ≡ 0)) }
    ensures balance { result.0.made ≡ result.0.closed + result.0.left }
    ensures read { length reader.new.taken ≡ result.0.calls }
    ensures told { IsReadOut S.limits S.rules share result.0 reader.new }
    ensures lines { HasReadOn reader.old reader.new result.1 }
{
    let (counts, mut ring) = registry.finish_reading(share, reader);
    let rest = read_to_end(reader, &mut ring);
    (counts, rest)
}
