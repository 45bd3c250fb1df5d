//! A registry over a ring whose lines a reader gives out, from its making to its last line. Its workers have threads of
//! their own.
ghost use Rattle.std.specs.Prelude.{◌≡◌, [], Some};
ghost use Rattle.span_registry.specs.Blanks.{blanks_of};

use crate::tests::registry::layers::{PlainReader, PlainRegistry, Plan, layers};
use crate::tests::registry::parts::whole_share;
use crate::tests::registry::threads::{Turn, take_turns};
use span_id::Limits;
use span_layers::{ByRule, Filters, Say};
use span_registry::{Blanks, Counts, HANDLE_PARTS, LineReader, Ring, Setup};
use std::alloc::Global;
use std::marker::Brand;
use std::process::Abort;
use std::sync::Wait;
use std::sync::ledger::Ledger;
use std::thread::Threads;

// No run has more lines.
const MOST_LINES: u32 = 100_000;

/// How many lines each of three layers has.
pub(crate) type Tally = [u64; 3];

// One more line of this layer.
fn count(rt: &impl Abort, tally: &mut Tally, layer: u32) {
    let lines = tally.get_mut(layer as usize).expect(rt, "a layer");
    *lines = lines.saturating_add(1);
}

// Reads the lines that are left, in the ring and before it.
fn read_rest<V: Say>(rt: &impl Abort, reader: &mut LineReader<V>, ring: &mut Ring) -> Tally
    requires pair { ring.old.name ≡ reader.old.name }
{
    let mut tally = [0; 3];
    for _ in 0..MOST_LINES {
        if !reader.fill_beside(ring) {
            break;
        }
        let line = reader.next().expect(rt, "a line that waits");
        count(rt, &mut tally, line.layer);
    }
    tally
}

// Generic in the names, which the caller picks.
fn named<
    H: Ledger + Send + Sync,
    C: Ledger + Send + Sync,
    S: Setup + Send + Sync,
    R: Threads + Wait + Abort + Sync,
>(
    rt: &R,
    alloc: Global,
    filters: Filters<ByRule>,
    ring: Ring,
    reader: PlainReader,
    blanks: Blanks,
    turns: &[Turn],
) -> (Counts, Tally)
    requires sent { ring.sent ≡ [] }
    requires setup { (filters.rules ≡ S.rules) × ([] ≡ S.forms) }
    requires pair { (Some ring.name ≡ S.ring) × (Some reader.name ≡ S.ring) }
    requires parts { H.parts ≡ HANDLE_PARTS }
    requires blanks { blanks ≡ blanks_of S.limits H.name H.parts C.name C.parts S.table S.history }
{
    let number = blanks.limits().limits().workers;
    let made = PlainRegistry::<H, C, S, Ring>::new(alloc, filters, ring, blanks);
    let (registry, workers) = made.expect(rt, "memory");
    let whole = take_turns(rt, alloc, &registry, workers, turns);
    let share = whole_share(rt, number, whole);
    let mut reader = reader;
    let (counts, mut ring) = registry.finish_reading(share, &mut reader);
    (counts, read_rest(rt, &mut reader, &mut ring))
}

/// Makes a registry over a ring with these layers, has its workers take these turns, ends it, and reads its lines to the
/// last.
pub(crate) fn run_to_last_line<R: Threads + Wait + Abort + Sync>(
    rt: &R,
    alloc: Global,
    limits: Limits,
    plans: &[Plan],
    turns: &[Turn],
) -> (Counts, Tally) {
    let checked = limits.check().expect(rt, "limits");
    let blanks = Blanks::new(alloc, &checked).expect(rt, "memory");
    let (ring, tap) = Ring::pair(alloc, &checked).expect(rt, "memory");
    let (filters, formatting) = layers(rt, alloc, plans);
    let reader = LineReader::new(alloc, tap, formatting);
    named::<Brand, Brand, Brand, R>(rt, alloc, filters, ring, reader, blanks, turns)
}
