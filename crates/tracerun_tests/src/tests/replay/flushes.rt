//! When a run flushes its writer.
use crate::tests::compare::same;
use crate::tests::replay::fixtures::{Ran, run, run_with};
use crate::tests::replay::hooks::{HAS_NONE, hooks_of};
use std::alloc::Global;
use std::io;
use std::io::{ErrorKind, Read, Write};
use std::process::Abort;

const ONE_SPAN: &str = "{\"op\":\"new\",\"name\":\"a\"}\n";

const NO_OBJECT: &str = "{\"op\":\"new\",\"name\":\"a\"}\n[1]\n";

const ONE_LAYER: &str = "{\"op\":\"layer\"}\n{\"op\":\"new\",\"name\":\"a\"}\n";

/// A writer that takes so many bytes and then fails, counts its flushes, and may fail at each.
#[derive(Drop)]
struct FlushedWriter {
    room: usize,
    flushes: u64,
    can_flush: bool,
}

impl Write for FlushedWriter {
    fn write(&mut self, buf: &[u8]) -> io::Result<usize> {
        let taken = buf.len().min(self.room);
        if taken == 0 {
            return Err(io::Error::from(ErrorKind::Other));
        }
        self.room -= taken;
        Ok(taken)
    }

    fn flush(&mut self) -> io::Result<()> {
        self.flushes = self.flushes.saturating_add(1);
        if self.can_flush {
            Ok(())
        } else {
            Err(io::Error::from(ErrorKind::Other))
        }
    }
}

/// A reader that fails at once.
#[derive(Clone, Copy)]
struct NoReader;

impl Read for NoReader {
    fn read(&mut self, _buf: &mut [u8]) -> io::Result<usize> {
        Err(io::Error::from(ErrorKind::Other))
    }
}

/// A writer that was not flushed yet.
fn writer(room: usize, can_flush: bool) -> FlushedWriter {
    FlushedWriter {
        room,
        flushes: 0,
        can_flush,
    }
}

/// Whether a run ended so, and flushed so often; `of` tells the case.
fn ended_so(rt: &impl Abort, ran: &Ran, writer: &FlushedWriter, want: (&str, u64), of: &str) {
    let (end, flushes) = want;
    let ended = (ran.end.as_str(), ran.flushes, writer.flushes);
    same(rt, ended, (end, flushes, flushes), of);
}

/// A script, whether the writer can flush, and how the run ends.
type Row = (&'static str, bool, &'static str);

static ROWS: [Row; 4] = [
    (ONE_SPAN, true, "0"),
    (ONE_SPAN, false, "device: write failed"),
    // After a fault of the script too: a flush that fails takes its place.
    (NO_OBJECT, true, "line 2: not an object"),
    (NO_OBJECT, false, "device: write failed"),
];

fn flushes_once(rt: &impl Abort, alloc: Global, row: &Row) {
    let (script, can_flush, end) = *row;
    let mut writer = writer(64, can_flush);
    let ran = run(rt, alloc, script.as_bytes(), &mut writer, 0);
    ended_so(rt, &ran, &writer, (end, 1), script);
}

#[test]
fn flushes_once_at_the_end(rt: HostRuntime) {
    for row in &ROWS {
        flushes_once(&rt, rt.alloc(), row);
    }
}

/// A run with no layers over this reader and a writer of so much room doesn't flush.
fn fails<R: Read + Drop>(rt: &impl Abort, alloc: Global, reader: R, room: usize, end: &str) {
    let mut writer = writer(room, true);
    let ran = run(rt, alloc, reader, &mut writer, 0);
    ended_so(rt, &ran, &writer, (end, 0), end);
}

#[test]
fn does_not_flush_after_a_device_that_failed(rt: HostRuntime) {
    let script = ONE_SPAN.as_bytes();
    fails(&rt, rt.alloc(), script, 2, "device: write failed");
    fails(&rt, rt.alloc(), NoReader, 64, "device: read failed");
}

#[test]
fn does_not_flush_after_want_of_memory(rt: HostRuntime) {
    let hooks = hooks_of(&rt, rt.alloc(), &[HAS_NONE]);
    let mut writer = writer(64, true);
    let ran = run_with(&rt, rt.alloc(), ONE_LAYER.as_bytes(), &mut writer, hooks);
    ended_so(&rt, &ran, &writer, ("out of memory", 0), "a layer");
}
