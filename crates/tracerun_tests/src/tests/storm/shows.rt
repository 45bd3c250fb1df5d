//! What `show` writes.
use crate::tests::compare::{equal, is_text};
use span_registry::Report;
use span_run::{Counted, WriteFailed};
use span_storm::show;
use std::alloc::Global;
use std::io;
use std::io::{ErrorKind, Write};
use std::process::Abort;

// A report of numbers that all differ.
fn report(alloc: Global) -> Report {
    Report {
        left: u32::MAX,
        handles: 7,
        entries: 8,
        calls: 0,
        made: u64::MAX,
        closed: 10,
        lines: Vec::new(alloc),
        missed: 123,
    }
}

const SHOWN: &str =
    "workers 16\nrounds 400\nmade 18446744073709551615\nclosed 10\ncalls 0\nlines 0\nrefused 123\nleft 4294967295\n";

/// A writer that takes so many bytes and then fails.
#[derive(Drop)]
struct Narrow<'a> {
    taken: &'a mut Vec<u8>,
    room: usize,
}

impl Write for Narrow<'_> {
    fn write(&mut self, buf: &[u8]) -> io::Result<usize> {
        let most = buf.len().min(self.room);
        if most == 0 {
            return Err(io::Error::from(ErrorKind::Other));
        }
        self.room -= most;
        self.taken.write(&buf[..most])
    }

    fn flush(&mut self) -> io::Result<()> {
        Ok(())
    }
}

#[test]
fn shows_eight_lines(rt: HostRuntime) {
    let alloc = rt.alloc();
    let mut output = Counted::new(Vec::new(alloc));
    let shown = show(16, 400, &report(alloc), &mut output).is_ok();
    equal(&rt, shown, true);
    equal(&rt, (output.flushes(), output.failed()), (0, 0));
    is_text(&rt, output.into_inner().as_slice(), SHOWN);
}

// Whether the writer failed, as the text of the fault says; the room tells the case.
fn has_failed(rt: &impl Abort, alloc: Global, shown: &Result<(), WriteFailed>, room: usize) {
    match shown {
        Ok(()) => assert!(rt; false, "with room for {room}"),
        Err(fault) => {
            let text = fault.to_string(alloc).expect(rt, "memory");
            equal(rt, (room, text.as_str()), (room, "device: write failed"));
        }
    }
}

// Where the writer takes so many bytes, these are the first ones, and it fails once.
fn fails_after(rt: &impl Abort, alloc: Global, room: usize, expected: &[u8]) {
    let mut taken = Vec::new(alloc);
    let mut output = Counted::new(Narrow {
        taken: &mut taken,
        room,
    });
    let shown = show(16, 400, &report(alloc), &mut output);
    has_failed(rt, alloc, &shown, room);
    equal(rt, (room, output.failed()), (room, 1));
    equal(rt, (room, taken.as_slice()), (room, expected));
}

#[test]
fn a_writer_that_fails_has_a_front(rt: HostRuntime) {
    for room in 0..SHOWN.len() {
        fails_after(&rt, rt.alloc(), room, &SHOWN.as_bytes()[..room]);
    }
}
