//! Readers and writers whose calls are counted.
ghost use Rattle.std.specs.Prelude.{◌≡◌, ◌<◌, true, false, IfOk, OnOk, OnErr};
ghost use Rattle.std.specs.Io.{ReadsAtMost, WritesAtMost};
ghost use Rattle.std.specs.Io.KnownBytes.{Keeps, ReadConsumes, WriteAppends};
ghost use Rattle.span_run.specs.Counted.{inner_of, calls_of, failed_of, flushes_of, flushed_of, next_count};

use std::io;
use std::io::{Read, Write};

/// A reader or a writer, with the number of its calls, of those that failed and of those that flush.
///
/// A call that was interrupted and a write that took no byte count as failed. The numbers stay at their greatest
/// value. Whether a writer is flushed is known too: all that it took went out.
#[derive(Debug, Drop)]
pub struct Counted<T> {
    inner: T,
    calls: u64,
    failed: u64,
    flushes: u64,
    flushed: bool,
}

impl<T> Counted<T> {
    /// Wraps a reader or a writer that was not called yet.
    pub fn new(inner: T) -> Counted<T>
        ensures inner { inner_of result ≡ inner }
        ensures calls { calls_of result ≡ 0 }
        ensures failed { failed_of result ≡ 0 }
        ensures flushes { flushes_of result ≡ 0 }
        ensures flushed { flushed_of result ≡ false }
    {
        Counted {
            inner,
            calls: 0,
            failed: 0,
            flushes: 0,
            flushed: false,
        }
    }

    /// The reader or writer inside.
    pub fn into_inner(self) -> T
        ensures { result ≡ inner_of self }
    {
        let Counted {
            inner,
            calls: _,
            failed: _,
            flushes: _,
            flushed: _,
        } = self;
        inner
    }

    /// How many calls of `read`, or of `write` and `flush`, were made.
    pub fn calls(&self) -> u64
        ensures { result ≡ calls_of self.now }
    {
        self.calls
    }

    /// How many of the calls failed.
    pub fn failed(&self) -> u64
        ensures { result ≡ failed_of self.now }
    {
        self.failed
    }

    /// How many of the calls were of `flush`.
    pub fn flushes(&self) -> u64
        ensures { result ≡ flushes_of self.now }
    {
        self.flushes
    }

    /// Whether a flush that succeeded came after the last `write`.
    pub fn is_flushed(&self) -> bool
        ensures { result ≡ flushed_of self.now }
    {
        self.flushed
    }
}

impl<R: Read> Read for Counted<R> {
    ghost remaining = { λ c. R.remaining c.inner };

    fn read(&mut self, buf: &mut [u8]) -> io::Result<usize>
        ensures bound { ReadsAtMost result buf.new }
        ensures bytes { ReadConsumes (R.remaining (inner_of self.old)) (R.remaining (inner_of self.new)) result
            buf.new }
        ensures calls { calls_of self.new ≡ next_count (calls_of self.old) }
        ensures ok { OnOk result (failed_of self.new ≡ failed_of self.old) }
        ensures err { OnErr result (failed_of self.new ≡ next_count (failed_of self.old)) }
    {
        self.calls = self.calls.saturating_add(1);
        let answer = self.inner.read(buf);
        if answer.is_err() {
            self.failed = self.failed.saturating_add(1);
        }
        answer
    }
}

impl<W: Write> Write for Counted<W> {
    ghost contents = { λ c. W.contents c.inner };

    fn write(&mut self, buf: &[u8]) -> io::Result<usize>
        ensures bound { WritesAtMost result buf.now }
        ensures bytes { WriteAppends (W.contents (inner_of self.old)) (W.contents (inner_of self.new)) result buf.now }
        ensures calls { calls_of self.new ≡ next_count (calls_of self.old) }
        ensures ok { IfOk result (λ n. 0 < n → failed_of self.new ≡ failed_of self.old) }
        ensures none { IfOk result (λ n. n ≡ 0 → failed_of self.new ≡ next_count (failed_of self.old)) }
        ensures flushes { flushes_of self.new ≡ flushes_of self.old }
        ensures flushed { flushed_of self.new ≡ false }
        ensures err { OnErr result (failed_of self.new ≡ next_count (failed_of self.old)) }
    {
        self.calls = self.calls.saturating_add(1);
        self.flushed = false;
        let answer = self.inner.write(buf);
        if !matches!(answer, Ok(1..)) {
            self.failed = self.failed.saturating_add(1);
        }
        answer
    }

    fn flush(&mut self) -> io::Result<()>
        ensures bytes { Keeps (W.contents (inner_of self.old)) (W.contents (inner_of self.new)) }
        ensures calls { calls_of self.new ≡ next_count (calls_of self.old) }
        ensures ok { OnOk result (failed_of self.new ≡ failed_of self.old) }
        ensures err { OnErr result (failed_of self.new ≡ next_count (failed_of self.old)) }
        ensures flushes { flushes_of self.new ≡ next_count (flushes_of self.old) }
        ensures flushed { OnOk result (flushed_of self.new ≡ true) }
        ensures not_flushed { OnErr result (flushed_of self.new ≡ false) }
    {
        self.calls = self.calls.saturating_add(1);
        self.flushes = self.flushes.saturating_add(1);
        let answer = self.inner.flush();
        self.flushed = answer.is_ok();
        if answer.is_err() {
            self.failed = self.failed.saturating_add(1);
        }
        answer
    }
}
