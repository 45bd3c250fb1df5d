//! Writing text, by a loop over single calls, and flushing.
ghost use Rattle.std.specs.Prelude.{◌≡◌, true, OnOk, OnErr};
ghost use Rattle.std.specs.Io.KnownBytes.{Appends, Keeps};
ghost use Rattle.span_run.specs.Counted.{inner_of, failed_of, flushes_of, flushed_of, next_count};
ghost use Rattle.span_run.specs.Device.{AppendsFront, CountsFailure};
ghost use Rattle.span_run.specs.Status.{failed_status};

use crate::counted::Counted;
use crate::status::FAILED_STATUS;
use std::io::Write;
use thiserror::Error;

/// A writer failed, or took no byte of a text.
#[derive(Clone, Copy, Debug, PartialEq, Eq, Error)]
#[error("device: write failed")]
pub struct WriteFailed;

impl WriteFailed {
    /// The status with which the program ends.
    pub fn status(&self) -> u8
        ensures { result ≡ failed_status }
    {
        FAILED_STATUS
    }
}

// So many bytes are written by one call at most. A writer with a buffer of as many takes them there, and makes a write of
// its buffer again where that is interrupted; more bytes it would hand on, and an interruption of that is an error. No
// clause says so: the built program's devices are interrupted by a test.
const PIECE: usize = 4096;

/// Writes the text, by calls of at most 4096 bytes each, and as many as the writer asks for.
///
/// On an error a front of the text went out, and nothing else.
pub fn write_text<W: Write>(output: &mut Counted<W>, text: &[u8]) -> Result<(), WriteFailed>
    ensures ok { OnOk result (Appends (W.contents (inner_of output.old)) (W.contents (inner_of output.new)) text.now) }
    ensures front { OnErr result
        (AppendsFront (W.contents (inner_of output.old)) (W.contents (inner_of output.new)) text.now) }
    ensures counts { CountsFailure (failed_of output.old) (failed_of output.new) result }
    ensures flushes { flushes_of output.new ≡ flushes_of output.old }
{
    let mut done = 0;
    while done < text.len() {
        let end = text.len().min(done.saturating_add(PIECE));
        match output.write(&text[done..end]) {
            Ok(0) => return Err(WriteFailed),
            Ok(n) => done += n,
            Err(_) => return Err(WriteFailed),
        }
    }
    Ok(())
}

/// Flushes the writer, by one call.
pub fn flush<W: Write>(output: &mut Counted<W>) -> Result<(), WriteFailed>
    ensures keeps { Keeps (W.contents (inner_of output.old)) (W.contents (inner_of output.new)) }
    ensures once { flushes_of output.new ≡ next_count (flushes_of output.old) }
    ensures flushed { OnOk result (flushed_of output.new ≡ true) }
    ensures counts { CountsFailure (failed_of output.old) (failed_of output.new) result }
{
    if output.flush().is_err() {
        Err(WriteFailed)
    } else {
        Ok(())
    }
}
