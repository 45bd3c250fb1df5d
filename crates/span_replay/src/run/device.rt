//! A run's reader and its writer: what fails there ends the run.
ghost use Rattle.std.specs.Prelude.{◌≡◌, true, ◌+◌, ◌≤◌, IfOk, IfErr, OnOk, OnErr, vec_len};
ghost use Rattle.std.specs.Io.KnownBytes.{Appends, Consumes, IsAtEnd, Keeps};
ghost use Rattle.span_replay.specs.ReplayFault.{EndsAsCounted};
ghost use Rattle.span_replay.specs.Reading.{ReadFails};
ghost use Rattle.span_run.specs.Counted.{inner_of, calls_of, failed_of, flushes_of, flushed_of, next_count};
ghost use Rattle.span_run.specs.Device.{AppendsFront};
ghost use Rattle.span_script.specs.Script.{most_bytes};
ghost use Rattle.span_replay.specs.inside.Writing.{OnlyWrites};

use crate::run::fault::ReplayFault;
use span_run::Counted;
use span_script::Reason;
use std::alloc::Global;
use std::io::{Read, Write};

/// The most bytes that a script may have.
const MOST_BYTES: usize = 16_777_216;

/// How many bytes are read at once.
const BLOCK: usize = 32_768;

/// Reads a script to its end.
///
/// A script of more than 16,777,216 bytes is the fault `TooLong` of line 0.
pub fn read_script<R: Read>(alloc: Global, input: &mut Counted<R>) -> Result<Vec<u8>, ReplayFault>
    ensures all { IfOk result
        (λ v. Consumes (R.remaining (inner_of input.old)) (R.remaining (inner_of input.new)) v.items) }
    ensures end { OnOk result (IsAtEnd (R.remaining (inner_of input.new))) }
    ensures fits { IfOk result (λ v. vec_len v ≤ most_bytes) }
    ensures err { IfErr result (ReadFails (R.remaining (inner_of input.old)) (R.remaining (inner_of input.new))) }
    ensures counts { EndsAsCounted (failed_of input.old) (failed_of input.new) 0 0 result }
    ensures reads { calls_of input.new ≤ calls_of input.old + 16777217 }
{
    let mut bytes = Vec::new(alloc);
    let mut block = [0u8; BLOCK];
    while bytes.len() <= MOST_BYTES {
        // Of a script that is too long one byte too many is read, and no more.
        let room = block.len().min(MOST_BYTES + 1 - bytes.len());
        match input.read(&mut block[..room]) {
            Ok(0) => return Ok(bytes),
            Ok(n) => {
                if bytes.extend_from_slice(&block[..n]).is_err() {
                    return Err(ReplayFault::Memory);
                }
            }
            Err(_) => return Err(ReplayFault::Read),
        }
    }
    Err(ReplayFault::Script(0, Reason::TooLong))
}

/// Writes the text. On an error a front of it went out, and nothing else.
pub fn send<W: Write>(output: &mut Counted<W>, text: &[u8]) -> Result<(), ReplayFault>
    ensures ok { OnOk result (Appends (W.contents (inner_of output.old)) (W.contents (inner_of output.new)) text.now) }
    ensures front { OnErr result
        (AppendsFront (W.contents (inner_of output.old)) (W.contents (inner_of output.new)) text.now) }
    ensures device { IfErr result (λ fault. fault ≡ ReplayFault.Write) }
    ensures calls { OnlyWrites output.old output.new result }
{
    span_run::write_text(output, text).map_err(|_| ReplayFault::Write)
}

/// Flushes the writer, by one call.
pub fn flush<W: Write>(output: &mut Counted<W>) -> Result<(), ReplayFault>
    ensures keeps { Keeps (W.contents (inner_of output.old)) (W.contents (inner_of output.new)) }
    ensures once { flushes_of output.new ≡ next_count (flushes_of output.old) }
    ensures flushed { OnOk result (flushed_of output.new ≡ true) }
    ensures device { IfErr result (λ fault. fault ≡ ReplayFault.Write) }
    ensures counts { EndsAsCounted 0 0 (failed_of output.old) (failed_of output.new) result }
{
    span_run::flush(output).map_err(|_| ReplayFault::Write)
}
