//! The numbers of a storm, as text.
ghost use Rattle.std.specs.Prelude.{◌≡◌, OnOk, OnErr};
ghost use Rattle.std.specs.Io.KnownBytes.{Appends};
ghost use Rattle.span_run.specs.Counted.{inner_of, failed_of, flushes_of};
ghost use Rattle.span_run.specs.Device.{AppendsFront, CountsFailure};
ghost use Rattle.span_storm.specs.Show.{number_line, storm_lines};
ghost use Rattle.span_storm.specs.inside.Rows.{text_of_rows};

use itoa::Buffer;
use span_registry::Report;
use span_run::{Counted, WriteFailed, write_text};
use std::io::Write;

// What is counted, and its number.
#[derive(Clone, Copy)]
struct Row(&'static str, u64);

/// Writes how a storm of so many workers and rounds ended: eight lines with a number each. It takes no memory, and does
/// not flush.
///
/// On an error a front of the text went out.
pub fn show<W: Write>(
    workers: u32,
    rounds: u32,
    report: &Report,
    output: &mut Counted<W>,
) -> Result<(), WriteFailed>
    ensures ok { OnOk result (Appends (W.contents (inner_of output.old)) (W.contents (inner_of output.new))
        (storm_lines workers rounds report.now)) }
    ensures front { OnErr result (AppendsFront (W.contents (inner_of output.old)) (W.contents (inner_of output.new))
        (storm_lines workers rounds report.now)) }
    ensures counts { CountsFailure (failed_of output.old) (failed_of output.new) result }
    ensures flushes { flushes_of output.new ≡ flushes_of output.old }
{
    let rows = [
        Row("workers", u64::from(workers)),
        Row("rounds", u64::from(rounds)),
        Row("made", report.made),
        Row("closed", report.closed),
        Row("calls", report.calls),
        Row("lines", report.lines.len() as u64),
        Row("refused", report.missed),
        Row("left", u64::from(report.left)),
    ];
    write_rows(&rows, output)
}

// Writes a line for each.
fn write_rows<W: Write>(rows: &[Row], output: &mut Counted<W>) -> Result<(), WriteFailed>
    ensures ok { OnOk result (Appends (W.contents (inner_of output.old)) (W.contents (inner_of output.new))
        (text_of_rows rows.now)) }
    ensures front { OnErr result (AppendsFront (W.contents (inner_of output.old)) (W.contents (inner_of output.new))
        (text_of_rows rows.now)) }
    ensures counts { CountsFailure (failed_of output.old) (failed_of output.new) result }
    ensures flushes { flushes_of output.new ≡ flushes_of output.old }
{
    for row in rows {
        write_line(row.0, row.1, output)?;
    }
    Ok(())
}

// Writes one line.
fn write_line<W: Write>(
    label: &str,
    number: u64,
    output: &mut Counted<W>,
) -> Result<(), WriteFailed>
    ensures ok { OnOk result (Appends (W.contents (inner_of output.old)) (W.contents (inner_of output.new))
        (number_line label.now number)) }
    ensures front { OnErr result (AppendsFront (W.contents (inner_of output.old)) (W.contents (inner_of output.new))
        (number_line label.now number)) }
    ensures counts { CountsFailure (failed_of output.old) (failed_of output.new) result }
    ensures flushes { flushes_of output.new ≡ flushes_of output.old }
{
    write_text(output, label.as_bytes())?;
    write_text(output, b" ")?;
    write_text(output, Buffer::new().format(number).as_bytes())?;
    write_text(output, b"\n")
}
