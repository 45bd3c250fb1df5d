//! The lines of a script.
ghost use Rattle.std.specs.Prelude.{◌≡◌, ◌==◌, ◌∷◌, ◌<◌, length, position};
ghost use Rattle.span_script.specs.Script.{script_lines, is_skipped};

use memchr::memchr;

/// The first line without its newline, and what follows.
pub fn cut_line(script: &[u8]) -> (&[u8], &[u8])
    requires { 0 < length script.now }
    ensures line { script_lines script.now ≡ result.0.now ∷ script_lines result.1.now }
    ensures shorter { length result.1.now < length script.now }
{
    match newline(script) {
        Some(end) => (&script[..end], &script[end + 1..]),
        None => (script, &script[script.len()..]),
    }
}

/// Where the first newline stands.
fn newline(script: &[u8]) -> Option<usize>
    ensures { result ≡ position (λ byte. byte == 10) script.now }
{
    // Most lines that begin with a blank have nothing else: their end is too near for a search to pay.
    if !script.is_empty() && script[0] <= b' ' {
        return script.iter().position(|byte| *byte == b'\n');
    }
    search(script)
}

// Not inlined, so that the cutting of a line is short enough to be.
#[inline(never)]
#[tactic(auto, using(crate::proofs::Cuts::first_newline))]
fn search(script: &[u8]) -> Option<usize>
    ensures { result ≡ position (λ byte. byte == 10) script.now }
{
    memchr(b'\n', script)
}

/// Whether the line has blanks, tabs and carriage returns alone.
pub fn is_skipped(line: &[u8]) -> bool
    ensures { result ≡ is_skipped line.now }
{
    line.iter()
        .all(|byte| *byte == b' ' || *byte == b'\t' || *byte == b'\r')
}
