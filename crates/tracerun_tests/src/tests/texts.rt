//! Texts of many lengths in a line, with a byte at each place that is escaped, ends the text or is refused: what such
//! lines ask for, over their own text and with copies of their texts.
use crate::tests::lines::is_the_same;
use span_json::Scratch;
use std::alloc::{AllocError, Global};
use std::process::Abort;

/// What a text may have at one place: a character of two bytes, an escape, a quote that ends it, and a control character.
const PARTS: [&str; 5] = ["é", "\\n", "\\u00e9", "\"", "\u{1f}"];

/// The reader looks at 16 bytes of a text together, as long as the line has so many: up to three times so many, and some.
const LONGEST: usize = 52;

/// A line whose span is named by a text of so many bytes and one part, which stands at this place of it.
fn line_of(alloc: Global, length: usize, place: usize, part: &str) -> Result<String, AllocError> {
    let mut line = String::from_str(alloc, "{\"op\":\"find\",\"span\":\"")?;
    for _ in 0..place {
        line.push_str("a")?;
    }
    line.push_str(part)?;
    for _ in place..length {
        line.push_str("b")?;
    }
    line.push_str("\"}")?;
    Ok(line)
}

/// Whether the lines with this part at each place of a text are the same in both forms.
fn are_the_same(rt: &impl Abort, alloc: Global, part: &str, scratch: &mut Scratch) {
    for length in 0..LONGEST {
        for place in 0..=length {
            let line = line_of(alloc, length, place, part).expect(rt, "memory");
            is_the_same(
                rt,
                alloc,
                line.as_bytes(),
                scratch,
                length * LONGEST + place,
            );
        }
    }
}

#[test]
fn a_text_of_any_length_is_the_same_over_its_own_line(rt: HostRuntime) {
    let mut scratch = Scratch::new(rt.alloc());
    for part in PARTS {
        are_the_same(&rt, rt.alloc(), part, &mut scratch);
    }
}
