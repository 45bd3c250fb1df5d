//! Lines as text.
use span_outlet::Line;
use std::alloc::{AllocError, Global};

/// The number of the batch, the place, the layer and the text of each line.
pub fn shown(alloc: Global, lines: &[Line]) -> Result<String, AllocError> {
    let mut all = String::new(alloc);
    for line in lines {
        push_line(&mut all, line)?;
    }
    Ok(all)
}

/// Writes the numbers and the text of a line, and a newline.
pub fn push_line(all: &mut String, line: &Line) -> Result<(), AllocError> {
    let (batch, place, layer) = (line.batch, line.place, line.layer);
    let text = str::from_utf8(line.text.as_slice()).unwrap_or("no text");
    write!(all, "{batch} {place} {layer} {text}\n")
}
