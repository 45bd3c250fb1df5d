/// The line of a note: what a layer wrote of it, and where the note stands in the history.
#[derive(Debug, PartialEq, Eq, Drop)]
pub struct Line {
    /// The number of the batch, from 0.
    pub batch: u64,
    /// The place of the note in its batch, from 0.
    pub place: u32,
    /// The number of the layer that was told, from 0.
    pub layer: u32,
    /// The text of the note in the form of the layer, without an end of line.
    pub text: Vec<u8>,
}
