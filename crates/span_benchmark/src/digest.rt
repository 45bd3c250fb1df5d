//! A number that stands for all that a run gave.

// The start and the factor of FNV-1a, which takes words of 8 bytes here, so that it costs little beside the runs.
const START: u64 = 0xcbf2_9ce4_8422_2325;

const FACTOR: u64 = 0x0000_0100_0000_01b3;

/// A digest of numbers and texts in their order.
#[derive(Clone, Copy)]
pub struct Digest {
    state: u64,
}

impl Digest {
    /// The digest of nothing.
    pub fn new() -> Digest {
        Digest { state: START }
    }

    /// The number for all that was added.
    pub fn value(&self) -> u64 {
        self.state
    }

    /// Adds a number.
    pub fn number(&mut self, number: u64) {
        self.state = (self.state ^ number).wrapping_mul(FACTOR);
    }

    /// Adds a text and its length.
    pub fn text(&mut self, text: &[u8]) {
        self.number(text.len() as u64);
        let (words, others) = text.as_chunks::<8>();
        for word in words {
            self.number(u64::from_le_bytes(*word));
        }
        self.bytes(others);
    }

    // Adds each of the bytes.
    fn bytes(&mut self, bytes: &[u8]) {
        for byte in bytes {
            self.number(u64::from(*byte));
        }
    }
}
