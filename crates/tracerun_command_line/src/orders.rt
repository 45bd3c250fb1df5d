//! What the program can be asked to do.

/// What the program is asked to do.
#[derive(Drop)]
pub enum Order {
    /// Run a script from standard input.
    Replay,
    /// Run the lines of a script from standard input, and tell why spans are open where they end: all, or the one that
    /// this label names.
    Why { span: Option<String> },
    /// Have so many workers, 1 to 16, make so many rounds of calls, 1 to 400.
    Storm { workers: u32, rounds: u32 },
}
