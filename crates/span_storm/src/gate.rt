//! Who may go on.
ghost use Rattle.std.specs.Prelude.{◌≡◌, ℕ, true, false};

/// Is asked before each step of a storm.
pub trait Gate {
    /// What is known where the party is held at its call of this number.
    ghost holds: { Self → ℕ → ℕ → Type 0 } = { λ _ _ _. Unit {0} };

    /// Whether the party may make its call of this number, counted from 1. It may take its time to answer.
    ///
    /// The workers are the parties from 0, and the drain is the one after them, which asks once.
    fn before(&self, party: u32, call: u64) -> bool
        ensures held { result ≡ false → holds self.now party call };
}

/// Lets everybody go on.
#[derive(Clone, Copy, Debug)]
pub struct Open;

impl Gate for Open {
    ghost holds = { λ _ _ _. ⊥ };

    fn before(&self, _party: u32, _call: u64) -> bool
        ensures { result ≡ true }
    {
        true
    }
}
