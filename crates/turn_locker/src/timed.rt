//! What a locker keeps.
ghost use Rattle.std.specs.Prelude.{◌≡◌, ℕ};

/// The cell of a node or of a wire: it knows its item's number and its time, the number of half steps that it has seen.
pub trait Timed: Send + Drop {
    ghost number_of: { Self → ℕ };

    ghost time_of: { Self → ℕ };

    // Whether the value is what it should be at its time.
    ghost right: { Self → Type 0 };

    fn number(&self) -> u32
        ensures { result ≡ number_of self.now };

    fn time(&self) -> u64
        ensures { result ≡ time_of self.now };
}
