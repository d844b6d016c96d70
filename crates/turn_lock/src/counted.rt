ghost use Rattle.std.specs.Prelude.{◌≡◌, ℕ, List, length};

/// A value that has a history, of which each entry names a seat.
pub trait Counted {
    type Entry;

    ghost history: { Self → List Self.Entry };

    ghost seat_of: { Self.Entry → ℕ };

    /// How many entries the history has.
    fn count(&self) -> u64
        ensures { result ≡ length (history self.now) };
}
