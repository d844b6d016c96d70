ghost use Rattle.std.specs.Prelude.{◌≡◌, ◌<◌, ℕ};

/// A fleet whose ports are for a controller of one term, so that each command goes out over them after it.
/// One over plain ports is none: what is asked over it fences nobody off.
pub trait OneTerm {
    /// The term of its ports.
    ghost of_term: { Self → ℕ };

    /// The term of its ports, which is 1 at the least.
    fn named_term(&self) -> u32
        ensures number { result ≡ of_term self.now }
        ensures some { 0 < result };
}
