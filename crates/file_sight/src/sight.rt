ghost use Rattle.file_sight.specs.Sights.{Rewinds};

use wan_edge::Source;

/// A source that can be read once more.
pub trait Sight: Source {
    /// The next read begins at the first byte again. What was taken counts from there.
    fn rewind(&mut self)
        ensures { Rewinds (Self.told self.old) (Self.told self.new) };
}
