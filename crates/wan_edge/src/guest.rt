ghost use Rattle.std.specs.Prelude.{◌≡◌};

use crate::{Sink, Source};

/// A controller that talks with an agent: it is read and written, and neither touches the other.
pub trait Guest: Source + Sink {
    /// What reading leaves as it is, is all that the guest tells as a sink.
    ghost read_apart: { (g : Self) → Self.as_sink g ≡ Self.Sink.told g };

    /// What writing leaves as it is, is all that it tells as a source.
    ghost written_apart: { (g : Self) → Self.as_source g ≡ Self.Source.told g };
}
