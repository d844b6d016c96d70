use std::alloc::AllocFailed;

/// Why a text isn't read where it stands.
#[derive(Clone, Copy, Debug, Drop)]
pub(crate) enum Unread {
    /// It may be JSON, but it isn't plain: a string has an escape, something else than blanks stands before a
    /// token, or a number isn't a whole one below 2^64.
    NotPlain,
    /// Memory ran out, or a place doesn't fit 32 bits.
    Memory,
}

impl<T: Drop> From<AllocFailed<T>> for Unread {
    ghost use Rattle.json_data.specs.declared.unread.Unread.TheVariants.{Memory};
    ghost use Rattle.std.specs.Prelude.{◌≡◌};

    ghost from_gives = { λ _ e. e ≡ Memory };

    fn from(_refused: AllocFailed<T>) -> Unread {
        Unread::Memory
    }
}
