use json::Invalid;
use std::alloc::{AllocError, AllocFailed};

/// Why a document isn't read.
#[derive(Clone, Copy, Debug, Drop, PartialEq, Eq)]
pub enum DataFault {
    /// The bytes aren't UTF-8 or aren't one JSON value.
    NotJson,
    /// Memory ran out.
    Memory,
}

impl From<Invalid> for DataFault {
    ghost use Rattle.json_data.specs.declared.fault.DataFault.TheVariants.{NotJson};
    ghost use Rattle.std.specs.Prelude.{◌≡◌};

    ghost from_gives = { λ _ e. e ≡ NotJson };

    fn from(_invalid: Invalid) -> DataFault {
        DataFault::NotJson
    }
}

impl From<AllocError> for DataFault {
    ghost use Rattle.json_data.specs.declared.fault.DataFault.TheVariants.{Memory};
    ghost use Rattle.std.specs.Prelude.{◌≡◌};

    ghost from_gives = { λ _ e. e ≡ Memory };

    fn from(_refused: AllocError) -> DataFault {
        DataFault::Memory
    }
}

impl<T: Drop> From<AllocFailed<T>> for DataFault {
    ghost use Rattle.json_data.specs.declared.fault.DataFault.TheVariants.{Memory};
    ghost use Rattle.std.specs.Prelude.{◌≡◌};

    ghost from_gives = { λ _ e. e ≡ Memory };

    fn from(_refused: AllocFailed<T>) -> DataFault {
        DataFault::Memory
    }
}
