ghost use Rattle.std.specs.Prelude.{◌≡◌, Some, IfSome};

use crate::{Mirror, Openable};
use disk_model::Disk;

/// A disk that shows its bytes without a call that may fail or take anything.
pub trait Shown: Openable {
    /// What a read of all bytes would give; none where that isn't known, as before the opening.
    fn shown(&self) -> Option<&[u8]>
        ensures { IfSome result (λ bytes. (Self.told self.now).bytes ≡ Some bytes.now) };
}

impl<D: Disk> Shown for Mirror<D> {
    fn shown(&self) -> Option<&[u8]> {
        match self.bytes() {
            Ok(bytes) => Some(bytes),
            Err(_) => None,
        }
    }
}
