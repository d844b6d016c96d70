ghost use Rattle.std.specs.Prelude.{◌≡◌, IsOk, OnErr, OnOk};
ghost use Rattle.disk_model.specs.Effects.{HasFailed};
ghost use Rattle.disk_mirror.specs.Openings.{IsTold, Opens, OpensWithin};

use disk_model::{Disk, MemoryDisk};
use wan_edge::Failed;

/// A disk that is opened before its first use, and then tells its bytes.
pub trait Openable: Disk {
    /// Opens it: after an Ok its bytes are told, and where they weren't before there are no more than
    /// `most`. What was told before is told still, and a crash leaves no more than before. It fails where
    /// the disk does, which is counted.
    fn open(&mut self, most: u64) -> Result<(), Failed>
        ensures tells { OnOk result (IsTold (Self.told self.new).bytes) }
        ensures opens { Opens (Self.told self.old) (Self.told self.new) }
        ensures within { OnOk result (OpensWithin most (Self.told self.old) (Self.told self.new)) }
        ensures cause { OnErr result (HasFailed (Self.told self.old) (Self.told self.new)) };
}

impl Openable for MemoryDisk {
    /// A disk in memory tells its bytes from the start.
    fn open(&mut self, _most: u64) -> Result<(), Failed>
        ensures ok { IsOk result }
        ensures same { self.new ≡ self.old }
    {
        Ok(())
    }
}
