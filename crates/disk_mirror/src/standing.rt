ghost use Rattle.std.specs.Prelude.{◌≡◌, OnErr, OnOk};
ghost use Rattle.disk_model.specs.Memory.{after_write, at_rest};

use crate::pending::Pending;
use disk_model::overwrite;
use lists::Memory;
use std::marker::Model;
use std::snapshot::Snapshot;

/// The bytes of a disk in memory. What was synced, and which writes came since, has no bytes: it is kept
/// for contracts alone.
#[derive(Drop)]
pub(crate) struct Standing {
    bytes: Vec<u8>,
    synced: Snapshot<Vec<u8>>,
    pending: Pending,
}

impl Model for Standing {
    ghost use Rattle.disk_mirror.specs.Pending.{pending_in};
    ghost use Rattle.disk_model.specs.Memory.{Medium};

    ghost Value = { Medium };

    ghost view = { λ s. record {
      bytes = s.bytes.items;
      synced = s.synced.value.items;
      pending = pending_in s.pending;
    } };
}

impl Standing {
    /// All the bytes are synced.
    pub(crate) fn new(bytes: Vec<u8>) -> Self
        ensures { result ≡ at_rest bytes.items }
    {
        let synced = Snapshot::of(&bytes);
        Standing {
            bytes,
            synced,
            pending: Pending::Nothing,
        }
    }

    pub(crate) fn bytes(&self) -> &[u8]
        ensures { result.now ≡ self.now.bytes }
    {
        self.bytes.as_slice()
    }

    /// Writes the bytes, which are not synced. Lack of memory changes nothing.
    pub(crate) fn write(&mut self, at: u64, from: &[u8]) -> Result<(), Memory>
        ensures ok { OnOk result (self.new ≡ after_write at from.now self.old) }
        ensures err { OnErr result (self.new ≡ self.old) }
    {
        overwrite(&mut self.bytes, at, from)?;
        self.pending = self.pending.also(at, from.len());
        Ok(())
    }

    /// What was written since the last sync is synced.
    pub(crate) fn sync(&mut self)
        ensures { self.new ≡ at_rest self.old.bytes }
    {
        self.synced = Snapshot::of(&self.bytes);
        self.pending = Pending::Nothing;
    }
}
