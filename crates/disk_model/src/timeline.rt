ghost use Rattle.std.specs.Prelude.{◌≡◌, [], OnErr, OnOk};
ghost use Rattle.disk_model.specs.Memory.{after_write, at_rest, moves_to};

use crate::medium::Medium;
use lists::Memory;
use std::alloc::Global;
use std::marker::Model;
use std::snapshot::Snapshot;
use wan_edge::Nums8;

/// A medium with all that it was. What it was has no bytes: it is kept for contracts alone.
#[derive(Drop)]
pub struct Timeline {
    medium: Medium,
    past: Vec<Snapshot<Medium>>,
}

impl Model for Timeline {
    ghost use Rattle.std.specs.Prelude.{map};
    ghost use Rattle.disk_model.specs.Memory.{Timeline};

    ghost Value = { Timeline };

    ghost view = { λ t. record { medium = t.medium; past = map (λ was. was.value) t.past.items } };
}

impl Timeline {
    /// These bytes are on the disk, and there was nothing before.
    pub fn new(alloc: Global, bytes: Nums8) -> Self
        ensures { result ≡ record { medium = at_rest bytes; past = [] } }
    {
        Timeline {
            medium: Medium::new(alloc, bytes),
            past: Vec::new(alloc),
        }
    }

    pub fn medium(&self) -> &Medium
        ensures { result.now ≡ self.now.medium }
    {
        &self.medium
    }

    /// A write. Lack of memory changes nothing.
    pub fn write(&mut self, alloc: Global, at: u64, from: &[u8]) -> Result<(), Memory>
        ensures ok { OnOk result
            (self.new ≡ moves_to self.old (after_write at from.now self.old.medium)) }
        ensures err { OnErr result (self.new ≡ self.old) }
    {
        self.past.reserve(1)?;
        let was = Snapshot::of(&self.medium);
        self.medium.write(alloc, at, from)?;
        self.past.push_reserved(was);
        Ok(())
    }

    /// A sync. Lack of memory changes nothing.
    pub fn sync(&mut self) -> Result<(), Memory>
        ensures ok { OnOk result (self.new ≡ moves_to self.old (at_rest self.old.medium.bytes)) }
        ensures err { OnErr result (self.new ≡ self.old) }
    {
        self.past.reserve(1)?;
        let was = Snapshot::of(&self.medium);
        self.medium.sync();
        self.past.push_reserved(was);
        Ok(())
    }
}
