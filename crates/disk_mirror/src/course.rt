ghost use Rattle.std.specs.Prelude.{◌≡◌, [], OnErr, OnOk};
ghost use Rattle.disk_model.specs.Memory.{after_write, at_rest, moves_to};

use crate::past::Past;
use crate::standing::Standing;
use lists::Memory;
use std::marker::Model;

/// The bytes of a disk with all that they were, of which the program keeps nothing.
#[derive(Drop)]
pub(crate) struct Course {
    standing: Standing,
    past: Past,
}

impl Model for Course {
    ghost use Rattle.disk_mirror.specs.Past.{past_in};
    ghost use Rattle.disk_model.specs.Memory.{Timeline};

    ghost Value = { Timeline };

    ghost view = { λ c. record { medium = c.standing; past = past_in c.past } };
}

impl Course {
    /// These bytes are synced, and there was nothing before.
    pub(crate) fn new(bytes: Vec<u8>) -> Self
        ensures { result ≡ record { medium = at_rest bytes.items; past = [] } }
    {
        Course {
            standing: Standing::new(bytes),
            past: Past::Nothing,
        }
    }

    pub(crate) fn bytes(&self) -> &[u8]
        ensures { result.now ≡ self.now.medium.bytes }
    {
        self.standing.bytes()
    }

    /// A write. Lack of memory changes nothing.
    pub(crate) fn write(&mut self, at: u64, from: &[u8]) -> Result<(), Memory>
        ensures ok { OnOk result
            (self.new ≡ moves_to self.old (after_write at from.now self.old.medium)) }
        ensures err { OnErr result (self.new ≡ self.old) }
    {
        let past = self.past.also(&self.standing);
        self.standing.write(at, from)?;
        self.past = past;
        Ok(())
    }

    /// A sync.
    pub(crate) fn sync(&mut self)
        ensures { self.new ≡ moves_to self.old (at_rest self.old.medium.bytes) }
    {
        self.past = self.past.also(&self.standing);
        self.standing.sync();
    }
}
