ghost use Rattle.std.specs.Prelude.{◌≡◌, ◌+◌, ◌<◌, ◌≤◌, true, false, length, vec_capacity, is_ok, IfSome, OnErr, OnOk};
ghost use Rattle.disk_model.specs.Moments.{LeavesOnly};
ghost use Rattle.intent_journal.specs.Entries.{entry_rows};
ghost use Rattle.intent_journal.specs.Images.{journal_in};
ghost use Rattle.intent_journal.specs.Opened.{HasAdded, HasRoom, IsKept};
ghost use Rattle.intent_journal.specs.States.{IsBeforeOrAfter, IsGate};
ghost use Rattle.wan_edge.specs.Streams.{KeepsTelling, Rose};

use crate::appending::commit;
use crate::body::fill;
use disk_model::Disk;
use rollout_rules::Entry;
use std::marker::Model;
use wan_edge::Failed;

/// A journal that is open for appends. It owns its disk.
#[derive(Drop)]
pub struct Journal<D: Disk> {
    disk: D,
    // The closed gate after the list, and where its part ends.
    gate: u64,
    end: u64,
    entries: u32,
    most: u32,
    // Room for the bytes of a batch.
    body: Vec<u8>,
    live: bool,
}

impl<D: Disk> Model for Journal<D> {
    ghost use Rattle.std.specs.Prelude.{vec_capacity};
    ghost use Rattle.std.specs.Bool.{OnTrue};
    ghost use Rattle.intent_journal.specs.Opened.{HasRoom, IsKept, Opened};

    ghost Value = { Opened D };

    ghost view = { λ j. record {
      disk = j.disk;
      live = j.live;
      entries = j.entries;
      most = j.most;
    } };

    ghost invariant = { λ j. OnTrue j.live
        (IsKept j.gate j.end (D.told j.disk).bytes (D.told j.disk).may_leave)
        × HasRoom j.gate j.end j.entries j.most (vec_capacity j.body) };
}

impl<D: Disk> Journal<D> {
    /// A journal whose disk is at rest with this gate, in a part with this end. Its list has this many
    /// entries and may come to this many.
    pub(crate) fn at_rest(
        disk: D,
        gate: u64,
        end: u64,
        entries: u32,
        most: u32,
        body: Vec<u8>,
    ) -> Self
        requires kept { IsKept gate end (D.told disk).bytes (D.told disk).may_leave }
        requires room { HasRoom gate end entries most (vec_capacity body) }
        ensures { result ≡ record { disk = disk; live = true; entries = entries; most = most } }
    {
        Journal {
            disk,
            gate,
            end,
            entries,
            most,
            body,
            live: true,
        }
    }

    /// Whether no append has failed.
    pub fn live(&self) -> bool
        ensures { result ≡ self.now.live }
    {
        self.live
    }

    /// How many entries the list has.
    pub fn entries(&self) -> u32
        ensures { result ≡ self.now.entries }
    {
        self.entries
    }

    /// The disk, for a look at it.
    pub fn disk(&self) -> &D
        ensures { result.now ≡ self.now.disk }
    {
        &self.disk
    }

    /// The place of the gate after the list, from which on the batches of later appends stand. While the
    /// journal lives it is a byte of the image, and closed.
    pub fn gate(&self) -> u64
        ensures { self.now.live ≡ true
            → IfSome (D.told self.now.disk).bytes (IsGate result) }
    {
        self.gate
    }

    /// Gives the disk back.
    pub fn into_disk(self) -> D
        ensures { result ≡ self.disk }
    {
        self.disk
    }

    /// Puts a batch after the list. A crash at any moment leaves the list as it was, or with the whole
    /// batch; after `Ok` the batch is there. After a failure the journal takes no other. It takes no
    /// memory.
    pub fn append(&mut self, batch: &[Entry]) -> Result<(), Failed>
        requires live { self.old.live ≡ true }
        requires some { 0 < length batch.now }
        requires room { self.old.entries + length batch.now ≤ self.old.most }
        ensures any_moment { IfSome (D.told self.old.disk).bytes
            (λ image. LeavesOnly D.told self.old.disk self.new.disk
            (IsBeforeOrAfter (journal_in image) (entry_rows batch.now))) }
        ensures done { OnOk result
            (IfSome (D.told self.old.disk).bytes
            (λ image. HasAdded batch.now image (D.told self.new.disk).bytes
            (D.told self.new.disk).may_leave)) }
        ensures told { KeepsTelling (D.told self.old.disk).bytes (D.told self.new.disk).bytes }
        ensures live { self.new.live ≡ is_ok result }
        ensures entries { OnOk result (self.new.entries ≡ self.old.entries + length batch.now) }
        ensures most { self.new.most ≡ self.old.most }
        ensures cause { OnErr result
            (Rose (D.told self.old.disk).faults (D.told self.new.disk).faults) }
        ensures count { (D.told self.old.disk).faults ≤ (D.told self.new.disk).faults }
    {
        self.live = false;
        fill(&mut self.body, batch);
        commit(&mut self.disk, self.gate, self.body.as_slice())?;
        self.gate += self.body.len() as u64;
        self.entries += batch.len() as u32;
        self.live = true;
        Ok(())
    }
}
