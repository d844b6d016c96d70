ghost use Rattle.std.specs.Prelude.{◌≡◌, [], IfSome};
ghost use Rattle.disk_model.specs.Crashes.{IsDurable};
ghost use Rattle.rollout_log.specs.Logs.{IsLog, first_phase};

use crate::noting::note;
use crate::phase::Phase;
use disk_mirror::{Openable, Shown};
use disk_model::Disk;
use rollout_rules::EntryList;
use std::alloc::Global;
use std::marker::Model;
use std::time::Clock;
use wan_edge::{Failed, Sink};

/// A disk with a log of the journal on it, as the crate's page says. It does what the disk behind it does, and
/// tells what that tells.
///
/// A list is read where something may have come to it: after the first sync, and after each sync that follows
/// the write of a byte alone, as that which opens the gate of a batch. Time: all of the list.
#[derive(Drop)]
pub struct Logged<D: Shown, L: Sink, R> {
    rt: R,
    alloc: Global,
    disk: D,
    log: L,
    // The list as it was read last.
    known: EntryList,
    phase: Phase,
    // Whether the list may have grown since.
    due: bool,
}

impl<D: Shown, L: Sink, R> Model for Logged<D, L, R> {
    ghost use Rattle.std.specs.Prelude.{IfSome};
    ghost use Rattle.rollout_log.specs.Logs.{IsSoFar, Logging};

    ghost Value = { Logging D L };

    ghost view = { λ l. record { disk = l.disk; log = l.log; known = l.known; phase = l.phase } };

    ghost invariant = { λ l. IfSome (L.told l.log).written (IsSoFar D.told l.phase l.known) };
}

impl<D: Shown, L: Sink, R: Clock> Logged<D, L, R> {
    /// Over a disk, with a log to which nothing was written, whose times are those of the runtime's clock. Where
    /// no log is asked for, none is written, and no list is read for it.
    #[tactic(auto, using(crate::proofs::Going::log_begun))]
    pub fn new(rt: R, alloc: Global, disk: D, log: L, asked: bool) -> Self
        requires { IfSome (L.told log).written (λ text. text ≡ []) }
        ensures { result
            ≡ record { disk = disk; log = log; known = []; phase = first_phase asked } }
    {
        Logged {
            rt,
            alloc,
            disk,
            log,
            known: EntryList::new(alloc),
            phase: Phase::first(asked),
            due: asked,
        }
    }

    /// The log.
    pub fn log(&self) -> &L
        ensures { result.now ≡ self.now.log }
    {
        &self.log
    }

    /// What was written is a front of the lines of a list that was durable before.
    #[tactic(auto, using(crate::proofs::Going::told_log))]
    pub fn is_log(&self)
        ensures { IfSome (L.told self.now.log).written (IsLog D.told) }
    {
        let _ = &self.phase;
    }

    // Reads the list, where it may have grown, and writes what is new of it.
    fn look(&mut self)
        requires { IsDurable (D.told self.old.disk).bytes (D.told self.old.disk).may_leave }
        ensures { self.new.disk ≡ self.old.disk }
    {
        if !self.due || self.phase == Phase::Ended {
            return;
        }
        self.due = false;
        note(
            &self.rt,
            self.alloc,
            &self.disk,
            &mut self.log,
            &mut self.known,
            &mut self.phase,
        );
    }
}

impl<D: Shown, L: Sink, R: Clock> Disk for Logged<D, L, R> {
    ghost told = { λ l. D.told l.disk };

    ghost shows_one = { λ l. D.shows_one l.disk };

    ghost counts_now = { λ l. D.counts_now l.disk };

    ghost only_now = { λ l. D.only_now l.disk };

    fn len(&mut self) -> Result<u64, Failed> {
        self.disk.len()
    }

    fn read_at(&mut self, at: u64, into: &mut [u8]) -> Result<usize, Failed> {
        self.disk.read_at(at, into)
    }

    fn write_at(&mut self, at: u64, from: &[u8]) -> Result<(), Failed> {
        self.due = is_due(self.due, from.len());
        self.disk.write_at(at, from)
    }

    fn sync(&mut self) -> Result<(), Failed> {
        self.disk.sync()?;
        self.look();
        Ok(())
    }
}

impl<D: Shown, L: Sink, R: Clock> Openable for Logged<D, L, R> {
    fn open(&mut self, most: u64) -> Result<(), Failed> {
        self.disk.open(most)
    }
}

// A gate is a byte alone.
fn is_due(due: bool, written: usize) -> bool {
    due || written == 1
}
