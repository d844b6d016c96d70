ghost use Rattle.std.specs.Prelude.{◌≡◌, ◌-◌, [], length, take, drop, min, Some, is_err, IfOk, IsErr, IsTrue, OnErr, OnOk, if◌then◌else◌};
ghost use Rattle.std.proofs.Common.{inl, refl};
ghost use Rattle.disk_model.specs.Crashes.{Only, Stepped, Within};
ghost use Rattle.disk_model.specs.Writes.{Torn};
ghost use Rattle.disk_model.specs.Moments.{Passes};
ghost use Rattle.disk_model.specs.Memory.{LeftSince, MayLeave, after_call, after_write, at_rest, fails_now, fresh, moves_to, trace_of};
ghost use Rattle.disk_model.specs.Past.{only_now};

use crate::Disk;
use crate::failing_calls::FailingCalls;
use crate::timeline::Timeline;
use lists::Memory;
use std::alloc::Global;
use std::cmp::min;
use std::marker::Model;
use wan_edge::{Failed, Nums8, Turns};

/// A disk in memory, which tells everything and fails at chosen calls, and where a call finds no memory.
/// A call that fails changes nothing.
#[derive(Drop)]
pub struct MemoryDisk {
    alloc: Global,
    timeline: Timeline,
    calls: FailingCalls,
}

impl Model for MemoryDisk {
    ghost use Rattle.disk_model.specs.Memory.{Storing};

    ghost Value = { Storing };

    ghost view = { λ d. record { timeline = d.timeline; calls = d.calls } };
}

impl MemoryDisk {
    /// A disk with these bytes, all of them synced. The calls whose numbers, from 0, stand in `fails` are
    /// to fail.
    pub fn new(alloc: Global, bytes: Nums8, fails: Turns) -> Self
        ensures fresh { result
            ≡ record {
              timeline = record { medium = at_rest bytes; past = [] };
              calls = fresh fails;
            } }
        ensures synced { Only bytes (MayLeave result.timeline.medium) }
    {
        MemoryDisk {
            alloc,
            timeline: Timeline::new(alloc, bytes),
            calls: FailingCalls::new(fails),
        }
    }

    /// From the call with this number on, counted from 0, every call is to fail.
    pub fn stop_at(&mut self, call: u64)
        ensures { self.new
            ≡ record self.old { calls = record self.old.calls { stop = Some call } } }
    {
        self.calls.stop_at(call);
    }

    #[tactic(auto, using(crate::proofs::Reaching::untorn))]
    /// The image that a crash leaves where the writes since the last sync are kept, or none of them is.
    pub fn left(&self, keep: bool) -> Result<Nums8, Memory>
        ensures image { IfOk result
            (λ image. image
            ≡ (if keep then self.now.timeline.medium.bytes else self.now.timeline.medium.synced)) }
        ensures may_leave { IfOk result (λ image. MayLeave self.now.timeline.medium image) }
    {
        let medium = self.timeline.medium();
        let mut bytes = Nums8::new(self.alloc);
        if keep {
            bytes.extend_from_slice(medium.bytes())?;
        } else {
            let synced = medium.synced(self.alloc)?;
            bytes.extend_from_slice(synced.as_slice())?;
        }
        Ok(bytes)
    }

    /// What a read gives.
    pub fn bytes(&self) -> &[u8]
        ensures { result.now ≡ self.now.timeline.medium.bytes }
    {
        self.timeline.medium().bytes()
    }

    /// How many calls there were.
    pub fn calls(&self) -> u64
        ensures { result ≡ self.now.calls.turns.next }
    {
        self.calls.calls()
    }

    /// How many of them have failed.
    pub fn failures(&self) -> u64
        ensures { result ≡ self.now.calls.turns.failures }
    {
        self.calls.failures()
    }
}

impl Disk for MemoryDisk {
    ghost told = { trace_of };

    ghost shows_one = { λ d. inl refl };

    ghost counts_now = { λ d t c earlier now. inl now };

    ghost only_now = { λ d. only_now d.timeline };

    /// The length, or a failure exactly where it is this call's turn.
    fn len(&mut self) -> Result<u64, Failed>
        ensures fails { is_err result ≡ fails_now self.old.calls }
        ensures answer { IfOk result (λ n. n ≡ length self.old.timeline.medium.bytes) }
        ensures stays { self.new.timeline ≡ self.old.timeline }
        ensures calls { self.new.calls ≡ after_call self.old.calls (is_err result) }
    {
        let failed = self.calls.fails_now();
        self.calls.count(failed);
        if failed {
            return Err(Failed);
        }
        Ok(self.timeline.medium().bytes().len() as u64)
    }

    /// As many bytes as there are and as fit, or a failure exactly where it is this call's turn.
    fn read_at(&mut self, at: u64, into: &mut [u8]) -> Result<usize, Failed>
        ensures fails { is_err result ≡ fails_now self.old.calls }
        ensures answer { IfOk result
            (λ n. n ≡ min (length into.old) (length self.old.timeline.medium.bytes - at)) }
        ensures given { IfOk result
            (λ n. take n into.new ≡ take n (drop at self.old.timeline.medium.bytes)) }
        ensures stays { self.new.timeline ≡ self.old.timeline }
        ensures calls { self.new.calls ≡ after_call self.old.calls (is_err result) }
    {
        let failed = self.calls.fails_now();
        self.calls.count(failed);
        if failed {
            return Err(Failed);
        }
        Ok(copy_from(self.timeline.medium().bytes(), at, into))
    }

    #[tactic(auto, using(crate::proofs::Passing::passes))]
    /// Writes all the bytes, or fails: where it is this call's turn, or for lack of memory.
    fn write_at(&mut self, at: u64, from: &[u8]) -> Result<(), Failed>
        ensures fails { IsTrue (fails_now self.old.calls) → IsErr result }
        ensures ok { OnOk result
            (self.new.timeline
            ≡ moves_to self.old.timeline (after_write at from.now self.old.timeline.medium)) }
        ensures err { OnErr result (self.new.timeline ≡ self.old.timeline) }
        ensures crash { Within (MayLeave self.new.timeline.medium)
            (Stepped (Torn at (length from.now)) (MayLeave self.old.timeline.medium)) }
        ensures time { Passes (length self.old.timeline.past) (length self.new.timeline.past)
            (LeftSince self.old.timeline) (LeftSince self.new.timeline)
            (MayLeave self.new.timeline.medium) }
        ensures calls { self.new.calls ≡ after_call self.old.calls (is_err result) }
    {
        let failed = self.calls.fails_now() || self.timeline.write(self.alloc, at, from).is_err();
        self.calls.count(failed);
        if failed { Err(Failed) } else { Ok(()) }
    }

    #[tactic(auto, using(crate::proofs::Passing::passes))]
    /// Syncs all that was written, or fails: where it is this call's turn, or for lack of memory.
    fn sync(&mut self) -> Result<(), Failed>
        ensures fails { IsTrue (fails_now self.old.calls) → IsErr result }
        ensures ok { OnOk result
            (self.new.timeline
            ≡ moves_to self.old.timeline (at_rest self.old.timeline.medium.bytes)) }
        ensures err { OnErr result (self.new.timeline ≡ self.old.timeline) }
        ensures time { Passes (length self.old.timeline.past) (length self.new.timeline.past)
            (LeftSince self.old.timeline) (LeftSince self.new.timeline)
            (MayLeave self.new.timeline.medium) }
        ensures calls { self.new.calls ≡ after_call self.old.calls (is_err result) }
    {
        let failed = self.calls.fails_now() || self.timeline.sync().is_err();
        self.calls.count(failed);
        if failed { Err(Failed) } else { Ok(()) }
    }
}

// Copies the bytes from `at` on, as many as fit, and says how many.
fn copy_from(bytes: &[u8], at: u64, into: &mut [u8]) -> usize
    ensures answer { result ≡ min (length into.old) (length bytes.now - at) }
    ensures given { take result into.new ≡ take result (drop at bytes.now) }
{
    let rest = &bytes[min(at as usize, bytes.len())..];
    let n = min(into.len(), rest.len());
    into[..n].copy_from_slice(&rest[..n]);
    n
}
