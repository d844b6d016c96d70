ghost use Rattle.std.specs.Prelude.{◌≡◌, ◌==◌, ◌++◌, [], ◌∷◌, All, length, map, take, IfErr, IfOk, IfSome, IsTrue, MatchOption, OnErr, OnOk, false};
ghost use Rattle.std.specs.List.{list_any};
ghost use Rattle.port_session.specs.Sessions.{first_session};
ghost use Rattle.shared_book.specs.Homes.{homes_of};
ghost use Rattle.switch_ports.specs.Due.{AreApart, LeavesAlone, due_of};
ghost use Rattle.switch_ports.specs.Rows.{IsLast, HearsEach, IsCauseOfHear, IsCauseOfOffer, ListensEach, OffersAllEach, OffersEach};

use crate::due::due_each;
use crate::outboxes::Outboxes;
use crate::round::{hear_each, offer_each};
use disk_model::Disk;
use lists::Memory;
use port_session::{PortAnswers, Session};
use shared_book::{Cause, Listed, Marker};
use std::alloc::Global;
use std::marker::Model;
use wan_edge::Port;

/// A switch, and the port to it.
#[derive(Drop)]
pub struct Berth<T> {
    pub switch: u32,
    pub port: T,
}

/// The ports of one worker, each to a switch of its own.
#[derive(Drop)]
pub struct WorkerPorts<T: Port> {
    sessions: Vec<Session<T>>,
    outboxes: Outboxes,
}

impl<T: Port> Model for WorkerPorts<T> {
    ghost use Rattle.std.specs.Prelude.{◌≡◌, List, map};
    ghost use Rattle.port_session.specs.Sessions.{SessionView};

    ghost Value = { List (SessionView T) };

    ghost view = { λ w. w.sessions.items };

    ghost invariant = { λ w. w.outboxes.switches ≡ map (λ s. s.switch) w.sessions.items };
}

impl<T: Port> WorkerPorts<T> {
    pub fn new(alloc: Global) -> Self
        ensures { result ≡ [] }
    {
        WorkerPorts {
            sessions: Vec::new(alloc),
            outboxes: Outboxes::new(alloc),
        }
    }

    /// The switches, in the order of the ports.
    pub fn switches(&self) -> &[u32]
        ensures { result.now ≡ map (λ s. s.switch) self.now }
    {
        self.outboxes.switches()
    }

    /// The switches that are due, in the order of the ports: all but the late ones, which owe answers and
    /// whose time limit hasn't passed.
    pub fn due(&self, alloc: Global) -> Result<Vec<u32>, Memory>
        ensures due { IfOk result (λ due. due.items ≡ due_of self.now) }
        ensures apart { IfOk result (λ due. AreApart due.items self.now) }
    {
        self.outboxes.are_apart();
        due_each(alloc, self.sessions.as_slice())
    }

    /// Waits a moment, in which something may come from a late switch.
    pub fn rest(&self) {
        for session in self.sessions.as_slice() {
            if session.is_late() {
                session.rest();
                return;
            }
        }
    }

    /// Adds a port to a switch that none of these is to, before its first round. The port comes back where
    /// memory runs out.
    pub fn add(&mut self, alloc: Global, switch: u32, port: T) -> Result<(), T>
        requires new { list_any (λ s. switch == s.switch) self.old ≡ false }
        ensures ok { OnOk result (self.new ≡ self.old ++ first_session switch port ∷ []) }
        ensures err { IfErr result (λ back. (back ≡ port) × (self.new ≡ self.old)) }
    {
        if self.sessions.reserve(1).is_err() || self.outboxes.add(alloc, switch).is_err() {
            return Err(port);
        }
        self.sessions
            .push_reserved(Session::new(alloc, switch, port));
        Ok(())
    }

    /// Takes the last port out. It takes no memory.
    pub fn take(&mut self) -> Option<Berth<T>>
        ensures { MatchOption result ((self.old ≡ []) × (self.new ≡ []))
            (λ berth. IsLast berth.switch berth.port self.old self.new) }
    {
        let session = self.sessions.pop()?;
        self.outboxes.drop_last();
        Some(Berth {
            switch: session.switch(),
            port: session.into_port(),
        })
    }

    /// Begins a round: each port is offered the commands whose items' home is its switch, in order and in
    /// one call. The commands are such as a turn of a book has listed, and none of them is a late switch's, so
    /// that nothing is offered there; `homes` and the migration are those of its opening.
    ///
    /// # Errors
    ///
    /// `Port` with the switch whose port fails, `Memory`. Ports after it are offered nothing.
    pub fn offer<D: Disk, M: Marker>(
        &mut self,
        listed: &Listed<D, M>,
        homes: &[Option<u32>],
        migration: u32,
    ) -> Result<(), Cause>
        requires homes { homes.now ≡ homes_of M.opening.rollout.problem }
        requires migration { migration ≡ M.migration }
        requires alone { LeavesAlone homes.now listed.now self.old }
        ensures each { OffersEach T.told migration homes.now listed.now self.old self.new }
        ensures all { OnOk result
            (OffersAllEach T.told migration homes.now listed.now self.old self.new) }
        ensures live { All (λ s. IsTrue s.stream.live) self.old
            → All (λ s. IsTrue s.stream.live) self.new }
        ensures cause { IfErr result (λ cause. IsCauseOfOffer T.told cause self.old self.new) }
    {
        offer_each(
            self.sessions.as_mut_slice(),
            &mut self.outboxes,
            listed.commands(),
            homes,
            migration,
        )
    }

    /// Ends a round: each port in turn is heard, until as many answers were read as commands were offered
    /// there, now or in an earlier round, or its time limit has passed. None is waited for: where a port isn't
    /// ready, its switch is late, and the next round hears further. Those of the migration are told in this
    /// order, and none where one port fails or tells what it may not. `homes` and the migration are those of
    /// the opening.
    ///
    /// # Errors
    ///
    /// `Port` with the switch whose port fails, `NotMine` with that of a port that tells of an item whose
    /// home is another, `NoAnswer` with that of one that gives a byte with which no answer begins, `Memory`.
    /// Ports after it aren't heard.
    pub fn hear<M: Marker>(
        &mut self,
        alloc: Global,
        homes: &[Option<u32>],
        migration: u32,
    ) -> Result<PortAnswers<T>, Cause>
        requires live { All (λ s. IsTrue s.stream.live) self.old }
        requires homes { homes.now ≡ homes_of M.opening.rollout.problem }
        requires migration { migration ≡ M.migration }
        ensures each { ListensEach T.told self.old self.new }
        ensures ok { IfOk result
            (λ heard. HearsEach T.told migration homes.now self.old self.new heard.answers) }
        ensures migration { IfOk result (λ heard. heard.migration ≡ migration) }
        ensures live { OnOk result (All (λ s. IsTrue s.stream.live) self.new) }
        ensures cause { IfErr result
            (λ cause. IsCauseOfHear T.told migration homes.now cause self.old self.new) }
    {
        let mut heard = PortAnswers::new(alloc, migration);
        match hear_each(self.sessions.as_mut_slice(), homes, migration, &mut heard) {
            Ok(()) => Ok(heard),
            Err(cause) => Err(cause),
        }
    }
}
