ghost use Rattle.std.specs.Prelude.{◌≡◌, ◌≤◌, ◌++◌, [], length, true, None, IfErr, IfOk, IfSome, IsTrue, OnErr, OnOk};
ghost use Rattle.rollout_rules.specs.History.{from_nothing};
ghost use Rattle.rollout_rules.specs.Legal.{is_finished, is_legal};
ghost use Rattle.order_policy.specs.Answers.{rank_by};
ghost use Rattle.intent_journal.specs.Openings.{IsLeft, IsOpenedFrom};
ghost use Rattle.rollout_book.specs.JournaledRounds.{graph_of, IsNewBook, IsRound};
ghost use Rattle.rollout_book.specs.Commands.{commands_of};

use crate::commands::CommandList;
use crate::fault::BookFault;
use crate::journaled_rounds::JournaledRounds;
use crate::turn::Turn;
use dependency_graph::Graph;
use disk_model::Disk;
use intent_journal::{Digest, Unopened};
use lists::Memory;
use order_policy::Policy;
use rollout_rules::Entry;
use std::alloc::Global;
use wire_frames::Answer;

/// Journaled rounds, with the policy by which they release.
#[derive(Drop)]
pub struct Book<'d, D: Disk> {
    pub chronicle: JournaledRounds<D>,
    pub policy: &'d Policy,
}

impl<'d, D: Disk> Book<'d, D> {
    /// Opens the book of a rollout on a disk, as [`JournaledRounds::open`] does.
    pub fn open(
        alloc: Global,
        graph: Graph,
        digest: &Digest,
        policy: &'d Policy,
        disk: D,
    ) -> Result<Book<'d, D>, Unopened<D>>
        requires empty { graph.history ≡ from_nothing graph.rollout.problem [] }
        ensures policy { IfOk result (λ book. book.policy.now ≡ policy.now) }
        ensures opened { IfOk result
            (λ book. IsOpenedFrom D.told graph.rollout digest.now disk (graph_of book.chronicle)
            book.chronicle.entries book.chronicle.disk) }
        ensures book { IfOk result (λ book. IsNewBook D.told book.chronicle) }
        ensures left { IfErr result
            (λ unopened. IsLeft D.told graph.rollout digest.now disk unopened.cause unopened.disk) }
    {
        let chronicle = JournaledRounds::open(alloc, graph, digest, disk)?;
        Ok(Book { chronicle, policy })
    }

    /// Makes a round, as [`JournaledRounds::round`] does, and releases by the book's policy.
    pub fn round(&mut self, answers: &[Answer]) -> Result<Turn, BookFault>
        requires live { self.old.chronicle.live ≡ true }
        ensures policy { self.new.policy.now ≡ self.old.policy.now }
        ensures round { IsRound D.told (rank_by self.old.policy.now.answers) answers.now
            self.old.chronicle result self.new.chronicle }
    {
        self.chronicle.round(self.policy, answers)
    }

    /// Adds the commands of the operations in flight whose homes are among these switches, by item; nothing
    /// where the book lives no longer. Lack of memory changes nothing.
    pub fn commands(
        &self,
        alloc: Global,
        switches: &[u32],
        out: &mut CommandList,
    ) -> Result<(), Memory>
        ensures ok { OnOk result
            (out.new ≡ out.old ++ commands_of self.now.chronicle switches.now) }
        ensures err { OnErr result (out.new ≡ out.old) }
    {
        self.chronicle.commands(alloc, switches, out)
    }

    /// Whether no append has failed.
    pub fn live(&self) -> bool
        ensures { result ≡ self.now.chronicle.live }
    {
        self.chronicle.live()
    }

    /// Whether every operation is settled.
    pub fn finished(&self) -> bool
        ensures { result
            ≡ is_finished self.now.chronicle.rollout.problem self.now.chronicle.rollout.plan
            self.now.chronicle.history }
    {
        self.chronicle.finished()
    }

    /// How many entries the opening found.
    pub fn found(&self) -> u32
        ensures { result ≡ self.now.chronicle.found }
    {
        self.chronicle.found()
    }

    /// The list of the journal.
    pub fn entries(&self) -> &[Entry]
        ensures { result.now ≡ self.now.chronicle.entries }
    {
        self.chronicle.entries()
    }

    /// The graph of the rollout, whose history is legal.
    pub fn graph(&self) -> &Graph
        ensures value { result.now ≡ graph_of self.now.chronicle }
        ensures legal { IsTrue (is_legal self.now.chronicle.rollout.problem
            self.now.chronicle.rollout.plan self.now.chronicle.history) }
    {
        self.chronicle.graph()
    }

    /// Gives the graph and the disk back.
    pub fn into_parts(self) -> (Graph, D)
        ensures graph { result.0 ≡ graph_of self.entry.chronicle }
        ensures disk { result.1 ≡ self.entry.chronicle.disk }
    {
        self.chronicle.into_parts()
    }
}
