ghost use Rattle.std.specs.Prelude.{◌≡◌, ◌*◌, ◌<◌, ◌≤◌, ◌++◌, [], length, true, vec_capacity, All, None, IfErr, IfOk, IfSome, IsTrue, OnErr, OnOk};
ghost use Rattle.rollout_rules.specs.History.{from_nothing};
ghost use Rattle.rollout_rules.specs.Items.{item_count};
ghost use Rattle.rollout_rules.specs.Legal.{is_finished, is_legal};
ghost use Rattle.rollout_rules.specs.World.{in_flight};
ghost use Rattle.dependency_graph.specs.Graph.{op_total};
ghost use Rattle.dependency_graph.specs.Index.{AreItems};
ghost use Rattle.order_policy.specs.Answers.{rank_by};
ghost use Rattle.intent_journal.specs.Openings.{IsLeft, IsOpenedFrom};
ghost use Rattle.intent_journal.specs.States.{IsGate};
ghost use Rattle.intent_journal.specs.declared.fault.JournalFault.TheVariants as fault;
ghost use Rattle.update_scheduler.specs.Rounds as rounds;
ghost use Rattle.rollout_book.specs.JournaledRounds.{first_book, graph_of, IsFound, IsNewBook, IsRound};
ghost use Rattle.rollout_book.specs.Commands.{commands_of};
ghost use Rattle.rollout_book.specs.Lists.{IsKeptList};

use crate::aliens::first_alien;
use crate::commands::{CommandList, add_asked};
use crate::fault::BookFault;
use crate::hearing::hear_each;
use crate::opening::{Found, Parts, find};
use crate::turn::Turn;
use crate::turning::turn;
use dependency_graph::Graph;
use disk_model::Disk;
use intent_journal::{Digest, Journal, JournalFault, Unopened};
use lists::{Many, Memory};
use order_policy::Policy;
use rollout_rules::{Entry, Item, Op};
use std::alloc::Global;
use std::marker::Model;
use update_scheduler::Rounds;
use wire_frames::Answer;

/// A rollout's rounds, and the journal on which each of them is written. It owns the disk.
#[derive(Drop)]
pub struct JournaledRounds<D: Disk> {
    rounds: Rounds,
    items: Many<Item>,
    journal: Journal<D>,
    entries: Vec<Entry>,
    found: u32,
}

impl<D: Disk> Model for JournaledRounds<D> {
    ghost use Rattle.std.specs.Prelude.{◌≡◌, [], vec_capacity};
    ghost use Rattle.rollout_rules.specs.Items.{item_count};
    ghost use Rattle.dependency_graph.specs.Index.{AreItems};
    ghost use Rattle.rollout_book.specs.JournaledRounds.{Journaled, AreJournaledRounds};

    ghost Value = { Journaled D };

    ghost view = { λ b. record {
      rollout = b.rounds.rollout;
      history = b.rounds.history;
      entries = b.entries.items;
      disk = b.journal.disk;
      live = b.journal.live;
      found = b.found;
    } };

    ghost invariant = { λ b. (b.rounds.heard ≡ [])
        × AreItems b.rounds.rollout.problem (item_count b.rounds.rollout.problem) b.items
        × AreJournaledRounds D.told b.rounds b.journal b.entries.items (vec_capacity b.entries) };
}

impl<D: Disk> JournaledRounds<D> {
    /// Opens the book on a disk: the journal is recovered, or made where there is none, and the graph is
    /// brought to its start and its list. All later rounds take no memory. Where it isn't opened, the disk
    /// comes back; it was written on only after the image was judged to be blank or the rollout's own.
    pub fn open(
        alloc: Global,
        graph: Graph,
        digest: &Digest,
        disk: D,
    ) -> Result<JournaledRounds<D>, Unopened<D>>
        requires empty { graph.history ≡ from_nothing graph.rollout.problem [] }
        ensures opened { IfOk result
            (λ book. IsOpenedFrom D.told graph.rollout digest.now disk (graph_of book) book.entries
            book.disk) }
        ensures book { IfOk result (λ book. IsNewBook D.told book) }
        ensures left { IfErr result
            (λ unopened. IsLeft D.told graph.rollout digest.now disk unopened.cause unopened.disk) }
    {
        let mut graph = graph;
        match find(alloc, &mut graph, digest, disk) {
            Ok(found) => of_found(alloc, graph, found),
            Err(unopened) => {
                drop(graph);
                Err(unopened)
            }
        }
    }

    /// Makes a round: a Done for each operation in flight that an answer covers, by item, and then the
    /// release by the policy, as one batch. It is written by one append, and not at all where it is empty. A
    /// crash at any moment leaves the list before or with the whole batch; after `Ok` each image has the
    /// batch, in a journal of the same digest and migration. It takes no memory.
    ///
    /// The first answer that is alien is refused, and then nothing changes. Where the disk fails, the book
    /// lives no longer.
    pub fn round(&mut self, policy: &Policy, answers: &[Answer]) -> Result<Turn, BookFault>
        requires live { self.old.live ≡ true }
        ensures { IsRound D.told (rank_by policy.now.answers) answers.now self.old result self.new }
    {
        match first_alien(self.rounds.graph(), answers) {
            Some(fault) => Err(fault),
            None => {
                hear_each(&mut self.rounds, answers);
                turn(
                    &mut self.rounds,
                    &mut self.journal,
                    &mut self.entries,
                    policy,
                )
            }
        }
    }

    /// Adds the commands of the operations in flight whose homes are among these switches, by item; nothing
    /// where the book lives no longer. Lack of memory changes nothing.
    pub fn commands(
        &self,
        alloc: Global,
        switches: &[u32],
        out: &mut CommandList,
    ) -> Result<(), Memory>
        ensures ok { OnOk result (out.new ≡ out.old ++ commands_of self.now switches.now) }
        ensures err { OnErr result (out.new ≡ out.old) }
    {
        let mut asked = CommandList::new(alloc);
        if self.journal.live() {
            add_asked(
                self.rounds.graph(),
                self.items.as_slice(),
                self.rounds.flying(),
                switches,
                &mut asked,
            )?;
        }
        out.extend_from_slice(asked.as_slice())
    }

    /// The operations in flight, by item.
    pub fn flying(&self) -> &[Op]
        ensures value { result.now ≡ in_flight self.now.rollout.problem self.now.history }
        ensures items { All (λ op. op.item < item_count self.now.rollout.problem) result.now }
    {
        self.rounds.flying()
    }

    /// Whether no append has failed.
    pub fn live(&self) -> bool
        ensures { result ≡ self.now.live }
    {
        self.journal.live()
    }

    /// Whether every operation is settled.
    pub fn finished(&self) -> bool
        ensures { result
            ≡ is_finished self.now.rollout.problem self.now.rollout.plan self.now.history }
    {
        self.rounds.graph().finished()
    }

    /// How many entries the opening found.
    pub fn found(&self) -> u32
        ensures { result ≡ self.now.found }
    {
        self.found
    }

    /// The list of the journal. While the book lives, that is the history's, and each image that a crash
    /// leaves has it.
    pub fn entries(&self) -> &[Entry]
        ensures value { result.now ≡ self.now.entries }
        ensures same { self.now.live ≡ true → self.now.entries ≡ self.now.history.entries }
        ensures has { self.now.live ≡ true
            → IfSome (D.told self.now.disk).bytes
            (IsKeptList self.now.history.start self.now.entries (D.told self.now.disk).may_leave) }
    {
        self.entries.as_slice()
    }

    /// The graph of the rollout, whose history is legal.
    pub fn graph(&self) -> &Graph
        ensures value { result.now ≡ graph_of self.now }
        ensures legal { IsTrue (is_legal self.now.rollout.problem self.now.rollout.plan
            self.now.history) }
    {
        self.rounds.graph()
    }

    /// The disk of the journal, for a look at it.
    pub fn disk(&self) -> &D
        ensures { result.now ≡ self.now.disk }
    {
        self.journal.disk()
    }

    /// The place of the gate after the journal's list, from which on the batches of later rounds stand. While
    /// the book lives it is a byte of the image, and closed.
    pub fn gate(&self) -> u64
        ensures { self.now.live ≡ true
            → IfSome (D.told self.now.disk).bytes (IsGate result) }
    {
        self.journal.gate()
    }

    /// Gives the graph and the disk back.
    pub fn into_parts(self) -> (Graph, D)
        ensures graph { result.0 ≡ graph_of self }
        ensures disk { result.1 ≡ self.disk }
    {
        (self.rounds.into_graph(), self.journal.into_disk())
    }
}

// The book of a graph that was brought to the list of its journal.
fn of_found<D: Disk>(
    alloc: Global,
    graph: Graph,
    found: Found<D>,
) -> Result<JournaledRounds<D>, Unopened<D>>
    requires { IsFound D.told graph found.journal found.list }
    ensures ok { IfOk result (λ book. book ≡ first_book graph found.list found.journal.disk) }
    ensures err { IfErr result
        (λ unopened. unopened ≡ record { disk = found.journal.disk; cause = fault.Memory }) }
{
    let Found { journal, list } = found;
    match Parts::new(alloc, graph, list.as_slice()) {
        Ok(parts) => Ok(of_parts(parts, journal)),
        Err(_) => Err(Unopened {
            disk: journal.into_disk(),
            cause: JournalFault::Memory,
        }),
    }
}

fn of_parts<D: Disk>(parts: Parts, journal: Journal<D>) -> JournaledRounds<D>
    requires first { parts.rounds.heard ≡ [] }
    requires items { AreItems parts.rounds.rollout.problem (item_count parts.rounds.rollout.problem)
        parts.items }
    requires room { 2 * op_total parts.rounds.rollout ≤ vec_capacity parts.entries }
    requires found { IsFound D.told (rounds.graph_of parts.rounds) journal parts.entries.items }
    ensures { result ≡ first_book (rounds.graph_of parts.rounds) parts.entries.items journal.disk }
{
    JournaledRounds {
        found: journal.entries(),
        rounds: parts.rounds,
        items: parts.items,
        journal,
        entries: parts.entries,
    }
}
