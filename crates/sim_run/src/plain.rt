ghost use Rattle.std.specs.Prelude.{◌≡◌, IfOk, IsTrue};
ghost use Rattle.rollout_rules.specs.Legal.{is_legal};
ghost use Rattle.update_scheduler.specs.Rounds.{first_turn};
ghost use Rattle.intent_journal.specs.Openings.{unbegun};

use crate::sim_rounds::SimRounds;
use dependency_graph::{Graph, checked_plan_is_valid};
use lists::Memory;
use order_policy::Policy;
use rollout_book::{Turn, hear_each};
use rollout_rules::{Entry, EntryList, Op};
use std::alloc::{AllocError, Global};
use std::marker::Model;
use update_scheduler::Rounds;
use wan_model::CheckedPlan;
use wire_frames::Answer;

/// What keeps a rollout without a book: the rounds over its graph, and the list of the durable entries. A
/// crash leaves both, so a start reads nothing and costs nothing.
#[derive(Drop)]
pub(crate) struct Plain {
    rounds: Rounds,
    entries: EntryList,
    // Whether each round has found memory for the list.
    is_live: bool,
}

impl Model for Plain {
    ghost use Rattle.update_scheduler.specs.Rounds.{graph_of};
    ghost use Rattle.sim_run.specs.Keeping.{Keeping};
    ghost use Rattle.sim_run.specs.Plain.{IsPlain};

    ghost Value = { Keeping };

    ghost view = { λ p. record { graph = graph_of p.rounds; live = p.is_live } };

    ghost invariant = { λ p. IsPlain p.rounds p.entries p.is_live };
}

impl Plain {
    /// Gives the plan back.
    pub(crate) fn into_plan(self) -> CheckedPlan
        ensures { result ≡ self.graph.rollout }
    {
        let Plain {
            rounds,
            entries,
            is_live: _,
        } = self;
        drop(entries);
        rounds.into_graph().into_plan()
    }
}

impl SimRounds for Plain {
    ghost keeping = { λ p. p };

    fn first(alloc: Global, plan: CheckedPlan) -> Result<Plain, Memory> {
        let rounds = first_rounds(alloc, plan)?;
        Ok(Plain {
            rounds,
            entries: EntryList::new(alloc),
            is_live: true,
        })
    }

    fn graph(&self) -> &Graph {
        self.rounds.graph()
    }

    fn flying(&self) -> &[Op] {
        self.rounds.flying()
    }

    fn entries(&self) -> &[Entry] {
        self.entries.as_slice()
    }

    fn round(&mut self, policy: &Policy, answers: &[Answer]) -> Result<Turn, Memory> {
        hear_each(&mut self.rounds, answers);
        self.rounds.round(policy);
        self.is_live = false;
        self.entries.extend_from_slice(self.rounds.batch())?;
        self.is_live = true;
        Ok(Turn {
            dones: self.rounds.dones(),
            begins: self.rounds.begins(),
        })
    }

    fn start(&mut self) -> Result<usize, Memory> {
        Ok(self.entries.as_slice().len())
    }
}

/// The rounds of a rollout of which nothing is settled.
#[tactic(auto, using(crate::proofs::Graphs::first_legal))]
fn first_rounds(alloc: Global, plan: CheckedPlan) -> Result<Rounds, Memory>
    ensures { IfOk result (λ rounds. rounds ≡ first_turn (unbegun plan)) }
{
    checked_plan_is_valid(&plan);
    match Graph::new(alloc, plan) {
        Ok(graph) => rounds_of(alloc, graph),
        Err(plan) => {
            drop(plan);
            Err(AllocError)
        }
    }
}

/// The rounds of a graph.
fn rounds_of(alloc: Global, graph: Graph) -> Result<Rounds, Memory>
    requires { IsTrue (is_legal graph.rollout.problem graph.rollout.plan graph.history) }
    ensures { IfOk result (λ rounds. rounds ≡ first_turn graph) }
{
    match Rounds::new(alloc, graph) {
        Ok(rounds) => Ok(rounds),
        Err(graph) => {
            drop(graph);
            Err(AllocError)
        }
    }
}
