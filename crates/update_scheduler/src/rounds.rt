ghost use Rattle.std.specs.Prelude.{◌≡◌, ◌<◌, [], IfOk, IfErr, IsTrue, All, vec_capacity};
ghost use Rattle.rollout_rules.specs.Items.{item_count};
ghost use Rattle.rollout_rules.specs.Legal.{is_legal, may_follow};
ghost use Rattle.order_policy.specs.Answers.{rank_by};
ghost use Rattle.update_scheduler.specs.Counts.{count_done, count_begun};
ghost use Rattle.update_scheduler.specs.Rounds as rounds;
ghost use Rattle.update_scheduler.specs.Turns.{IsTurning};

use crate::Bench;
use crate::in_flight::InFlight;
use crate::pending_acks::PendingAcks;
use crate::turns::make_batch;
use dependency_graph::Graph;
use lists::Memory;
use order_policy::Policy;
use rollout_rules::{Entry, Op};
use std::alloc::Global;
use std::marker::Model;
use wan_model::item_count;

/// A rollout as its controller turns it: the graph, what was heard since the last round, and the batch of
/// that round.
#[derive(Drop)]
pub struct Rounds {
    graph: Graph,
    bench: Bench,
    flights: InFlight,
    told: PendingAcks,
    batch: Vec<Entry>,
}

impl Model for Rounds {
    ghost use Rattle.std.specs.Prelude.{vec_capacity};
    ghost use Rattle.update_scheduler.specs.Rounds.{Turning};
    ghost use Rattle.update_scheduler.specs.Turns.{IsTurning};

    ghost Value = { Turning };

    ghost view = { λ r. record {
      rollout = r.graph.rollout;
      history = r.graph.history;
      heard = r.told.answers;
      batch = r.batch.items;
    } };

    ghost invariant = { λ r. IsTurning r.graph r.bench r.flights r.told r.batch.items
        (vec_capacity r.batch) };
}

impl Rounds {
    /// Before the first answer, over a graph whose history is legal. An Err is lack of memory, and gives the
    /// graph back.
    pub fn new(alloc: Global, graph: Graph) -> Result<Rounds, Graph>
        requires legal { IsTrue (is_legal graph.rollout.problem graph.rollout.plan graph.history) }
        ensures ok { IfOk result (λ r. r ≡ rounds.first_turn graph) }
        ensures err { IfErr result (λ back. back ≡ graph) }
    {
        match first_parts(alloc, &graph) {
            Ok(parts) => Ok(of_parts(graph, parts)),
            Err(_) => Err(graph),
        }
    }

    /// Hears an answer: an item, and the number of operations that its switch has applied. It takes no
    /// memory.
    pub fn hear(&mut self, answer: Op)
        requires { answer.item < item_count self.old.rollout.problem }
        ensures { self.new ≡ rounds.with_answer self.old answer }
    {
        self.told.hear(&self.graph, answer);
    }

    /// Forgets what was heard since the last round, as a crash does.
    pub fn forget(&mut self)
        ensures { self.new ≡ rounds.with_nothing_heard self.old }
    {
        self.told.forget();
    }

    /// Makes a round: a Done for each operation in flight that an answer heard since the last round covers, by
    /// item, and then the release by the policy. It takes no memory.
    pub fn round(&mut self, policy: &Policy)
        ensures next { self.new ≡ rounds.after_round self.old (rank_by policy.now.answers) }
        ensures follows { IsTrue (may_follow self.old.rollout.problem self.old.rollout.plan
            self.old.history self.new.batch) }
    {
        make_batch(
            &mut self.graph,
            policy,
            &mut self.bench,
            &mut self.told,
            &mut self.batch,
        );
        self.flights.follow(&self.batch);
    }

    /// The batch of the last round; none before the first.
    pub fn batch(&self) -> &[Entry]
        ensures { result.now ≡ self.now.batch }
    {
        self.batch.as_slice()
    }

    /// How many entries of the batch are Done.
    pub fn dones(&self) -> u32
        ensures { result ≡ count_done self.now.batch }
    {
        let _ = self.bench.items();
        (self.batch.len() - self.bench.begun().len()) as u32
    }

    /// How many entries of the batch are Begin.
    pub fn begins(&self) -> u32
        ensures { result ≡ count_begun self.now.batch }
    {
        let _ = self.bench.items();
        self.bench.begun().len() as u32
    }

    /// The operations in flight, by item.
    pub fn flying(&self) -> &[Op]
        ensures value { result.now ≡ rounds.flying_of self.now }
        ensures items { All (λ op. op.item < item_count self.now.rollout.problem) result.now }
    {
        self.flights.ops()
    }

    /// The graph, whose history is legal.
    pub fn graph(&self) -> &Graph
        ensures value { result.now ≡ rounds.graph_of self.now }
        ensures legal { IsTrue (is_legal self.now.rollout.problem self.now.rollout.plan
            self.now.history) }
    {
        &self.graph
    }

    /// Gives the graph back.
    pub fn into_graph(self) -> Graph
        ensures { result ≡ rounds.graph_of self }
    {
        self.graph
    }
}

/// All that is made of a graph.
#[derive(Drop)]
struct Parts {
    bench: Bench,
    flights: InFlight,
    told: PendingAcks,
    batch: Vec<Entry>,
}

fn of_parts(graph: Graph, parts: Parts) -> Rounds
    requires turning { IsTurning graph parts.bench parts.flights parts.told parts.batch.items
        (vec_capacity parts.batch) }
    requires first { (parts.told.answers ≡ []) × (parts.batch.items ≡ []) }
    ensures { result ≡ rounds.first_turn graph }
{
    Rounds {
        graph,
        bench: parts.bench,
        flights: parts.flights,
        told: parts.told,
        batch: parts.batch,
    }
}

fn first_parts(alloc: Global, graph: &Graph) -> Result<Parts, Memory>
    requires legal { IsTrue (is_legal graph.now.rollout.problem graph.now.rollout.plan
        graph.now.history) }
    ensures turning { IfOk result
        (λ parts. IsTurning graph.now parts.bench parts.flights parts.told parts.batch.items
        (vec_capacity parts.batch)) }
    ensures first { IfOk result (λ parts. (parts.told.answers ≡ []) × (parts.batch.items ≡ [])) }
{
    let items = item_count(graph.plan().problem());
    Ok(Parts {
        bench: Bench::new(alloc, graph)?,
        flights: InFlight::new(alloc, graph)?,
        told: PendingAcks::new(alloc, items)?,
        batch: Vec::with_capacity(alloc, 2 * items as usize)?,
    })
}
