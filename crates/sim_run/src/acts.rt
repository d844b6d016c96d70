ghost use Rattle.std.specs.Prelude.{◌≡◌, ℕ, ◌+◌, ◌<◌, [], ◌∷◌, ◌++◌, true, IsTrue, IsFalse, IfOk, OnOk, length, nat_le, replicate, slice_index_or};
ghost use Rattle.rollout_rules.specs.Items.{item_count};
ghost use Rattle.rollout_rules.specs.History.{from_nothing};
ghost use Rattle.rollout_rules.specs.History as history;
ghost use Rattle.rollout_rules.specs.Legal.{is_legal};
ghost use Rattle.rollout_rules.specs.World.{in_flight, no_op, no_answer};
ghost use Rattle.rollout_rules.specs.declared.op.OpView.{OpView};
ghost use Rattle.rollout_rules.specs.declared.event.Act.TheVariants as act;
ghost use Rattle.rollout_rules.specs.declared.event.Event.TheVariants as event;
ghost use Rattle.order_policy.specs.Answers.{rank_by};
ghost use Rattle.rollout_book.specs.JournaledRounds.{turn_of};
ghost use Rattle.rollout_report.specs.Ends.{end_lines};
ghost use Rattle.sim_run.specs.Acts.{first_rehearsal, can_happen, may_send, exchanges, round_batch, acted, after_act};
ghost use Rattle.sim_run.specs.Passing.{given_of};
ghost use Rattle.sim_run.specs.Rehearsing.{moved};
ghost use Rattle.sim_run.specs.Script.{newest_given, line_of, line_acting};
ghost use Rattle.sim_run.specs.TrialText.{outcome_lines};

use crate::act_line::ActLine;
use crate::controller::Controller;
use crate::network::Network;
use crate::outcome::push_outcome;
use crate::sim_rounds::SimRounds;
use dependency_graph::{Graph, checked_plan_is_valid};
use lists::{Memory, Text};
use order_policy::Policy;
use rollout_book::Turn;
use rollout_report::{History, push_end};
use rollout_rules::{Act, Entry, Given, Held, MOST_SENT, Op};
use std::alloc::Global;
use std::marker::Model;
use wan_model::{CheckedPlan, item_count};

/// Where a rehearsal stands: the controller, and what has passed on the network.
#[derive(Drop)]
pub(crate) struct Rehearsal<K: SimRounds> {
    controller: Controller<K>,
    network: Network,
}

impl<K: SimRounds> Model for Rehearsal<K> {
    ghost use Rattle.std.specs.Prelude.{◌≡◌, true};
    ghost use Rattle.sim_run.specs.Rehearsing.{Keeps, Rehearsing, rehearsing_of};

    ghost Value = { Rehearsing };

    ghost view = { λ r. rehearsing_of r.controller r.network };

    ghost invariant = { λ r. r.controller.live ≡ true
        → Keeps (rehearsing_of r.controller r.network) };
}

impl<K: SimRounds> Rehearsal<K> {
    /// Of a plan of which nothing is settled.
    pub(crate) fn new(alloc: Global, plan: CheckedPlan) -> Result<Rehearsal<K>, Memory>
        ensures { IfOk result
            (λ r. r
            ≡ record {
              rollout = plan;
              state = first_rehearsal plan.problem plan.plan;
              live = true;
            }) }
    {
        match first_network(alloc, &plan) {
            Ok(network) => first_over(alloc, plan, network),
            Err(refused) => {
                drop(plan);
                Err(refused)
            }
        }
    }

    /// Whether an act can happen.
    pub(crate) fn can_happen(&self, act: Act) -> bool
        requires { IsTrue self.now.live }
        ensures { result ≡ can_happen self.now.rollout.problem self.now.state act }
    {
        match act {
            Act::Round | Act::CrashLost | Act::CrashKept | Act::Stop => self.is_up(),
            Act::Send(place) => {
                self.is_up() && (place as usize) < self.flying_count() && self.may_send(1)
            }
            Act::Deliver(place) => (place as usize) < self.network.sent_count(),
            Act::Hand(place) => self.is_up() && (place as usize) < self.given_count(),
            Act::All => self.is_up() && self.may_send(self.flying_count()),
            Act::Start => !self.is_up(),
        }
    }

    /// Whether the controller is up.
    pub(crate) fn is_up(&self) -> bool
        ensures { result ≡ self.now.state.world.up }
    {
        self.controller.is_up()
    }

    /// The graph of the rollout, which has followed its durable history.
    pub(crate) fn graph(&self) -> &Graph
        requires { IsTrue self.now.live }
        ensures value { result.now
            ≡ record { rollout = self.now.rollout; history = self.now.state.world.durable } }
        ensures legal { IsTrue (is_legal self.now.rollout.problem self.now.rollout.plan
            self.now.state.world.durable) }
    {
        self.controller.graph()
    }

    /// Gives back what keeps the rollout.
    pub(crate) fn into_rounds(self) -> K
        ensures { (K.keeping result).graph.rollout ≡ self.rollout }
    {
        let Rehearsal {
            controller,
            network,
        } = self;
        drop(network);
        controller.into_rounds()
    }

    /// How many commands were sent.
    pub(crate) fn sent_count(&self) -> usize
        ensures { result ≡ length self.now.state.world.sent }
    {
        self.network.sent_count()
    }

    /// How many operations are in flight.
    pub(crate) fn flying_count(&self) -> usize
        requires { IsTrue self.now.live }
        ensures count { result
            ≡ length (in_flight self.now.rollout.problem self.now.state.world.durable) }
        ensures few { result < 4294967296 }
    {
        checked_plan_is_valid(self.graph().plan());
        self.controller.flying().len()
    }

    /// One of them, by its place.
    fn flying(&self, place: usize) -> Op
        requires live { IsTrue self.now.live }
        requires place { place
            < length (in_flight self.now.rollout.problem self.now.state.world.durable) }
        ensures op { result
            ≡ slice_index_or (in_flight self.now.rollout.problem self.now.state.world.durable) place
            no_op }
        ensures item { result.item < item_count self.now.rollout.problem }
    {
        let flying = self.controller.flying();
        flying[place]
    }

    /// How many answers were given.
    pub(crate) fn given_count(&self) -> usize
        ensures { result ≡ length self.now.state.world.given }
    {
        self.network.given_count()
    }

    fn may_send(&self, more: usize) -> bool
        ensures { result ≡ may_send self.now.state.world more }
    {
        is_within_sent(self.network.sent_count(), more)
    }

    /// Does an act that can happen, and answers what its line says. An act that can't happen is passed
    /// over. After lack of memory the rehearsal is given up.
    pub(crate) fn act(&mut self, policy: &Policy, act: Act) -> Result<ActLine, Memory>
        requires { IsTrue self.old.live }
        ensures state { OnOk result
            (self.new
            ≡ record self.old {
              state = after_act self.old.rollout.problem self.old.rollout.plan
                  (rank_by policy.now.answers) self.old.state act;
            }) }
        ensures line { IfOk result
            (λ line. line
            ≡ line_of self.old.rollout.problem self.old.rollout.plan (rank_by policy.now.answers)
            self.old.state act) }
    {
        if self.can_happen(act) {
            self.act_out(policy, act)
        } else {
            Ok(ActLine::Skipped)
        }
    }

    /// Does an act that can happen, and answers what its line says.
    pub(crate) fn act_out(&mut self, policy: &Policy, act: Act) -> Result<ActLine, Memory>
        requires live { IsTrue self.old.live }
        requires happens { IsTrue (can_happen self.old.rollout.problem self.old.state act) }
        ensures state { OnOk result
            (self.new
            ≡ record self.old {
              state = acted self.old.rollout.problem self.old.rollout.plan
                  (rank_by policy.now.answers) self.old.state act;
            }) }
        ensures line { IfOk result
            (λ line. line
            ≡ line_acting self.old.rollout.problem self.old.rollout.plan
            (rank_by policy.now.answers) self.old.state act) }
    {
        match act {
            Act::Round => {
                let Turn { dones, begins } = self.round(policy)?;
                Ok(ActLine::Round { dones, begins })
            }
            Act::Send(place) => {
                let op = self.send(place as usize)?;
                Ok(ActLine::Sent { place, op })
            }
            Act::Deliver(place) => {
                let answer = self.deliver(place as usize)?;
                Ok(ActLine::Delivered { place, answer })
            }
            Act::Hand(place) => {
                let answer = self.hand(place as usize)?;
                Ok(ActLine::Handed { place, answer })
            }
            Act::All => {
                let count = self.exchange_all()?;
                Ok(ActLine::All { count })
            }
            Act::CrashLost => {
                self.stop();
                Ok(ActLine::CrashLost)
            }
            Act::CrashKept => {
                self.crash_kept(policy)?;
                Ok(ActLine::CrashKept)
            }
            Act::Stop => {
                self.stop();
                Ok(ActLine::Stop)
            }
            Act::Start => {
                let entries = self.start()?;
                Ok(ActLine::Start { entries })
            }
        }
    }

    /// A round hears what was handed over since the last one, and its batch is durable. Answers how many of
    /// its entries are Done, and how many are Begin.
    fn round(&mut self, policy: &Policy) -> Result<Turn, Memory>
        requires live { IsTrue self.old.live }
        requires up { IsTrue self.old.state.world.up }
        ensures state { OnOk result
            (self.new
            ≡ record self.old {
              state = acted self.old.rollout.problem self.old.rollout.plan
                  (rank_by policy.now.answers) self.old.state act.Round;
            }) }
        ensures turn { IfOk result
            (λ turn. turn
            ≡ turn_of (round_batch self.old.rollout.problem self.old.rollout.plan
            (rank_by policy.now.answers) self.old.state)) }
    {
        let turn = self.controller.round(policy)?;
        Ok(turn)
    }

    /// Sends the command of an operation in flight, and answers the operation.
    fn send(&mut self, place: usize) -> Result<Op, Memory>
        requires live { IsTrue self.old.live }
        requires up { IsTrue self.old.state.world.up }
        requires flying { place
            < length (in_flight self.old.rollout.problem self.old.state.world.durable) }
        ensures state { OnOk result (self.new ≡ moved self.old (event.Send place ∷ [])) }
        ensures op { IfOk result
            (λ op. op
            ≡ slice_index_or (in_flight self.old.rollout.problem self.old.state.world.durable) place
            no_op) }
    {
        let op = self.flying(place);
        self.network.send(op)?;
        Ok(op)
    }

    /// Brings a command sent to its switch, and answers what the switch answers.
    fn deliver(&mut self, place: usize) -> Result<Given, Memory>
        requires { place < length self.old.state.world.sent }
        ensures state { OnOk result (self.new ≡ moved self.old (event.Deliver place ∷ [])) }
        ensures answer { IfOk result (λ answer. answer ≡ newest_given (self.new.state.world)) }
    {
        let answer = self.network.deliver(place)?;
        Ok(with_pair(answer))
    }

    /// Hands an answer over to the controller, and answers it.
    fn hand(&mut self, place: usize) -> Result<Given, Memory>
        requires up { IsTrue self.old.state.world.up }
        requires given { place < length self.old.state.world.given }
        ensures state { OnOk result (self.new ≡ moved self.old (event.Hand place ∷ [])) }
        ensures answer { IfOk result
            (λ answer. answer ≡ slice_index_or self.old.state.world.given place no_answer) }
    {
        let answer = self.network.answer(place);
        self.controller.hear(answer)?;
        Ok(with_pair(answer))
    }

    /// Every operation in flight is sent, delivered once, and its answer handed over. Answers how many.
    fn exchange_all(&mut self) -> Result<usize, Memory>
        requires live { IsTrue self.old.live }
        requires up { IsTrue self.old.state.world.up }
        ensures state { OnOk result
            (self.new
            ≡ moved self.old
            (exchanges self.old.state.world
            (length (in_flight self.old.rollout.problem self.old.state.world.durable)))) }
        ensures count { IfOk result
            (λ count. count
            ≡ length (in_flight self.old.rollout.problem self.old.state.world.durable)) }
    {
        let count = self.controller.flying().len();
        for place in 0..count {
            self.exchange(place)?;
        }
        Ok(count)
    }

    fn exchange(&mut self, place: usize) -> Result<(), Memory>
        requires live { IsTrue self.old.live }
        requires up { IsTrue self.old.state.world.up }
        requires flying { place
            < length (in_flight self.old.rollout.problem self.old.state.world.durable) }
        ensures { OnOk result
            (self.new
            ≡ moved self.old
            (event.Send place
            ∷ event.Deliver (length self.old.state.world.sent)
            ∷ event.Hand (length self.old.state.world.given)
            ∷ [])) }
    {
        let op = self.flying(place);
        let command = self.network.sent_count();
        self.network.send(op)?;
        let answer = self.network.deliver(command)?;
        self.controller.hear(answer)
    }

    /// The controller stops, maybe inside a round whose batch is lost.
    fn stop(&mut self)
        requires { IsTrue self.old.state.world.up }
        ensures stop { (policy : OpView → ℕ)
            → self.new
            ≡ record self.old {
              state = acted self.old.rollout.problem self.old.rollout.plan policy self.old.state
                  act.Stop;
            } }
        ensures lost { (policy : OpView → ℕ)
            → self.new
            ≡ record self.old {
              state = acted self.old.rollout.problem self.old.rollout.plan policy self.old.state
                  act.CrashLost;
            } }
    {
        self.controller.stop();
    }

    /// The controller stops inside a round whose batch is durable.
    fn crash_kept(&mut self, policy: &Policy) -> Result<(), Memory>
        requires live { IsTrue self.old.live }
        requires up { IsTrue self.old.state.world.up }
        ensures { OnOk result
            (self.new
            ≡ record self.old {
              state = acted self.old.rollout.problem self.old.rollout.plan
                  (rank_by policy.now.answers) self.old.state act.CrashKept;
            }) }
    {
        let _ = self.controller.round(policy)?;
        self.controller.stop();
        Ok(())
    }

    /// The controller starts over what a crash left. Answers how many entries it finds there.
    fn start(&mut self) -> Result<usize, Memory>
        requires live { IsTrue self.old.live }
        requires down { IsFalse self.old.state.world.up }
        ensures state { OnOk result (self.new ≡ moved self.old (event.Restart ∷ [])) }
        ensures entries { IfOk result
            (λ entries. entries ≡ length self.old.state.world.durable.entries) }
    {
        let entries = self.controller.start()?;
        Ok(entries)
    }

    /// Adds the lines after those of the acts.
    pub(crate) fn push_end(&self, alloc: Global, text: &mut Text) -> Result<(), Memory>
        requires { IsTrue self.now.live }
        ensures { OnOk result
            (text.new
            ≡ text.old
            ++ end_lines self.now.rollout.problem self.now.rollout.plan
            self.now.state.world.durable) }
    {
        let plan = self.graph().plan();
        push_lines(alloc, plan, self.controller.entries(), text)
    }

    /// Adds what is told after a trial.
    pub(crate) fn push_outcome(&self, alloc: Global, text: &mut Text) -> Result<(), Memory>
        requires { IsTrue self.now.live }
        ensures { OnOk result
            (text.new
            ≡ text.old
            ++ outcome_lines self.now.rollout.problem self.now.rollout.plan
            self.now.state.world.durable) }
    {
        push_outcome_of(alloc, self.graph(), self.controller.entries(), text)
    }
}

/// The network of a plan, on which nothing has passed.
fn first_network(alloc: Global, plan: &CheckedPlan) -> Result<Network, Memory>
    ensures { IfOk result
        (λ n. n
        ≡ record {
          sent = [];
          given = [];
          applied = replicate (item_count plan.now.problem) 0;
        }) }
{
    Network::new(alloc, item_count(plan.problem()))
}

/// A first rehearsal over a network.
fn first_over<K: SimRounds>(
    alloc: Global,
    plan: CheckedPlan,
    network: Network,
) -> Result<Rehearsal<K>, Memory>
    requires { network
        ≡ record {
          sent = [];
          given = [];
          applied = replicate (item_count plan.problem) 0;
        } }
    ensures { IfOk result
        (λ r. r
        ≡ record {
          rollout = plan;
          state = first_rehearsal plan.problem plan.plan;
          live = true;
        }) }
{
    checked_plan_is_valid(&plan);
    let controller = Controller::<K>::new(alloc, plan)?;
    Ok(Rehearsal {
        controller,
        network,
    })
}

/// Adds what is told after the rollout of a graph, of which nothing was settled before these entries.
fn push_outcome_of(
    alloc: Global,
    graph: &Graph,
    entries: &[Entry],
    text: &mut Text,
) -> Result<(), Memory>
    requires legal { IsTrue (is_legal graph.now.rollout.problem graph.now.rollout.plan
        graph.now.history) }
    requires entries { from_nothing graph.now.rollout.problem entries.now ≡ graph.now.history }
    ensures { OnOk result
        (text.new
        ≡ text.old
        ++ outcome_lines graph.now.rollout.problem graph.now.rollout.plan graph.now.history) }
{
    let start = no_start(alloc, graph.plan())?;
    let history = History::new(start.as_slice(), entries);
    push_outcome(alloc, graph, &history, text)
}

/// Adds the lines after those of the acts, of a rollout of which nothing was settled before these entries.
fn push_lines(
    alloc: Global,
    plan: &CheckedPlan,
    entries: &[Entry],
    text: &mut Text,
) -> Result<(), Memory>
    ensures { OnOk result
        (text.new
        ≡ text.old
        ++ end_lines plan.now.problem plan.now.plan (from_nothing plan.now.problem entries.now)) }
{
    let start = no_start(alloc, plan)?;
    let history = History::new(start.as_slice(), entries);
    push_end(alloc, plan, &history, text)?;
    Ok(())
}

/// The start at which nothing is settled.
fn no_start(alloc: Global, plan: &CheckedPlan) -> Result<Vec<u32>, Memory>
    ensures { IfOk result (λ start. start.items ≡ history.no_start plan.now.problem) }
{
    let items = item_count(plan.problem()) as usize;
    let start = vec![in alloc; 0u32; items]?;
    Ok(start)
}

/// An answer with its pair: a rehearsal is of the network's first migration.
fn with_pair(answer: Op) -> Given
    ensures { result ≡ given_of answer }
{
    let Op { item, number } = answer;
    Given {
        item,
        held: Held {
            migration: 0,
            number,
        },
    }
}

/// Whether a script that has sent so many commands may send so many more.
pub(crate) fn is_within_sent(sent: usize, more: usize) -> bool
    ensures { result ≡ nat_le (sent + more) MOST_SENT }
{
    sent <= MOST_SENT && more <= MOST_SENT - sent
}
