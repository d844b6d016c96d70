ghost use Rattle.std.specs.Prelude.{◌≡◌, ◌<◌, true, false, length, All, IfOk, IsTrue, OnErr, OnOk};
ghost use Rattle.rollout_rules.specs.History.{from_nothing};
ghost use Rattle.rollout_rules.specs.Items.{item_count};
ghost use Rattle.rollout_rules.specs.Legal.{is_legal};
ghost use Rattle.rollout_rules.specs.World.{in_flight};
ghost use Rattle.order_policy.specs.Answers.{rank_by};
ghost use Rattle.rollout_book.specs.JournaledRounds.{turn_of};
ghost use Rattle.sim_run.specs.Controlling.{after_round, batch_of, first_controlling, with_answer, with_nothing};
ghost use Rattle.sim_run.specs.Keeping.{MayTell};

use crate::earlier::{Earlier, hear_all};
use crate::sim_rounds::SimRounds;
use dependency_graph::Graph;
use lists::Memory;
use order_policy::Policy;
use rollout_book::Turn;
use rollout_rules::{Entry, Op};
use std::alloc::Global;
use std::marker::Model;
use wan_model::CheckedPlan;
use wire_frames::Answer;

/// The controller of a rehearsal: what keeps its rollout, the answers handed over to it, and whether it is
/// up. While it is down its rounds do nothing. It lives until a round or a start finds no memory, and is then
/// given up.
#[derive(Drop)]
pub(crate) struct Controller<K: SimRounds> {
    rounds: K,
    earlier: Earlier,
    // Those handed over since the last round.
    answers: Vec<Answer>,
    is_up: bool,
}

impl<K: SimRounds> Model for Controller<K> {
    ghost use Rattle.sim_run.specs.Controlling.{Controlling, controlling_of};
    ghost use Rattle.sim_run.specs.Earlier.{answers_in};

    ghost Value = { Controlling };

    ghost view = { λ c. controlling_of (K.keeping c.rounds) (answers_in c.earlier) c.answers.items
        c.is_up };
}

impl<K: SimRounds> Controller<K> {
    /// Up, of a plan of which nothing is settled.
    pub(crate) fn new(alloc: Global, plan: CheckedPlan) -> Result<Controller<K>, Memory>
        ensures { IfOk result (λ c. c ≡ first_controlling plan) }
    {
        let rounds = K::first(alloc, plan)?;
        Ok(Controller {
            rounds,
            earlier: Earlier::Nothing,
            answers: Vec::new(alloc),
            is_up: true,
        })
    }

    pub(crate) fn is_up(&self) -> bool
        ensures { result ≡ self.now.up }
    {
        self.is_up
    }

    /// The graph of the rollout, which has followed its durable history.
    pub(crate) fn graph(&self) -> &Graph
        requires { IsTrue self.now.live }
        ensures value { result.now
            ≡ record { rollout = self.now.rollout; history = self.now.history } }
        ensures legal { IsTrue (is_legal self.now.rollout.problem self.now.rollout.plan
            self.now.history) }
    {
        self.rounds.graph()
    }

    /// Gives back what keeps the rollout.
    pub(crate) fn into_rounds(self) -> K
        ensures { (K.keeping result).graph.rollout ≡ self.rollout }
    {
        let Controller {
            rounds,
            earlier,
            answers,
            is_up: _,
        } = self;
        drop(earlier);
        drop(answers);
        rounds
    }

    /// The operations in flight, by item.
    pub(crate) fn flying(&self) -> &[Op]
        requires { IsTrue self.now.live }
        ensures value { result.now ≡ in_flight self.now.rollout.problem self.now.history }
        ensures items { All (λ op. op.item < item_count self.now.rollout.problem) result.now }
    {
        self.rounds.flying()
    }

    /// The durable entries.
    pub(crate) fn entries(&self) -> &[Entry]
        requires { IsTrue self.now.live }
        ensures { from_nothing self.now.rollout.problem result.now ≡ self.now.history }
    {
        self.rounds.entries()
    }

    /// Hears an answer. Lack of memory changes nothing.
    pub(crate) fn hear(&mut self, answer: Op) -> Result<(), Memory>
        ensures ok { OnOk result (self.new ≡ with_answer self.old answer) }
        ensures err { OnErr result (self.new ≡ self.old) }
    {
        let Op { item, number } = answer;
        self.answers.push(Answer { item, held: number })?;
        Ok(())
    }

    /// Makes a round of what was heard, and tells how many entries of the batch are Done and Begin. Without
    /// memory it is given up.
    pub(crate) fn round(&mut self, policy: &Policy) -> Result<Turn, Memory>
        requires live { IsTrue self.old.live }
        requires told { All (MayTell (record {
          rollout = self.old.rollout;
          history = self.old.history;
        })) self.old.heard }
        ensures state { OnOk result (self.new ≡ after_round self.old (rank_by policy.now.answers)) }
        ensures turn { IfOk result
            (λ turn. turn ≡ turn_of (batch_of self.old (rank_by policy.now.answers))) }
        ensures given_up { OnErr result (self.new.live ≡ false) }
    {
        let turn = self.rounds.round(policy, self.answers.as_slice())?;
        hear_all(&mut self.earlier, &mut self.answers);
        Ok(turn)
    }

    /// Stops, and forgets what was handed over.
    pub(crate) fn stop(&mut self)
        ensures { self.new ≡ with_nothing self.old }
    {
        self.earlier = Earlier::Nothing;
        self.answers.clear();
        self.is_up = false;
    }

    /// Starts over what a crash left, and tells how many entries were found there. Without memory it is given
    /// up.
    pub(crate) fn start(&mut self) -> Result<usize, Memory>
        requires { IsTrue self.old.live }
        ensures state { OnOk result (self.new ≡ record self.old { up = true }) }
        ensures found { IfOk result (λ found. found ≡ length self.old.history.entries) }
        ensures given_up { OnErr result (self.new.live ≡ false) }
    {
        let found = self.rounds.start()?;
        self.is_up = true;
        Ok(found)
    }
}
