ghost use Rattle.std.specs.Prelude.{◌≡◌, ◌<◌, [], ◌∷◌, ◌++◌, length, replicate, slice_index_or, IfOk, OnOk, OnErr};
ghost use Rattle.rollout_rules.specs.Agent.{pair_of};
ghost use Rattle.rollout_rules.specs.World.{no_op};
ghost use Rattle.sim_run.specs.Passing.{answer_to, with_delivered};
ghost use Rattle.sim_run.specs.Passing as passing;

use lists::Memory;
use rollout_core::pair_after;
use rollout_rules::{Held, Op, OpList};
use std::alloc::Global;
use std::marker::Model;

/// The commands sent, the answers given, and how many operations of each item its switch has applied. All
/// are of one migration.
#[derive(Drop)]
pub(crate) struct Network {
    sent: OpList,
    given: OpList,
    applied: Vec<u32>,
}

impl Model for Network {
    ghost use Rattle.sim_run.specs.Passing.{Passing};
    ghost use Rattle.sim_run.specs.Rehearsing.{IsPassing};

    ghost Value = { Passing };

    ghost view = { λ n. record { sent = n.sent; given = n.given; applied = n.applied.items } };

    ghost invariant = { λ n. IsPassing (record {
      sent = n.sent;
      given = n.given;
      applied = n.applied.items;
    }) };
}

impl Network {
    /// Nothing was sent, and the switches have applied nothing of so many items.
    pub(crate) fn new(alloc: Global, items: u32) -> Result<Network, Memory>
        ensures { IfOk result
            (λ n. n ≡ record { sent = []; given = []; applied = replicate items 0 }) }
    {
        Ok(Network {
            sent: OpList::new(alloc),
            given: OpList::new(alloc),
            applied: vec![in alloc; 0u32; items as usize]?,
        })
    }

    pub(crate) fn sent_count(&self) -> usize
        ensures { result ≡ length self.now.sent }
    {
        self.sent.as_slice().len()
    }

    pub(crate) fn given_count(&self) -> usize
        ensures { result ≡ length self.now.given }
    {
        self.given.as_slice().len()
    }

    /// Sends the command of an operation. Lack of memory changes nothing.
    pub(crate) fn send(&mut self, op: Op) -> Result<(), Memory>
        requires { op.item < length self.old.applied }
        ensures ok { OnOk result (self.new ≡ record self.old { sent = self.old.sent ++ op ∷ [] }) }
        ensures err { OnErr result (self.new ≡ self.old) }
    {
        self.sent.push(op)?;
        Ok(())
    }

    /// Brings a command sent to its switch, and gives what the switch answers: the item, and how many of
    /// its operations it has applied. Lack of memory changes nothing.
    pub(crate) fn deliver(&mut self, place: usize) -> Result<Op, Memory>
        requires { place < length self.old.sent }
        ensures ok { OnOk result
            (self.new ≡ with_delivered self.old (slice_index_or self.old.sent place no_op)) }
        ensures answer { IfOk result
            (λ answer. answer ≡ answer_to self.old (slice_index_or self.old.sent place no_op)) }
        ensures item { IfOk result (λ answer. answer.item < length self.old.applied) }
        ensures err { OnErr result (self.new ≡ self.old) }
    {
        let Op { item, number } = self.sent.as_slice()[place];
        let number = applied_after(self.applied[item as usize], number);
        let answer = Op { item, number };
        self.given.push(answer)?;
        self.applied[item as usize] = number;
        Ok(answer)
    }

    /// An answer given, by its number.
    pub(crate) fn answer(&self, place: usize) -> Op
        requires { place < length self.now.given }
        ensures answer { result ≡ slice_index_or self.now.given place no_op }
        ensures item { result.item < length self.now.applied }
    {
        let given = self.given.as_slice();
        given[place]
    }
}

/// How many operations a switch has applied after a command: it applies the next one alone, by the agent rule
/// within one migration.
fn applied_after(applied: u32, asked: u32) -> u32
    ensures { result ≡ passing.applied_after applied asked }
{
    let held = pair_after(first_held(applied), first_held(asked));
    held.number
}

/// The pair of a number in the first migration, of which a rehearsal is.
fn first_held(number: u32) -> Held
    ensures { result ≡ pair_of 0 number }
{
    Held {
        migration: 0,
        number,
    }
}
