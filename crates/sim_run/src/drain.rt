//! How a trial ends: what is left of the rollout is brought to its end.
ghost use Rattle.std.specs.Prelude.{◌≡◌, ◌+◌, IfOk, IsTrue, OnOk};
ghost use Rattle.order_policy.specs.Answers.{rank_by};
ghost use Rattle.sim_run.specs.Trials.{after_turn, all_operations, drained, is_finished, raised, turns};

use crate::acts::Rehearsal;
use crate::plain::Plain;
use lists::Memory;
use order_policy::Policy;
use rollout_rules::Act;

/// Starts the controller where it is down, and makes turns until every operation is settled, or as many as
/// there are operations and one. Answers how many.
pub(crate) fn drain(rehearsal: &mut Rehearsal<Plain>, policy: &Policy) -> Result<u64, Memory>
    requires { IsTrue rehearsal.old.live }
    ensures state { OnOk result
        (rehearsal.new
        ≡ record rehearsal.old {
          state = drained rehearsal.old.rollout.problem rehearsal.old.rollout.plan
              (rank_by policy.now.answers)
              (all_operations rehearsal.old.rollout.problem rehearsal.old.rollout.plan + 1)
              (raised rehearsal.old.rollout.problem rehearsal.old.rollout.plan
              (rank_by policy.now.answers) rehearsal.old.state);
        }) }
    ensures turns { IfOk result
        (λ made. made
        ≡ turns rehearsal.old.rollout.problem rehearsal.old.rollout.plan
        (rank_by policy.now.answers)
        (all_operations rehearsal.old.rollout.problem rehearsal.old.rollout.plan + 1)
        (raised rehearsal.old.rollout.problem rehearsal.old.rollout.plan
        (rank_by policy.now.answers) rehearsal.old.state)) }
{
    raise(rehearsal, policy)?;
    let operations = rehearsal.graph().op_total();
    make_turns(rehearsal, policy, u64::from(operations) + 1)
}

fn raise(rehearsal: &mut Rehearsal<Plain>, policy: &Policy) -> Result<(), Memory>
    requires { IsTrue rehearsal.old.live }
    ensures { OnOk result
        (rehearsal.new
        ≡ record rehearsal.old {
          state = raised rehearsal.old.rollout.problem rehearsal.old.rollout.plan
              (rank_by policy.now.answers) rehearsal.old.state;
        }) }
{
    if !rehearsal.is_up() {
        rehearsal.act(policy, Act::Start)?;
    }
    Ok(())
}

/// Makes turns until every operation is settled, and at most so many. Answers how many.
fn make_turns(rehearsal: &mut Rehearsal<Plain>, policy: &Policy, most: u64) -> Result<u64, Memory>
    requires { IsTrue rehearsal.old.live }
    ensures state { OnOk result
        (rehearsal.new
        ≡ record rehearsal.old {
          state = drained rehearsal.old.rollout.problem rehearsal.old.rollout.plan
              (rank_by policy.now.answers) most rehearsal.old.state;
        }) }
    ensures turns { IfOk result
        (λ made. made
        ≡ turns rehearsal.old.rollout.problem rehearsal.old.rollout.plan
        (rank_by policy.now.answers) most rehearsal.old.state) }
{
    for made in 0..most {
        if is_finished(rehearsal) {
            return Ok(made);
        }
        turn(rehearsal, policy)?;
    }
    Ok(most)
}

/// What is in flight is exchanged, and then a round is made.
fn turn(rehearsal: &mut Rehearsal<Plain>, policy: &Policy) -> Result<(), Memory>
    requires { IsTrue rehearsal.old.live }
    ensures { OnOk result
        (rehearsal.new
        ≡ record rehearsal.old {
          state = after_turn rehearsal.old.rollout.problem rehearsal.old.rollout.plan
              (rank_by policy.now.answers) rehearsal.old.state;
        }) }
{
    rehearsal.act(policy, Act::All)?;
    rehearsal.act(policy, Act::Round)?;
    Ok(())
}

/// Whether every operation is settled. Time: the items.
pub(crate) fn is_finished(rehearsal: &Rehearsal<Plain>) -> bool
    requires { IsTrue rehearsal.now.live }
    ensures { result
        ≡ is_finished rehearsal.now.rollout.problem rehearsal.now.rollout.plan rehearsal.now.state }
{
    rehearsal.graph().finished()
}
