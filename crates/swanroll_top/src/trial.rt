//! The command `trial`, which reads nothing.

ghost use Rattle.std.specs.Prelude.{◌≡◌, ◌≢◌};
ghost use Rattle.order_policy.specs.Answers.{rank_by};
ghost use Rattle.wan_edge.specs.Streams.{Rose};
ghost use Rattle.text_commands.specs.Runs.{Follows, Gives};
ghost use Rattle.text_commands.specs.declared.unfinished.Unfinished.{Unfinished};
ghost use Rattle.swanroll_top.specs.Tries.{IsShape, tried};

use case_gen::{Draws, make_case};
use lists::Text;
use order_policy::Policy;
use sim_run::{Shape, run_trial};
use std::alloc::Global;
use text_commands::{CommandEnd, by_slack, write_text};
use wan_edge::Sink;

/// Makes the case of these numbers, chooses a plan for it, and writes the text of its trial under a policy.
pub fn trial<K: Sink>(alloc: Global, shape: &Shape, policy: &Policy, sink: &mut K) -> CommandEnd
    requires { IsShape shape.now }
    ensures follows { Follows (tried (rank_by policy.now.answers) shape.now) result
        (K.told sink.old).written (K.told sink.new).written }
    ensures write_fault { result ≡ CommandEnd.WriteFault
        → Rose (K.told sink.old).faults (K.told sink.new).faults }
    ensures no_rollout { (u : Unfinished) → result ≢ CommandEnd.NotFinished u }
    ensures others { (result ≢ CommandEnd.Usage)
        × (result ≢ CommandEnd.ReadFault)
        × (result ≢ CommandEnd.DiskFault)
        × (result ≢ CommandEnd.GuestFault) }
{
    match text_of(alloc, shape, policy) {
        Ok(text) => write_text(sink, text.as_str()),
        Err(ending) => ending,
    }
}

fn text_of(alloc: Global, shape: &Shape, policy: &Policy) -> Result<Text, CommandEnd>
    requires { IsShape shape.now }
    ensures { Gives result (tried (rank_by policy.now.answers) shape.now) }
{
    let mut draws = Draws::new(shape.seed);
    let problem = make_case(alloc, shape.k, shape.switches, shape.flows, &mut draws)?;
    let chosen = by_slack(alloc, problem)?;
    Ok(run_trial(
        alloc,
        chosen.plan,
        chosen.rate_steps,
        policy,
        shape,
        &mut draws,
    )?)
}
