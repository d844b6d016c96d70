ghost use Rattle.std.specs.Prelude.{◌≡◌, ◌++◌, IfOk, IsTrue, OnOk};
ghost use Rattle.order_policy.specs.Answers.{rank_by};
ghost use Rattle.sim_run.specs.Acts.{after_acts};
ghost use Rattle.sim_run.specs.Rehearsed.{IsSafeRehearsal};
ghost use Rattle.sim_run.specs.Rehearsing.{first_of, text_from};
ghost use Rattle.sim_run.specs.Script.{act_lines, script_text};

use crate::acts::Rehearsal;
use crate::booked::Booked;
use crate::lines::push_act_line;
use lists::{Memory, Text};
use order_policy::Policy;
use rollout_rules::{Act, Script};
use std::alloc::Global;
use wan_model::CheckedPlan;

/// Rehearses a script over a plan under a policy, and gives its text: a line for each act, the peak of each
/// link in units of 1/scale and of each table in the widths of its entries, and whether every operation is
/// settled. Whatever the script and the policy, every world on the way is safe. An Err is lack of memory.
pub fn run_script(
    alloc: Global,
    plan: CheckedPlan,
    policy: &Policy,
    script: &Script,
) -> Result<Text, Memory>
    ensures text { IfOk result
        (λ text. text
        ≡ script_text plan.problem plan.plan (rank_by policy.now.answers) script.now) }
    ensures safe { IfOk result
        (λ text. IsSafeRehearsal plan.problem plan.plan (rank_by policy.now.answers) script.now) }
{
    rehearsal_is_safe(&plan, policy, script);
    let text = rehearse(alloc, plan, policy, script.as_slice())?;
    Ok(text)
}

/// The text of a rehearsal.
fn rehearse(
    alloc: Global,
    plan: CheckedPlan,
    policy: &Policy,
    script: &[Act],
) -> Result<Text, Memory>
    ensures { IfOk result
        (λ text. text ≡ text_from (first_of plan) (rank_by policy.now.answers) script.now) }
{
    match Rehearsal::<Booked>::new(alloc, plan) {
        Ok(rehearsal) => of_rehearsal(alloc, rehearsal, policy, script),
        Err(error) => Err(error),
    }
}

/// The text of acts from a rehearsal on, which ends with it.
fn of_rehearsal(
    alloc: Global,
    mut rehearsal: Rehearsal<Booked>,
    policy: &Policy,
    script: &[Act],
) -> Result<Text, Memory>
    requires { IsTrue rehearsal.live }
    ensures { IfOk result
        (λ text. text ≡ text_from rehearsal (rank_by policy.now.answers) script.now) }
{
    let text = text_of(alloc, &mut rehearsal, policy, script);
    drop(rehearsal);
    text
}

// Most lines of an act have fewer bytes.
const LINE: usize = 32;

/// What is written of a row of acts, and then of their end.
fn text_of(
    alloc: Global,
    rehearsal: &mut Rehearsal<Booked>,
    policy: &Policy,
    script: &[Act],
) -> Result<Text, Memory>
    requires { IsTrue rehearsal.old.live }
    ensures { IfOk result
        (λ text. text ≡ text_from rehearsal.old (rank_by policy.now.answers) script.now) }
{
    let mut text = Text::with_capacity(alloc, script.len().saturating_mul(LINE))?;
    push_acts(rehearsal, policy, script, &mut text)?;
    rehearsal.push_end(alloc, &mut text)?;
    Ok(text)
}

/// What the plan's type keeps makes each of its rehearsals safe.
fn rehearsal_is_safe(plan: &CheckedPlan, policy: &Policy, script: &Script)
    ensures { IsSafeRehearsal plan.now.problem plan.now.plan (rank_by policy.now.answers)
        script.now }
{
    let _ = plan.problem().links();
    let _ = plan.plan();
}

fn push_acts(
    rehearsal: &mut Rehearsal<Booked>,
    policy: &Policy,
    script: &[Act],
    text: &mut Text,
) -> Result<(), Memory>
    requires { IsTrue rehearsal.old.live }
    ensures state { OnOk result
        (rehearsal.new
        ≡ record rehearsal.old {
          state = after_acts rehearsal.old.rollout.problem rehearsal.old.rollout.plan
              (rank_by policy.now.answers) rehearsal.old.state script.now;
        }) }
    ensures text { OnOk result
        (text.new
        ≡ text.old
        ++ act_lines rehearsal.old.rollout.problem rehearsal.old.rollout.plan
        (rank_by policy.now.answers) 0 rehearsal.old.state script.now) }
{
    for (number, act) in script.iter().enumerate() {
        let line = rehearsal.act(policy, *act)?;
        push_act_line(text, number, &line)?;
    }
    Ok(())
}
