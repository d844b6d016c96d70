ghost use Rattle.std.specs.Prelude.{◌≡◌, ◌<◌, length};
ghost use Rattle.wan_model.specs.declared.side.Side.TheVariants.{Old, New};
ghost use Rattle.plan_check.specs.LeastSlack.{AreLoads, load_on};
ghost use Rattle.plan_check.specs.SplitLoads.{AreSplitLoads};
ghost use Rattle.scratch_plan.specs.Lacks as spec;
ghost use Rattle.scratch_plan.specs.declared.links.Rule.TheVariants as rule;

use crate::no_plan::NoPlan;
use plan_check::SplitLoads;
use wan_model::{Problem, Side};

/// What is asked of the load of a link.
#[derive(Clone, Copy, Debug, PartialEq, Eq)]
pub(crate) enum Rule {
    /// It fits.
    Capacity,
    /// It leaves 1/64 of the capacity free.
    Slack,
}

/// The first link, by number and the old load before the new one, whose load isn't as is asked.
pub(crate) fn first_lack(problem: &Problem, rule: Rule, loads: &SplitLoads) -> Option<NoPlan>
    requires { AreSplitLoads problem.now loads.now }
    ensures { result ≡ spec.first_lack rule problem.now }
{
    first_over(problem, rule, loads.old.as_slice(), loads.new.as_slice())
}

fn first_over(problem: &Problem, rule: Rule, old: &[u64], new: &[u64]) -> Option<NoPlan>
    requires old { AreLoads Old problem.now old.now }
    requires new { AreLoads New problem.now new.now }
    ensures { result ≡ spec.first_lack rule problem.now }
{
    for l in 0..problem.links().len() {
        if let Some(cause) = lack_at(problem, rule, l as u32, old[l], new[l]) {
            return Some(cause);
        }
    }
    None
}

fn lack_at(problem: &Problem, rule: Rule, l: u32, old: u64, new: u64) -> Option<NoPlan>
    requires link { l < length problem.now.links }
    requires old { old ≡ load_on Old problem.now l }
    requires new { new ≡ load_on New problem.now l }
    ensures { result ≡ spec.lack_at rule problem.now l }
{
    if let Some(cause) = lack_on(problem, rule, l, Side::Old, old) {
        return Some(cause);
    }
    lack_on(problem, rule, l, Side::New, new)
}

fn lack_on(problem: &Problem, rule: Rule, l: u32, side: Side, load: u64) -> Option<NoPlan>
    requires link { l < length problem.now.links }
    requires load { load ≡ load_on side problem.now l }
    ensures { result ≡ spec.lack_on rule problem.now l side }
{
    match rule {
        Rule::Capacity => over_on(problem, l, side, load),
        Rule::Slack => short_on(problem, l, side, load),
    }
}

fn over_on(problem: &Problem, l: u32, side: Side, load: u64) -> Option<NoPlan>
    requires link { l < length problem.now.links }
    requires load { load ≡ load_on side problem.now l }
    ensures { result ≡ spec.lack_on rule.Capacity problem.now l side }
{
    let capacity = problem.capacity(l as usize);
    if load <= capacity {
        return None;
    }
    Some(NoPlan::OverCapacity {
        link: l,
        side,
        load,
        capacity,
    })
}

fn short_on(problem: &Problem, l: u32, side: Side, load: u64) -> Option<NoPlan>
    requires link { l < length problem.now.links }
    requires load { load ≡ load_on side problem.now l }
    ensures { result ≡ spec.lack_on rule.Slack problem.now l side }
{
    let capacity = problem.capacity(l as usize);
    if 64 * u128::from(load) <= 63 * u128::from(capacity) {
        return None;
    }
    Some(NoPlan::NoSlack {
        link: l,
        side,
        load,
        capacity,
    })
}
