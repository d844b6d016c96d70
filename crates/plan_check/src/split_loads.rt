ghost use Rattle.std.specs.Prelude.{IfOk};
ghost use Rattle.plan_check.specs.LeastSlack.{AreLoads};

use crate::link_loads::loads;
use lists::{Memory, Nums};
use std::alloc::Global;
use wan_model::{Problem, Side};

/// What each link of a problem carries in the old split and in the new one. It is added up once, for all that is
/// asked of it.
#[derive(Debug, Drop)]
pub struct SplitLoads {
    pub old: Nums,
    pub new: Nums,
}

impl SplitLoads {
    ghost use Rattle.std.specs.Prelude.{IfOk};
    ghost use Rattle.rollout_rules.specs.Network.{IsNetwork};
    ghost use Rattle.plan_check.specs.SplitLoads.{AreSplitLoads};

    /// Those of a problem. An Err is want of memory. Time: once a split the lengths of the tunnels, and the links.
    pub fn of(alloc: Global, problem: &Problem) -> Result<Self, Memory>
        ensures loads { IfOk result (λ loads. AreSplitLoads problem.now loads) }
        ensures network { IsNetwork problem.now }
    {
        let _ = problem.links();
        Ok(SplitLoads {
            old: loads_on(alloc, problem, Side::Old)?,
            new: loads_on(alloc, problem, Side::New)?,
        })
    }
}

// The loads of a split.
fn loads_on(alloc: Global, problem: &Problem, side: Side) -> Result<Nums, Memory>
    ensures { IfOk result (λ sums. AreLoads side problem.now sums) }
{
    let mut rates = Nums::new(alloc);
    for t in 0..problem.tunnels().len() {
        rates.push(problem.rate_on(side, t).unwrap_or(0))?;
    }
    loads(alloc, problem, rates.as_slice())
}
