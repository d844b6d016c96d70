//! What is looked up of a plan before it is explained.
ghost use Rattle.std.specs.Prelude.{IfOk};
ghost use Rattle.plan_texts.specs.LookedUp.{IsLookupOf};

use dependency_graph::{Chains, Index};
use lists::Memory;
use std::alloc::Global;
use wan_model::CheckedPlan;
use wan_text::Names;

/// The names of a plan's problem, its items by number, and the longest chain from each of their operations on.
#[derive(Drop)]
pub struct Lookup {
    pub(crate) names: Names,
    pub(crate) index: Index,
    pub(crate) chains: Chains,
}

impl Lookup {
    ghost use Rattle.std.specs.Prelude.{IfOk};
    ghost use Rattle.plan_texts.specs.LookedUp.{IsLookupOf};

    /// Those of a plan. All the memory for its text is taken here: an Err is want of it.
    pub fn of(alloc: Global, plan: &CheckedPlan) -> Result<Self, Memory>
        ensures { IfOk result (λ lookup. IsLookupOf lookup plan.now) }
    {
        let names = Names::of(alloc, plan.problem())?;
        let index = Index::new(alloc, plan)?;
        match Chains::new(alloc, plan) {
            Ok(chains) => Ok(Lookup {
                names,
                index,
                chains,
            }),
            Err(refused) => {
                drop(names);
                drop(index);
                Err(refused)
            }
        }
    }
}
