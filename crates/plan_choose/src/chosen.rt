use scratch_plan::NoPlan;
use wan_model::{CheckedPlan, Problem};

/// The plan that was chosen, which is valid, with its problem, and how many of its steps move rates.
#[derive(Debug, Drop)]
pub struct Chosen {
    pub plan: CheckedPlan,
    pub rate_steps: u32,
}

/// A problem for which no plan is chosen, and why.
#[derive(Debug, Drop)]
pub struct Unplanned {
    pub problem: Problem,
    pub cause: NoPlan,
}
