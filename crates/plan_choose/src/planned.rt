use std::marker::Model;
use wan_model::Plan;

/// A plan, and how many of its steps move rates.
#[derive(Debug, Drop)]
pub struct Planned {
    pub plan: Plan,
    pub rate_steps: u32,
}

impl Model for Planned {
    ghost use Rattle.plan_choose.specs.Choice as choice;

    ghost Value = { choice.Choice };

    ghost view = { λ c. record { plan = c.plan; rate_steps = c.rate_steps } };

    ghost inverse = { λ c. record { plan = c.plan; rate_steps = c.rate_steps } };
}
