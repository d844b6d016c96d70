use lists::Many;
use std::marker::Model;

/// Another new split of a network, and capacities of some of its links, both in the units of its problem. Tunnels
/// and links go by their numbers; a tunnel without a rate isn't to be installed, and a link without a capacity
/// keeps its own.
#[derive(Debug, Drop)]
pub struct Target {
    pub new: Many<Option<u64>>,
    pub capacities: Many<Option<u64>>,
}

impl Model for Target {
    ghost use Rattle.retarget_plan.specs.Targets.{Targeted};

    ghost Value = { Targeted };

    ghost view = { λ t. record { new = t.new; capacities = t.capacities } };

    ghost inverse = { λ t. record { new = t.new; capacities = t.capacities } };
}

/// Where a rollout is to go from where it stands.
#[derive(Debug, Drop)]
pub enum Aim {
    /// To the split of a target.
    Toward(Target),
    /// To what is settled, but for 0 on each tunnel over the link of this number.
    Shed(u32),
}
