use lists::Text;
use std::marker::Model;

/// A flow: its name, the number of its first tunnel, and how many tunnels it has, which stand in a row.
#[derive(Debug, Drop)]
pub struct Flow {
    pub name: Text,
    pub first: u32,
    pub tunnels: u32,
}

impl Model for Flow {
    ghost use Rattle.rollout_rules.specs.Wan as wan;

    ghost Value = { wan.Flow };

    ghost view = { λ f. record { name = f.name; first = f.first; tunnels = f.tunnels } };

    ghost inverse = { λ f. record { name = f.name; first = f.first; tunnels = f.tunnels } };
}
