use lists::Text;
use std::marker::Model;

/// A switch: its name, and how many entries its forwarding table holds.
#[derive(Debug, Drop)]
pub struct Switch {
    pub name: Text,
    pub table: u32,
}

impl Model for Switch {
    ghost use Rattle.rollout_rules.specs.Wan as wan;

    ghost Value = { wan.Switch };

    ghost view = { λ s. record { name = s.name; table = s.table } };

    ghost inverse = { λ s. record { name = s.name; table = s.table } };
}
