use std::marker::Model;

/// A directed link between two switches, by their numbers, and its capacity.
#[derive(Debug, Drop)]
pub struct Link {
    pub from: u32,
    pub to: u32,
    pub capacity: u64,
}

impl Model for Link {
    ghost use Rattle.rollout_rules.specs.Wan as wan;

    ghost Value = { wan.Link };

    ghost view = { λ l. record { from = l.from; to = l.to; capacity = l.capacity } };

    ghost inverse = { λ l. record { from = l.from; to = l.to; capacity = l.capacity } };
}
