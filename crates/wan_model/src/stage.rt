use lists::{Many, Marks, Nums};
use std::marker::Model;

/// A stage of a plan: a rate per tunnel in units of 1/scale, and whether the tunnel is installed.
#[derive(Debug, Drop)]
pub struct Stage {
    pub rates: Nums,
    pub installed: Marks,
}

impl Model for Stage {
    ghost use Rattle.rollout_rules.specs.Wan as wan;

    ghost Value = { wan.Stage };

    ghost view = { λ s. record { rates = s.rates; installed = s.installed } };

    ghost inverse = { λ s. record { rates = s.rates; installed = s.installed } };
}

/// The stages of a plan in order.
pub type StageList = Many<Stage>;
