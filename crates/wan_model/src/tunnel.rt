use lists::Ids;
use std::marker::Model;

/// A tunnel: its flow, the switches on its path, the links between them, how many entries it takes in
/// the table of each of these switches, and its old and new rate. Where a rate is `None`, the tunnel
/// isn't installed.
#[derive(Debug, Drop)]
pub struct Tunnel {
    pub flow: u32,
    pub path: Ids,
    pub links: Ids,
    pub width: u32,
    pub old: Option<u64>,
    pub new: Option<u64>,
}

impl Model for Tunnel {
    ghost use Rattle.rollout_rules.specs.Wan as wan;

    ghost Value = { wan.Tunnel };

    ghost view = { λ t. record {
      flow = t.flow;
      path = t.path;
      links = t.links;
      width = t.width;
      old = t.old;
      new = t.new;
    } };

    ghost inverse = { λ t. record {
      flow = t.flow;
      path = t.path;
      links = t.links;
      width = t.width;
      old = t.old;
      new = t.new;
    } };
}
