/// What a rollout changes: a flow's split over its tunnels, or a tunnel's entry in the table of one
/// switch on its path.
#[derive(Clone, Copy, Debug, PartialEq, Eq)]
pub enum Item {
    Flow(u32),
    Entry { tunnel: u32, hop: u32 },
}

/// What a broken clause of a plan speaks of.
#[derive(Clone, Copy, Debug, PartialEq, Eq)]
pub enum Spot {
    Whole,
    Tunnel(u32),
    Link(u32),
    Table(u32),
    Flow(u32),
}
