use lists::Many;
use rollout_rules::Event;

/// One step of a takeover.
#[derive(Debug, Drop)]
pub enum TwoEvent {
    /// A step of the older controller's world.
    Old(Event),
    /// The switch of this number hears the newer controller for the first time, and is fenced off from
    /// the older one.
    Fence(u32),
    /// A step of the newer controller's world.
    New(Event),
}

/// A schedule of both worlds: events in a row.
pub type TwoEventList = Many<TwoEvent>;
