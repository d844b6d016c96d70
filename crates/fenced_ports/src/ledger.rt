//! Which ports a fleet has lent: the program keeps none of it, contracts alone read it.
ghost use Rattle.std.specs.Prelude.{◌≡◌};
ghost use Rattle.fenced_ports.specs.Ledgers.{kept_in};
ghost use Rattle.wan_edge.specs.Fleets.{with_one, without};

use crate::FencedPort;
use std::snapshot::Snapshot;
use wan_edge::Port;

/// The ports that were given and given back.
#[derive(Drop)]
pub(crate) enum Loans<T: Port> {
    Nothing,
    Given(Snapshot<Loans<T>>, Snapshot<u32>),
    Back(Snapshot<Loans<T>>, Snapshot<u32>, Snapshot<FencedPort<T>>),
}

impl<T: Port> Loans<T> {
    pub(crate) fn given(&self, switch: u32) -> Self
        ensures { kept_in result ≡ without (kept_in self.now) switch }
    {
        Loans::Given(Snapshot::of(self), Snapshot::of(&switch))
    }

    pub(crate) fn back(&self, switch: u32, port: &FencedPort<T>) -> Self
        ensures { kept_in result ≡ with_one (kept_in self.now) switch port.now }
    {
        Loans::Back(
            Snapshot::of(self),
            Snapshot::of(&switch),
            Snapshot::of(port),
        )
    }
}
