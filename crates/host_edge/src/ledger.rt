//! Which ports a fleet has lent, and which guests were its: the program keeps none of it, contracts alone
//! read it.
ghost use Rattle.std.specs.Prelude.{◌≡◌, ◌+◌, ◌-◌, ◌∷◌, ◌++◌, [], true, false};
ghost use Rattle.host_edge.specs.Ledgers.{kept_in, lent_in, named_in, served_in, visiting_in};
ghost use Rattle.wan_edge.specs.Fleets.{marked, with_one, without};

use crate::{TcpGuest, TcpPort};
use byte_history::{Bytes, history_of};
use std::snapshot::Snapshot;

/// The ports that were given, each by a name, and given back.
#[derive(Drop)]
pub(crate) enum Loans<R> {
    Nothing,
    Given(Snapshot<Loans<R>>, Snapshot<u32>, Snapshot<Bytes>),
    Back(Snapshot<Loans<R>>, Snapshot<u32>, Snapshot<TcpPort<R>>),
}

/// The guests that were given and given back.
#[derive(Drop)]
pub(crate) enum Visits<S> {
    Nobody,
    Given(Snapshot<Visits<S>>),
    Back(Snapshot<Visits<S>>, Snapshot<TcpGuest<S>>),
}

impl<R> Loans<R> {
    pub(crate) fn given(&self, switch: u32, name: &str) -> Self
        ensures kept { kept_in result ≡ without (kept_in self.now) switch }
        ensures lent { lent_in result ≡ marked (lent_in self.now) switch true }
        ensures named { named_in result ≡ with_one (named_in self.now) switch name.now }
    {
        let noted = history_of(name.as_bytes());
        Loans::Given(
            Snapshot::of(self),
            Snapshot::of(&switch),
            Snapshot::of(&noted),
        )
    }

    pub(crate) fn back(&self, switch: u32, port: &TcpPort<R>) -> Self
        ensures kept { kept_in result ≡ with_one (kept_in self.now) switch port.now }
        ensures lent { lent_in result ≡ marked (lent_in self.now) switch false }
        ensures named { named_in result ≡ named_in self.now }
    {
        Loans::Back(
            Snapshot::of(self),
            Snapshot::of(&switch),
            Snapshot::of(port),
        )
    }
}

impl<S> Visits<S> {
    pub(crate) fn given(&self) -> Self
        ensures served { served_in result ≡ served_in self.now }
        ensures visiting { visiting_in result ≡ visiting_in self.now + 1 }
    {
        Visits::Given(Snapshot::of(self))
    }

    pub(crate) fn back(&self, guest: &TcpGuest<S>) -> Self
        ensures served { served_in result ≡ served_in self.now ++ guest.now ∷ [] }
        ensures visiting { visiting_in result ≡ visiting_in self.now - 1 }
    {
        Visits::Back(Snapshot::of(self), Snapshot::of(guest))
    }
}
