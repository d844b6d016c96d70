ghost use Rattle.std.specs.Prelude.{◌≡◌, ◌<◌, None};
ghost use Rattle.fenced_ports.specs.FencedPorts.{first_fenced};
ghost use Rattle.fenced_ports.specs.Ledgers.{kept_in};

use crate::ledger::Loans;
use crate::term::Term;
use crate::{FencedPort, OneTerm};
use std::alloc::Global;
use wan_edge::{Failed, Fleet, Waited};

/// The switches of a fleet, for a controller of one term: each port is a [`FencedPort`] over that of the fleet.
/// The controllers that come are those of the fleet.
///
/// A port that is given back gives the one behind it back, and the next one to its switch is new. So where a port
/// goes on that was given back within an answer, the next one begins in the middle of it, and tells what can't be
/// relied on: mostly it fails, but a rest that begins as a frame is taken for one. It tells nothing of what waits.
#[derive(Drop)]
pub struct FencedFleet<F: Fleet> {
    alloc: Global,
    fleet: F,
    term: Term,
    loans: Loans<F::Port>,
}

impl<F: Fleet> FencedFleet<F> {
    /// The ports of this fleet for a controller of this term, which is 1 at the least.
    pub fn new(alloc: Global, fleet: F, term: u32) -> Self
        requires { 0 < term }
        ensures fleet { result.fleet ≡ fleet }
        ensures term { result.term ≡ term }
    {
        FencedFleet {
            alloc,
            fleet,
            term: Term::new(term),
            loans: Loans::Nothing,
        }
    }

    // Its port over one of the fleet.
    fn over(&self, port: F::Port) -> FencedPort<F::Port>
        ensures { result ≡ first_fenced port self.now.term }
    {
        FencedPort::new(self.alloc, port, self.term.number())
    }

    /// Gives the fleet back.
    pub fn into_inner(self) -> F
        ensures { result ≡ self.fleet }
    {
        self.fleet
    }
}

impl<F: Fleet> Fleet for FencedFleet<F> {
    type Port = FencedPort<F::Port>;

    type Guest = F::Guest;

    ghost told = { λ f. record {
      waiting = None;
      coming = (F.told f.fleet).coming;
      kept = kept_in f.loans;
      served = (F.told f.fleet).served;
      lent = (F.told f.fleet).lent;
      named = (F.told f.fleet).named;
      visiting = (F.told f.fleet).visiting;
      faults = (F.told f.fleet).faults;
    } };

    #[tactic(auto, using(crate::proofs::Lending::gives_new))]
    fn port(&mut self, switch: u32, name: &str) -> Result<FencedPort<F::Port>, Failed> {
        match self.fleet.port(switch, name) {
            Ok(port) => {
                self.loans = self.loans.given(switch);
                Ok(self.over(port))
            }
            Err(why) => Err(why),
        }
    }

    fn keep(&mut self, switch: u32, port: FencedPort<F::Port>) {
        self.loans = self.loans.back(switch, &port);
        self.fleet.keep(switch, port.into_inner());
    }

    fn wait(&mut self, seated: &[F::Guest]) -> Result<Waited, Failed> {
        self.fleet.wait(seated)
    }

    fn guest(&mut self) -> Result<Option<F::Guest>, Failed> {
        self.fleet.guest()
    }

    fn keep_guest(&mut self, guest: F::Guest) {
        self.fleet.keep_guest(guest);
    }
}

impl<F: Fleet> OneTerm for FencedFleet<F> {
    ghost of_term = { λ f. f.term };

    fn named_term(&self) -> u32 {
        self.term.number()
    }
}
