ghost use Rattle.std.specs.Prelude.{◌≡◌, ◌<◌, [], ◌∷◌, ◌++◌, true, false, None, Some, is_err, IfOk, IsOk, OnErr, OnOk};
ghost use Rattle.lossy_link.specs.PortPlaces.{kept_at, lent_at, waiting_at};
ghost use Rattle.lossy_link.specs.FleetState.{after_guest, after_visit, first_guest};
ghost use Rattle.lossy_link.specs.Names.{name_at};
ghost use Rattle.wan_edge.specs.FailingTurns.{one_more};
ghost use Rattle.wan_edge.specs.Fleets.{WaitsFor, marked, with_one, without};

mod guest_queue;
mod names;
mod port_place;
mod port_places;

use crate::MemoryGuest;
use guest_queue::GuestQueue;
use lists::{Memory, Text};
use names::Names;
use port_places::PortPlaces;
use std::alloc::Global;
use std::marker::Model;
use wan_edge::{Failed, Fleet, Port, Waited};

/// Ports that wait for their switches and guests that come in order, all of them told. A port is given to
/// whoever asks for it by the name of its switch, and to nobody else.
///
/// Memory is taken where a switch is called, or a port or a guest is put, and nowhere else.
#[derive(Debug, Drop)]
pub struct MemoryFleet<P> {
    berths: PortPlaces<P>,
    names: Names,
    guests: GuestQueue,
    guests_fail: bool,
    faults: u64,
}

impl<P> Model for MemoryFleet<P> {
    ghost use Rattle.lossy_link.specs.FleetState.{FleetState};

    ghost Value = { FleetState P };

    ghost view = { λ f. record {
      places = f.berths;
      names = f.names;
      guests = f.guests;
      guests_fail = f.guests_fail;
      faults = f.faults;
    } };
}

impl<P> MemoryFleet<P> {
    pub fn new(alloc: Global) -> Self
        ensures { result
            ≡ record {
              places = [];
              names = [];
              guests = record { coming = []; served = []; visiting = 0 };
              guests_fail = false;
              faults = 0;
            } }
    {
        MemoryFleet {
            berths: PortPlaces::new(alloc),
            names: Names::new(alloc),
            guests: GuestQueue::new(alloc),
            guests_fail: false,
            faults: 0,
        }
    }

    /// Calls a switch by this name, and by no other. Lack of memory changes nothing.
    pub fn call(&mut self, switch: u32, name: Text) -> Result<(), Memory>
        ensures ok { OnOk result
            (name_at self.new.names ≡ with_one (name_at self.old.names) switch name) }
        ensures others { self.new ≡ record self.old { names = self.new.names } }
        ensures err { OnErr result (self.new ≡ self.old) }
    {
        self.names.give_name(switch, name)
    }

    /// Lets this port wait for the switch. One that waited, perhaps since it was given back, is dropped;
    /// one that is lent can still be given back. Lack of memory changes nothing but drops this port.
    pub fn put(&mut self, switch: u32, port: P) -> Result<(), Memory>
    where
        P: Drop,
        ensures waiting { OnOk result
            (waiting_at self.new.places ≡ with_one (waiting_at self.old.places) switch port) }
        ensures kept { OnOk result
            (kept_at self.new.places ≡ without (kept_at self.old.places) switch) }
        ensures lent { OnOk result (lent_at self.new.places ≡ lent_at self.old.places) }
        ensures others { self.new ≡ record self.old { places = self.new.places } }
        ensures err { OnErr result (self.new ≡ self.old) }
        ensures memory { OnErr result
            ((waiting_at self.old.places switch ≡ None)
            × (lent_at self.old.places switch ≡ false)) }
    {
        self.berths.put(switch, port)
    }

    /// Drops the port that waits for the switch, so that `port` fails from then on: until one is put, or
    /// the one that is lent is given back, for a port that was given back waits again.
    pub fn fail_at(&mut self, switch: u32)
    where
        P: Drop,
        ensures waiting { waiting_at self.new.places ≡ without (waiting_at self.old.places) switch }
        ensures kept { kept_at self.new.places ≡ without (kept_at self.old.places) switch }
        ensures lent { lent_at self.new.places ≡ lent_at self.old.places }
        ensures others { self.new ≡ record self.old { places = self.new.places } }
    {
        self.berths.clear(switch);
    }

    /// Adds a guest to those that come. Lack of memory changes nothing but drops the guest.
    pub fn put_guest(&mut self, guest: MemoryGuest) -> Result<(), Memory>
        ensures ok { OnOk result
            (self.new
            ≡ record self.old
            { guests = record self.old.guests { coming = self.old.guests.coming ++ guest ∷ [] } }) }
        ensures err { OnErr result (self.new ≡ self.old) }
    {
        self.guests.put(guest)
    }

    /// Lets each later call of `guest` fail. The guests stay.
    pub fn fail_guests(&mut self)
        ensures { self.new ≡ record self.old { guests_fail = true } }
    {
        self.guests_fail = true;
    }

    // Counts a failure, up to the last value of u64, and gives it.
    fn fail(&mut self) -> Failed
        ensures { self.new ≡ record self.old { faults = one_more self.old.faults } }
    {
        self.faults = self.faults.saturating_add(1);
        Failed
    }
}

impl<P: Port + Drop> Fleet for MemoryFleet<P> {
    type Port = P;

    type Guest = MemoryGuest;

    ghost told = { λ f. record {
      waiting = Some (waiting_at f.places);
      coming = Some f.guests.coming;
      kept = kept_at f.places;
      served = f.guests.served;
      lent = lent_at f.places;
      named = name_at f.names;
      visiting = f.guests.visiting;
      faults = f.faults;
    } };

    /// Gives the port that waits for the switch, or fails exactly where none does, or the switch isn't called
    /// so.
    fn port(&mut self, switch: u32, name: &str) -> Result<P, Failed>
        ensures own { OnOk result (name_at self.old.names switch ≡ Some name.now) }
        ensures none { OnErr result
            (name_at self.old.names switch ≡ Some name.now
            → waiting_at self.old.places switch ≡ None) }
        ensures given { IfOk result (λ port. waiting_at self.old.places switch ≡ Some port) }
        ensures waiting { OnOk result
            (waiting_at self.new.places ≡ without (waiting_at self.old.places) switch) }
        ensures kept { OnOk result
            (kept_at self.new.places ≡ without (kept_at self.old.places) switch) }
        ensures lent { OnOk result
            (lent_at self.new.places ≡ marked (lent_at self.old.places) switch true) }
        ensures asked { OnOk result
            (name_at self.new.names ≡ with_one (name_at self.old.names) switch name.now) }
        ensures others { OnOk result (self.new ≡ record self.old { places = self.new.places }) }
        ensures failed { OnErr result
            (self.new ≡ record self.old { faults = one_more self.old.faults }) }
    {
        if !self.names.has_name(switch, name) {
            return Err(self.fail());
        }
        match self.berths.lend(switch) {
            Some(port) => Ok(port),
            None => Err(self.fail()),
        }
    }

    /// Takes the port back, which then waits again. One that was put meanwhile is dropped.
    fn keep(&mut self, switch: u32, port: P)
        requires { lent_at self.old.places switch ≡ true }
        ensures waiting { waiting_at self.new.places
            ≡ with_one (waiting_at self.old.places) switch port }
        ensures kept { kept_at self.new.places ≡ with_one (kept_at self.old.places) switch port }
        ensures lent { lent_at self.new.places ≡ marked (lent_at self.old.places) switch false }
        ensures others { self.new ≡ record self.old { places = self.new.places } }
    {
        self.berths.keep(switch, port);
    }

    /// Says that a guest comes where one is still to come, and else that the first of those who sit may be
    /// read. It never fails, and nothing has changed.
    fn wait(&mut self, seated: &[MemoryGuest]) -> Result<Waited, Failed>
        ensures goes_on { IsOk result }
        ensures woken { IfOk result
            (λ woken. WaitsFor (Some self.old.guests.coming) seated.now woken) }
        ensures still { self.new ≡ self.old }
    {
        if self.guests.has_next() {
            return Ok(Waited::Came);
        }
        if seated.is_empty() {
            return Ok(Waited::NoMore);
        }
        Ok(Waited::Seat(0))
    }

    /// Gives the next guest, or says that no more will come. It fails exactly after `fail_guests`.
    fn guest(&mut self) -> Result<Option<MemoryGuest>, Failed>
        ensures fails { is_err result ≡ self.old.guests_fail }
        ensures given { IfOk result (λ found. found ≡ first_guest self.old.guests.coming) }
        ensures ok { OnOk result
            (self.new ≡ record self.old { guests = after_guest self.old.guests }) }
        ensures failed { OnErr result
            (self.new ≡ record self.old { faults = one_more self.old.faults }) }
    {
        if self.guests_fail {
            return Err(self.fail());
        }
        Ok(self.guests.next())
    }

    /// Takes a guest back.
    fn keep_guest(&mut self, guest: MemoryGuest)
        requires { 0 < self.old.guests.visiting }
        ensures { self.new ≡ record self.old { guests = after_visit self.old.guests guest } }
    {
        self.guests.keep(guest);
    }
}
