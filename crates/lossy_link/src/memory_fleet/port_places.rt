ghost use Rattle.std.specs.Prelude.{◌≡◌, ℕ, ◌==◌, [], true, false, None, Some, is_some, if◌then◌else◌, IfNone, IfOk, IsOk, IsSome, OnErr, OnOk};
ghost use Rattle.lossy_link.specs.PortPlaces.{port_place_at, kept_at, lent_at, waiting_at};
ghost use Rattle.wan_edge.specs.Fleets.{marked, with_one, without};

use crate::memory_fleet::port_place::PortPlace;
use indexmap::IndexMap;
use lists::Memory;
use std::alloc::Global;
use std::marker::Model;

/// Ports at the places of their switches. A place that was made stays, so that a port can come back.
#[derive(Debug, Drop)]
pub(crate) struct PortPlaces<P> {
    places: IndexMap<u32, PortPlace<P>>,
}

impl<P> Model for PortPlaces<P> {
    ghost use Rattle.lossy_link.specs.PortPlaces.{Places};

    ghost Value = { Places P };

    ghost view = { λ b. b.places.entries };
}

impl<P> PortPlaces<P> {
    pub(crate) fn new(alloc: Global) -> Self
        ensures { result ≡ [] }
    {
        PortPlaces {
            places: IndexMap::new(alloc),
        }
    }
}

impl<P: Drop> PortPlaces<P> {
    /// Lets this port wait, in place of the one that waited. Lack of memory changes nothing.
    pub(crate) fn put(&mut self, switch: u32, port: P) -> Result<(), Memory>
        ensures waiting { OnOk result
            (waiting_at self.new ≡ with_one (waiting_at self.old) switch port) }
        ensures kept { OnOk result (kept_at self.new ≡ without (kept_at self.old) switch) }
        ensures lent { OnOk result (lent_at self.new ≡ lent_at self.old) }
        ensures err { OnErr result (self.new ≡ self.old) }
        ensures memory { OnErr result
            ((waiting_at self.old switch ≡ None) × (lent_at self.old switch ≡ false)) }
    {
        let lent = self.is_lent(switch);
        self.set(
            switch,
            PortPlace {
                port: Some(port),
                kept: false,
                lent,
            },
        )?;
        Ok(())
    }

    /// Lets no port wait, where a place was made.
    pub(crate) fn clear(&mut self, switch: u32)
        ensures waiting { waiting_at self.new ≡ without (waiting_at self.old) switch }
        ensures kept { kept_at self.new ≡ without (kept_at self.old) switch }
        ensures lent { lent_at self.new ≡ lent_at self.old }
    {
        if self.places.contains_key(&switch) {
            let lent = self.is_lent(switch);
            self.reset(
                switch,
                PortPlace {
                    port: None,
                    kept: false,
                    lent,
                },
            );
        }
    }

    /// Gives the port that waits, if one does.
    pub(crate) fn lend(&mut self, switch: u32) -> Option<P>
        ensures given { result ≡ waiting_at self.old switch }
        ensures none { IfNone result (self.new ≡ self.old) }
        ensures waiting { IsSome result
            → waiting_at self.new ≡ without (waiting_at self.old) switch }
        ensures kept { IsSome result → kept_at self.new ≡ without (kept_at self.old) switch }
        ensures lent { IsSome result → lent_at self.new ≡ marked (lent_at self.old) switch true }
    {
        if !self.is_waiting(switch) {
            return None;
        }
        self.reset(
            switch,
            PortPlace {
                port: None,
                kept: false,
                lent: true,
            },
        )
    }

    /// Takes the port back, in the place that was made when it was put.
    pub(crate) fn keep(&mut self, switch: u32, port: P)
        requires { lent_at self.old switch ≡ true }
        ensures waiting { waiting_at self.new ≡ with_one (waiting_at self.old) switch port }
        ensures kept { kept_at self.new ≡ with_one (kept_at self.old) switch port }
        ensures lent { lent_at self.new ≡ marked (lent_at self.old) switch false }
    {
        self.reset(
            switch,
            PortPlace {
                port: Some(port),
                kept: true,
                lent: false,
            },
        );
    }

    // Whether a port waits for the switch.
    fn is_waiting(&self, switch: u32) -> bool
        ensures { result ≡ is_some (waiting_at self.now switch) }
    {
        match self.places.get(&switch) {
            Some(berth) => berth.port.is_some(),
            None => false,
        }
    }

    // Whether a port of the switch was given and not given back.
    fn is_lent(&self, switch: u32) -> bool
        ensures { result ≡ lent_at self.now switch }
    {
        match self.places.get(&switch) {
            Some(berth) => berth.lent,
            None => false,
        }
    }

    // Sets what stands at a place that was made, and gives the port that waited there.
    fn reset(&mut self, switch: u32, berth: PortPlace<P>) -> Option<P>
        requires { IsSome (port_place_at self.old switch) }
        ensures waited { result ≡ waiting_at self.old switch }
        ensures updates { (n : ℕ)
            → port_place_at self.new n
            ≡ (if n == switch then Some berth else port_place_at self.old n) }
    {
        match self.set(switch, berth).unwrap() {
            Some(before) => before.port,
            None => None,
        }
    }

    // Sets what stands at the place, and gives what stood there. Memory is taken for a place that was
    // not made yet.
    fn set(&mut self, switch: u32, berth: PortPlace<P>) -> Result<Option<PortPlace<P>>, Memory>
        ensures before { IfOk result (λ before. before ≡ port_place_at self.old switch) }
        ensures updates { OnOk result
            ((n : ℕ)
            → port_place_at self.new n
            ≡ (if n == switch then Some berth else port_place_at self.old n)) }
        ensures err { OnErr result (self.new ≡ self.old) }
        ensures memory { OnErr result (port_place_at self.old switch ≡ None) }
        ensures succeeds { IsSome (port_place_at self.old switch) → IsOk result }
    {
        Ok(self.places.insert(switch, berth)?)
    }
}
