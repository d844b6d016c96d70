ghost use Rattle.std.specs.Prelude.{◌≡◌, ◌<◌, [], ◌∷◌, ◌++◌, false, length, true, OnErr, OnOk};
ghost use Rattle.lossy_link.specs.FleetState.{after_guest, after_visit, first_guest};

use crate::MemoryGuest;
use lists::Memory;
use std::alloc::Global;
use std::collections::VecDeque;
use std::marker::Model;

/// Guests that come in order, and those that were given back.
///
/// The place in which a guest is given back is made when it is put, so that no later call takes memory.
#[derive(Debug, Drop)]
pub(crate) struct GuestQueue {
    coming: VecDeque<MemoryGuest>,
    served: Vec<MemoryGuest>,
    visiting: usize,
}

impl Model for GuestQueue {
    ghost use Rattle.std.specs.Prelude.{◌+◌, length, vec_capacity};
    ghost use Rattle.lossy_link.specs.FleetState.{HasPlaces, Visits};

    ghost Value = { Visits };

    ghost view = { λ q. record {
      coming = q.coming.items;
      served = q.served.items;
      visiting = q.visiting;
    } };

    ghost invariant = { λ q. HasPlaces (q.visiting + length q.coming.items) (length q.served.items)
        (vec_capacity q.served) };
}

impl GuestQueue {
    pub(crate) fn new(alloc: Global) -> Self
        ensures { result ≡ record { coming = []; served = []; visiting = 0 } }
    {
        GuestQueue {
            coming: VecDeque::new(alloc),
            served: Vec::new(alloc),
            visiting: 0,
        }
    }

    /// Adds a guest to those that come. Lack of memory changes nothing.
    pub(crate) fn put(&mut self, guest: MemoryGuest) -> Result<(), Memory>
        ensures ok { OnOk result
            (self.new ≡ record self.old { coming = self.old.coming ++ guest ∷ [] }) }
        ensures err { OnErr result (self.new ≡ self.old) }
    {
        let to_come = self.coming.len() + 1;
        let places = self.visiting.checked_add(to_come).ok_or(Memory)?;
        self.served.reserve(places)?;
        self.coming.push_back(guest)?;
        Ok(())
    }

    /// Whether a guest still comes.
    pub(crate) fn has_next(&self) -> bool
        ensures yes { result ≡ true → 0 < length self.now.coming }
        ensures no { result ≡ false → length self.now.coming ≡ 0 }
    {
        !self.coming.is_empty()
    }

    /// Gives the first guest that comes, if one does.
    pub(crate) fn next(&mut self) -> Option<MemoryGuest>
        ensures given { result ≡ first_guest self.old.coming }
        ensures after { self.new ≡ after_guest self.old }
    {
        let guest = self.coming.pop_front()?;
        self.visiting += 1;
        Some(guest)
    }

    /// Takes a guest back.
    pub(crate) fn keep(&mut self, guest: MemoryGuest)
        requires { 0 < self.old.visiting }
        ensures { self.new ≡ after_visit self.old guest }
    {
        self.served.push_reserved(guest);
        self.visiting -= 1;
    }
}
