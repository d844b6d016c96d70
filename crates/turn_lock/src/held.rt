ghost use Rattle.std.specs.Prelude.{◌≡◌, ◌≤◌, [], ◌∷◌, length, None};
ghost use Rattle.turn_lock.specs.declared.view.Stage.TheVariants.{Turning};
ghost use Rattle.turn_lock.specs.Tickets.{ticket_of};

use crate::counted::Counted;
use crate::view::View;
use atomic_table::Seat;

// What a pass becomes while it has the value: it holds the empty slot.
pub struct Grip<V: Counted> {
    pub(crate) place: Seat<Option<V>, View<V::Entry>>,
    pub(crate) seat: u32,
    pub(crate) taken: u64,
    pub(crate) given: u32,
    pub(crate) out: u32,
    pub ghost turning: { place.me.0.stage ≡ Turning (ticket_of place.me.0.stage) },
    pub ghost emptied: { place.me.1 ≡ (0, None) ∷ [] },
    pub ghost seat_is: { seat ≡ place.me.0.seat },
    pub ghost taken_is: { taken ≡ length place.me.0.seen },
    pub ghost given_is: { given ≡ place.me.0.given },
    pub ghost out_is: { out ≡ place.me.0.out },
    pub ghost fewer: { out ≤ given },
}

/// The value, out of the lock with one pass.
pub struct Held<V: Counted> {
    pub(crate) grip: Grip<V>,
    pub(crate) value: V,
}
