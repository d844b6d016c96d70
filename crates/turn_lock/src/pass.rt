ghost use Rattle.std.specs.Prelude.{◌≡◌, ◌≤◌, [], length};
ghost use Rattle.turn_lock.specs.declared.view.Stage.TheVariants.{Idle};

use crate::counted::Counted;
use crate::view::View;
use atomic_table::Seat;

/// The right to ask for turns, under the number of a seat. It knows a beginning of the value's history.
#[derive(Drop)]
pub struct Pass<V: Counted> {
    pub(crate) place: Seat<Option<V>, View<V::Entry>>,
    pub(crate) seat: u32,
    pub(crate) seen: u64,
    pub(crate) given: u32,
    pub(crate) out: u32,
    pub ghost idle: { place.me.0.stage ≡ Idle },
    pub ghost bare: { place.me.1 ≡ [] },
    pub ghost seat_is: { seat ≡ place.me.0.seat },
    pub ghost seen_is: { seen ≡ length place.me.0.seen },
    pub ghost given_is: { given ≡ place.me.0.given },
    pub ghost out_is: { out ≡ place.me.0.out },
    pub ghost fewer: { out ≤ given },
}
