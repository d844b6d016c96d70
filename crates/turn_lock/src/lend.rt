ghost use Rattle.std.specs.Prelude.{◌≡◌};
ghost use Rattle.std.specs.Borrow.{Lends, sem};
ghost use Rattle.turn_lock.specs.contracts.held.Held.{the_row};

use crate::counted::Counted;
use crate::held::Held;

impl<V: Counted> Held<V> {
    /// The value. When the borrow ends, it is what was left after the reference.
    pub fn value(&mut self) -> &mut V
        ensures* lends { sem 𝓛
            (Lends (the_row V.row V.Entry.row V.Counted) V.row self.entry result
            (λ w. record self.old { value = w })) }
        ensures value { result.now ≡ self.old.value }
    {
        &mut self.value
    }
}
