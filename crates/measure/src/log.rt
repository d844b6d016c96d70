ghost use Rattle.std.specs.Prelude.{◌≡◌, []};
ghost use Rattle.turn_lock.specs.Histories.{GoesOn};

use std::alloc::Global;
use std::snapshot::Snapshot;
use turn_lock::Counted;

/// The seats that had a turn. Of the row of them there is the length alone, so that a turn takes no memory, and
/// the sum, which doesn't hang on their order.
#[derive(Drop)]
pub(crate) struct Log {
    seats: Vec<Snapshot<u32>>,
    sum: u64,
}

impl Counted for Log {
    type Entry = Snapshot<u32>;

    ghost history = { λ log. log.seats.items };

    ghost seat_of = { λ seat. seat.value };

    fn count(&self) -> u64 {
        self.seats.len() as u64
    }
}

impl Log {
    pub(crate) fn new(alloc: Global) -> Self
        ensures { result.seats.items ≡ [] }
    {
        Log {
            seats: Vec::new(alloc),
            sum: 0,
        }
    }

    /// Where memory runs out it adds nothing.
    pub(crate) fn add(&mut self, seat: u32)
        ensures { GoesOn (λ e. e.value) seat self.old.seats.items self.new.seats.items }
    {
        if self.seats.push(Snapshot::of(&seat)).is_ok() {
            self.sum = self.sum.wrapping_add(u64::from(seat));
        }
    }

    pub(crate) fn sum(&self) -> u64 {
        self.sum
    }
}
