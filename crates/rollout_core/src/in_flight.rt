ghost use Rattle.std.specs.Prelude.{◌≡◌, ◌<◌, [], ◌∷◌, ◌++◌, IfOk, length, slice_index};
ghost use Rattle.rollout_rules.specs.Items.{item_count};
ghost use Rattle.dependency_graph.specs.Progress.{flies_by};
ghost use Rattle.rollout_core.specs.InFlight.{passing};

use dependency_graph::Progress;
use lists::Memory;
use std::alloc::Global;
use std::marker::Model;

/// The items of which an operation is in flight, in order. The row has room for every item, so to note
/// them anew takes no memory.
#[derive(Drop)]
pub(crate) struct InFlight {
    row: Vec<u32>,
    count: u32,
}

impl Model for InFlight {
    ghost use Rattle.std.specs.Prelude.{length, take};
    ghost use Rattle.rollout_core.specs.InFlight.{FlyingItems, AreInRow};

    ghost Value = { FlyingItems };

    ghost view = { λ f. record { room = length f.row.items; items = take f.count f.row.items } };

    ghost invariant = { λ f. AreInRow f.row.items f.count };
}

impl InFlight {
    /// None, with room for so many.
    pub(crate) fn new(alloc: Global, room: u32) -> Result<InFlight, Memory>
        ensures { IfOk result (λ flights. flights ≡ record { room = room; items = [] }) }
    {
        Ok(InFlight {
            row: vec![in alloc; 0u32; room as usize]?,
            count: 0,
        })
    }

    /// How many they are.
    pub(crate) fn count(&self) -> u32
        ensures { result ≡ length self.now.items }
    {
        self.count
    }

    /// The n-th of them.
    pub(crate) fn item(&self, n: u32) -> u32
        requires { n < length self.now.items }
        ensures { result ≡ slice_index self.now.items n }
    {
        self.row[n as usize]
    }

    /// Notes the items of which an operation flies by the counts.
    pub(crate) fn note(&mut self, progress: &Progress)
        requires { self.old.room ≡ item_count progress.now.rollout.problem }
        ensures room { self.new.room ≡ self.old.room }
        ensures items { self.new.items
            ≡ passing (flies_by progress.now) (item_count progress.now.rollout.problem) }
    {
        self.clear();
        for item in 0..progress.item_count() {
            if progress.flies(item) {
                self.push(item);
            }
        }
    }

    fn clear(&mut self)
        ensures { self.new ≡ record self.old { items = [] } }
    {
        self.count = 0;
    }

    fn push(&mut self, item: u32)
        requires { length self.old.items < self.old.room }
        ensures { self.new ≡ record self.old { items = self.old.items ++ item ∷ [] } }
    {
        self.row[self.count as usize] = item;
        self.count += 1;
    }
}
