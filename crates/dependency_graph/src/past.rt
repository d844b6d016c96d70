ghost use Rattle.std.specs.Prelude.{◌≡◌, ◌<◌, [], ◌∷◌, ◌++◌, length, IfOk};

use lists::Memory;
use rollout_rules::Entry;
use std::alloc::Global;
use std::marker::Model;
use std::snapshot::Snapshot;

/// The entries of a history, of which the program keeps none: contracts alone read them.
#[derive(Drop)]
pub(crate) struct Past {
    entries: Vec<Snapshot<Entry>>,
}

impl Model for Past {
    ghost use Rattle.std.specs.Prelude.{map, vec_capacity};
    ghost use Rattle.dependency_graph.specs.Past.{Entries};

    ghost Value = { Entries };

    ghost view = { λ p. record {
      room = vec_capacity p.entries;
      items = map (λ e. e.value) p.entries.items;
    } };
}

impl Past {
    /// No entry, with room for so many.
    pub(crate) fn new(alloc: Global, room: usize) -> Result<Past, Memory>
        ensures { IfOk result (λ past. past ≡ record { room = room; items = [] }) }
    {
        Ok(Past {
            entries: Vec::with_capacity(alloc, room)?,
        })
    }

    pub(crate) fn add(&mut self, entry: Entry)
        requires { length self.old.items < self.old.room }
        ensures { self.new ≡ record self.old { items = self.old.items ++ entry ∷ [] } }
    {
        self.entries.push_reserved(Snapshot::of(&entry));
    }
}
