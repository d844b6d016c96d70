ghost use Rattle.std.specs.Prelude.{◌≡◌, [], ◌∷◌, ◌++◌};
ghost use Rattle.disk_mirror.specs.Pending.{pending_in};

use std::snapshot::Snapshot;

/// The place and length of each write since the last sync: the program keeps none of it, contracts alone
/// read it.
#[derive(Drop)]
pub(crate) enum Pending {
    Nothing,
    Also(Snapshot<Pending>, Snapshot<u64>, Snapshot<usize>),
}

impl Pending {
    pub(crate) fn also(&self, at: u64, count: usize) -> Self
        ensures { pending_in result ≡ pending_in self.now ++ (at, count) ∷ [] }
    {
        Pending::Also(Snapshot::of(self), Snapshot::of(&at), Snapshot::of(&count))
    }
}
