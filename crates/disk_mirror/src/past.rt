ghost use Rattle.std.specs.Prelude.{◌≡◌, [], ◌∷◌, ◌++◌};
ghost use Rattle.disk_mirror.specs.Past.{past_in};

use crate::standing::Standing;
use std::snapshot::Snapshot;

/// What a disk was before each write and each sync: the program keeps none of it, contracts alone read it.
#[derive(Drop)]
pub(crate) enum Past {
    Nothing,
    Also(Snapshot<Past>, Snapshot<Standing>),
}

impl Past {
    pub(crate) fn also(&self, was: &Standing) -> Self
        ensures { past_in result ≡ past_in self.now ++ was.now ∷ [] }
    {
        Past::Also(Snapshot::of(self), Snapshot::of(was))
    }
}
