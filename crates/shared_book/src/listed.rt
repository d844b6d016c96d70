ghost use Rattle.std.specs.Prelude.{◌≡◌, [], All};
ghost use Rattle.shared_book.specs.Lasting.{IsLasting};

use crate::marker::Marker;
use disk_model::Disk;
use rollout_book::CommandList;
use std::alloc::Global;
use std::marker::{Model, PhantomData};
use wire_frames::Command;

/// Commands of operations in flight that turns of a shared book listed. Only such a turn puts commands in, each
/// after the moment from which no crash loses its operation.
pub struct Listed<D: Disk, M: Marker> {
    pub(crate) commands: CommandList,
    on: PhantomData<D>,
    of: PhantomData<M>,
}

impl<D: Disk, M: Marker> Model for Listed<D, M> {
    ghost use Rattle.std.specs.Prelude.{All, List};
    ghost use Rattle.wan_edge.specs.Frames.{Command};
    ghost use Rattle.shared_book.specs.Lasting.{IsLasting};

    ghost Value = { List Command };

    ghost view = { λ l. l.commands };

    ghost invariant = { λ l. All (IsLasting D.told M.opening M.moment M.faults) l.commands };
}

impl<D: Disk, M: Marker> Drop for Listed<D, M> {
    fn drop(self) {
        let Listed {
            commands: _,
            on: _,
            of: _,
        } = self;
    }
}

impl<D: Disk, M: Marker> Listed<D, M> {
    /// No command yet.
    pub fn new(alloc: Global) -> Self
        ensures { result ≡ [] }
    {
        Listed {
            commands: CommandList::new(alloc),
            on: PhantomData,
            of: PhantomData,
        }
    }

    /// The commands, in the order in which they were listed.
    pub fn commands(&self) -> &[Command]
        ensures commands { result.now ≡ self.now }
        ensures lasting { All (IsLasting D.told M.opening M.moment M.faults) self.now }
    {
        self.commands.as_slice()
    }
}
