ghost use Rattle.std.specs.Prelude.{◌≡◌, length, map, None, IsTrue};

use crate::marker::Marker;
use crate::{Halt, Note, Written};
use disk_model::Disk;
use rollout_book::JournaledRounds;
use std::marker::{Model, PhantomData};
use turn_lock::Counted;

/// What lies under the lock: journaled rounds, and the notes of the calls made to them.
pub struct NotedBook<D: Disk, M: Marker> {
    // Boxed, so that a turn of the lock moves a pointer.
    pub(crate) chronicle: Box<JournaledRounds<D>>,
    pub(crate) notes: Vec<Note>,
    pub(crate) halted: Option<Halt>,
    // How many seats have not asked yet that all stop. There is room for a note of each of them.
    pub(crate) spare: u32,
    pub(crate) of: PhantomData<M>,
}

impl<D: Disk, M: Marker> Model for NotedBook<D, M> {
    ghost use Rattle.std.specs.Prelude.{vec_capacity};
    ghost use Rattle.shared_book.specs.Images.{HasImages, StaysOpened};
    ghost use Rattle.shared_book.specs.Lasting.{AllHeard};
    ghost use Rattle.shared_book.specs.Sharing.{Sharing, log_of, IsShared};

    ghost Value = { Sharing D };

    ghost view = { λ k. record {
      book = k.chronicle.value;
      log = log_of k.chronicle.value k.notes.items;
    } };

    ghost invariant = { λ k. IsShared M.opening M.seats k.chronicle.value k.notes.items k.halted
        k.spare (vec_capacity k.notes) (log_of k.chronicle.value k.notes.items)
        × HasImages D.told M.opening M.moment M.faults k.chronicle.value.disk
        (log_of k.chronicle.value k.notes.items)
        × AllHeard M.heard (log_of k.chronicle.value k.notes.items)
        × StaysOpened D.told M.opening M.stood k.chronicle.value.disk };
}

impl<D: Disk, M: Marker> Counted for NotedBook<D, M> {
    type Entry = Written;

    ghost history = { λ k. k.log };

    ghost seat_of = { λ w. w.note.seat };

    fn count(&self) -> u64 {
        self.notes.len() as u64
    }
}
