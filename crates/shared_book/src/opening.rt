//! What lies under the lock at first, and what is left of it in the end.
ghost use Rattle.std.specs.Prelude.{◌≡◌, [], IfErr, IfOk, IsTrue};
ghost use Rattle.shared_book.specs.Legal.{is_legal_shared};
ghost use Rattle.shared_book.specs.Notes.{first_stop, notes_of};
ghost use Rattle.shared_book.specs.Images.{HasImages, StandsSo, StaysOpened};
ghost use Rattle.shared_book.specs.Lasting.{AllHeard};
ghost use Rattle.shared_book.specs.Opened.{IsClosed, IsOpenedOn};

use crate::marker::Marker;
use crate::noted_book::NotedBook;
use crate::{Halt, NoteList};
use disk_model::Disk;
use rollout_book::JournaledRounds;
use std::alloc::{AllocFailed, Global};
use std::marker::PhantomData;

impl<D: Disk, M: Marker> NotedBook<D, M> {
    /// What lies under the lock at first: a book as it was opened, without notes, and with a place for the
    /// stop of each seat. The book comes back where memory runs out.
    pub fn first(
        alloc: Global,
        chronicle: JournaledRounds<D>,
        seats: u32,
    ) -> Result<NotedBook<D, M>, JournaledRounds<D>>
        requires opened { IsOpenedOn D.told M.opening M.moment M.faults chronicle }
        requires stood { StandsSo M.stood (D.told chronicle.disk) }
        requires seats { M.seats ≡ seats }
        ensures ok { IfOk result (λ kept. (kept.book ≡ chronicle) × (kept.log ≡ [])) }
        ensures err { IfErr result (λ back. back ≡ chronicle) }
    {
        let mut notes = Vec::new(alloc);
        if notes.reserve(seats as usize).is_err() {
            return Err(chronicle);
        }
        let chronicle = match Box::new(alloc, chronicle) {
            Ok(chronicle) => chronicle,
            Err(AllocFailed { value }) => return Err(value),
        };
        Ok(NotedBook {
            chronicle,
            notes,
            halted: None,
            spare: seats,
            of: PhantomData,
        })
    }

    /// The book, the notes, and the first stop among them.
    pub fn into_parts(self) -> (JournaledRounds<D>, NoteList, Option<Halt>)
        ensures book { result.0 ≡ self.book }
        ensures notes { result.1.items ≡ notes_of self.log }
        ensures halt { result.2 ≡ first_stop self.log }
        ensures legal { IsTrue (is_legal_shared M.opening self.log) }
        ensures is { IsClosed M.opening self.log self.book }
        ensures images { HasImages D.told M.opening M.moment M.faults self.book.disk self.log }
        ensures heard { AllHeard M.heard self.log }
        ensures stays { StaysOpened D.told M.opening M.stood self.book.disk }
    {
        let NotedBook {
            chronicle,
            notes,
            halted,
            spare: _,
            of: _,
        } = self;
        (Box::into_inner(chronicle), notes, halted)
    }
}
