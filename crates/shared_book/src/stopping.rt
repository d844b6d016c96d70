ghost use Rattle.std.specs.Prelude.{◌≡◌, ◌<◌, ◌++◌, ◌&&◌, ◌==◌, [], ◌∷◌, IsTrue, if◌then◌else◌};
ghost use Rattle.std.specs.List.{list_any};
ghost use Rattle.shared_book.specs.Legal.{is_legal_shared};
ghost use Rattle.shared_book.specs.Notes as stops;
ghost use Rattle.shared_book.specs.Knows.{next_note};
ghost use Rattle.shared_book.specs.Replies.{stop_reply};
ghost use Rattle.shared_book.specs.declared.note.What.TheVariants as said;

use crate::marker::Marker;
use crate::noted_book::NotedBook;
use crate::noting::write;
use crate::{Cause, Halt, Note, What};
use disk_model::Disk;

impl<D: Disk, M: Marker> NotedBook<D, M> {
    /// A seat asks that all stop, as its call of this number. It is told the first stop, which is this one
    /// where there was none. It takes no memory, and the second time it adds no note. Time: the notes.
    pub fn stop(&mut self, seat: u32, call: u64, cause: Cause) -> Halt
        requires seat { seat < M.seats }
        requires call { call ≡ stops.calls_by seat self.old.log }
        ensures legal { IsTrue (is_legal_shared M.opening self.new.log) }
        ensures log { self.new.log
            ≡ (if stops.has_asked seat self.old.log then self.old.log else self.old.log
            ++ next_note seat self.old.log (said.Stop cause) []
            ∷ []) }
        ensures told { result ≡ stop_reply self.old.log seat cause }
        ensures book { self.new.book ≡ self.old.book }
    {
        let own = Halt { seat, call, cause };
        let first = self.halted.unwrap_or(own);
        if !has_asked(self.notes.as_slice(), seat) {
            write(
                &mut self.notes,
                &mut self.halted,
                Note {
                    seat,
                    call,
                    what: What::Stop(cause),
                },
            );
            self.spare -= 1;
        }
        first
    }
}

// Whether a seat has asked that all stop.
fn has_asked(notes: &[Note], seat: u32) -> bool
    ensures { result ≡ list_any (λ n. (n.seat == seat) && stops.asks_to_stop n.what) notes.now }
{
    for note in notes {
        if note.seat == seat && asks_to_stop(note.what) {
            return true;
        }
    }
    false
}

fn asks_to_stop(what: What) -> bool
    ensures { result ≡ stops.asks_to_stop what }
{
    match what {
        What::Stop(_) => true,
        _ => false,
    }
}
