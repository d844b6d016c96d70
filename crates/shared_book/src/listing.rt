ghost use Rattle.std.specs.Prelude.{◌≡◌, ◌++◌, [], IsTrue};
ghost use Rattle.rollout_book.specs.Commands.{commands_of};
ghost use Rattle.shared_book.specs.Legal.{is_legal_shared};
ghost use Rattle.shared_book.specs.Notes.{calls_by, first_stop};
ghost use Rattle.shared_book.specs.Replies.{list_reply};
ghost use Rattle.shared_book.specs.Told.{commands_at, with_noted, list_notes, if_listed, OnListTold, OnListWant};

use crate::listed::Listed;
use crate::marker::Marker;
use crate::noted_book::NotedBook;
use crate::noting::{make_room, write_if};
use crate::{Halt, ListReply, What};
use disk_model::Disk;
use rollout_book::{CommandList, JournaledRounds};
use std::alloc::Global;

impl<D: Disk, M: Marker> NotedBook<D, M> {
    /// Adds the commands of the operations in flight of these switches, by item, as a call of a seat of this
    /// number; none where a stop stands in the history.
    pub fn commands(
        &mut self,
        alloc: Global,
        seat: u32,
        call: u64,
        switches: &[u32],
        out: &mut Listed<D, M>,
    ) -> ListReply
        requires call { call ≡ calls_by seat self.old.log }
        ensures legal { IsTrue (is_legal_shared M.opening self.new.log) }
        ensures log { self.new.log ≡ with_noted seat self.old.log (list_notes result) [] }
        ensures told { OnListTold result (result ≡ list_reply (first_stop self.old.log)) }
        ensures want { OnListWant result (self.new ≡ self.old) }
        ensures out { out.new
            ≡ out.old ++ if_listed result (commands_at M.opening self.old.log switches.now) }
        ensures book { self.new.book ≡ self.old.book }
    {
        if make_room(&mut self.notes, self.spare).is_err() {
            return ListReply::Memory;
        }
        let reply = list_commands(
            &self.chronicle,
            alloc,
            self.halted,
            switches,
            &mut out.commands,
        );
        write_if(
            &mut self.notes,
            &mut self.halted,
            seat,
            call,
            note_of(reply),
        );
        reply
    }
}

// Lists commands, unless a stop has ended the book.
fn list_commands<D: Disk>(
    chronicle: &JournaledRounds<D>,
    alloc: Global,
    halted: Option<Halt>,
    switches: &[u32],
    out: &mut CommandList,
) -> ListReply
    ensures told { OnListTold result (result ≡ list_reply halted) }
    ensures out { out.new ≡ out.old ++ if_listed result (commands_of chronicle.now switches.now) }
{
    if let Some(halt) = halted {
        return ListReply::Stopped(halt);
    }
    match chronicle.commands(alloc, switches, out) {
        Ok(()) => ListReply::Listed,
        Err(_) => ListReply::Memory,
    }
}

// What is noted of a reply.
fn note_of(reply: ListReply) -> Option<What>
    ensures { result ≡ list_notes reply }
{
    match reply {
        ListReply::Listed => Some(What::Listed),
        ListReply::Stopped(_) => Some(What::Stopped),
        ListReply::Memory => None,
    }
}
