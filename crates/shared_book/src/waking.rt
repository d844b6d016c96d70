ghost use Rattle.std.specs.Prelude.{◌≡◌, [], slice_index_or, IsTrue, None};
ghost use Rattle.std.specs.List.{filter};
ghost use Rattle.shared_book.specs.Legal.{is_legal_shared};
ghost use Rattle.shared_book.specs.Notes.{calls_by};
ghost use Rattle.shared_book.specs.Replies.{is_among, wake_reply, wake_says};
ghost use Rattle.shared_book.specs.Homes.{homes_of};
ghost use Rattle.shared_book.specs.Told.{with_noted};
ghost use Rattle.shared_book.specs.Waking.{first_of, wake_notes, wake_of, OnLook, OnUnnoted};

use crate::homes::home_in;
use crate::marker::Marker;
use crate::noted_book::NotedBook;
use crate::noting::{make_room, write_if};
use crate::{Halt, Wake, What};
use disk_model::Disk;
use rollout_book::JournaledRounds;
use rollout_rules::Op;

impl<D: Disk, M: Marker> NotedBook<D, M> {
    /// A look of a seat that waits for work of these switches, as its call of this number: the first of
    /// their operations in flight, by item; that all is settled; that nothing is in flight before that; or
    /// the first stop. None where only operations of others are in flight: then nothing is noted, and the
    /// seat is to look again when there are more notes. Time: for each operation in flight, the switches.
    pub fn look(
        &mut self,
        homes: &[Option<u32>],
        seat: u32,
        call: u64,
        switches: &[u32],
    ) -> Option<Wake>
        requires homes { homes.now ≡ homes_of M.opening.rollout.problem }
        requires call { call ≡ calls_by seat self.old.log }
        ensures legal { IsTrue (is_legal_shared M.opening self.new.log) }
        ensures log { self.new.log ≡ with_noted seat self.old.log (wake_notes result) [] }
        ensures told { OnLook result (result ≡ wake_reply M.opening self.old.log switches.now) }
        ensures want { OnUnnoted (wake_notes result) (self.new ≡ self.old) }
        ensures book { self.new.book ≡ self.old.book }
    {
        let Some(woken) = end_of_wait(&self.chronicle, homes, self.halted, switches) else {
            return None;
        };
        if make_room(&mut self.notes, self.spare).is_err() {
            return Some(Wake::Memory);
        }
        write_if(
            &mut self.notes,
            &mut self.halted,
            seat,
            call,
            note_of(woken),
        );
        Some(woken)
    }
}

// What a wait of these switches ends with, if it ends.
fn end_of_wait<D: Disk>(
    chronicle: &JournaledRounds<D>,
    homes: &[Option<u32>],
    halted: Option<Halt>,
    switches: &[u32],
) -> Option<Wake>
    requires { homes.now ≡ homes_of chronicle.now.rollout.problem }
    ensures { result ≡ wake_of chronicle.now halted switches.now }
{
    if let Some(halt) = halted {
        return Some(Wake::Stopped(halt));
    }
    if let Some(op) = first_asked(chronicle.flying(), homes, switches) {
        return Some(Wake::Work(op));
    }
    if chronicle.finished() {
        return Some(Wake::Finished);
    }
    if chronicle.flying().is_empty() {
        return Some(Wake::Held);
    }
    None
}

// The first of some operations whose home is among these switches.
fn first_asked(ops: &[Op], homes: &[Option<u32>], switches: &[u32]) -> Option<Op>
    ensures { result
        ≡ first_of (filter (λ op. is_among switches.now (slice_index_or homes.now op.item None))
        ops.now) }
{
    for op in ops {
        if is_asked(homes, op.item, switches) {
            return Some(*op);
        }
    }
    None
}

fn is_asked(homes: &[Option<u32>], item: u32, switches: &[u32]) -> bool
    ensures { result ≡ is_among switches.now (slice_index_or homes.now item None) }
{
    match home_in(homes, item) {
        Some(home) => switches.contains(&home),
        None => false,
    }
}

// What is noted of a wake.
fn note_of(woken: Wake) -> Option<What>
    ensures { result ≡ wake_says woken }
{
    match woken {
        Wake::Work(_) => Some(What::Work),
        Wake::Finished => Some(What::Finished),
        Wake::Held => Some(What::Held),
        Wake::Stopped(_) => Some(What::Stopped),
        Wake::Memory => None,
    }
}
