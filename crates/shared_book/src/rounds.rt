ghost use Rattle.std.specs.Prelude.{◌≡◌, ◌≤◌, All, true, IsTrue, None};
ghost use Rattle.order_policy.specs.Answers.{rank_by};
ghost use Rattle.rollout_book.specs.Aliens.{told_by};
ghost use Rattle.shared_book.specs.Histories.{history_of};
ghost use Rattle.shared_book.specs.Legal.{is_legal_shared};
ghost use Rattle.shared_book.specs.Notes.{calls_by};
ghost use Rattle.shared_book.specs.Replies.{batch_at};
ghost use Rattle.shared_book.specs.Rounds.{IsRoundOf};
ghost use Rattle.shared_book.specs.Told.{with_noted, round_notes, IsRoundAt, OnFailed, OnWant};
ghost use Rattle.wan_edge.specs.Streams.{Rose};

use crate::marker::Marker;
use crate::noted_book::NotedBook;
use crate::noting::{make_room, write_if};
use crate::reply::RoundReply;
use crate::{Halt, What};
use disk_model::Disk;
use order_policy::Policy;
use rollout_book::{BookFault, JournaledRounds};
use wire_frames::Answer;

impl<D: Disk, M: Marker> NotedBook<D, M> {
    /// A round of a seat, as its call of this number: what the history says that it is told, with the batch
    /// added to the list. Where an answer is alien or the disk fails, that stops all. Memory is wanted for
    /// the place of the note alone, before the round is begun.
    pub fn round(&mut self, policy: &Policy, seat: u32, call: u64, answers: &[Answer]) -> RoundReply
        requires policy { M.opening.policy ≡ rank_by policy.now.answers }
        requires call { call ≡ calls_by seat self.old.log }
        requires heard { All M.heard answers.now }
        ensures legal { IsTrue (is_legal_shared M.opening self.new.log) }
        ensures log { self.new.log
            ≡ with_noted seat self.old.log (round_notes result)
            (batch_at M.opening (history_of M.opening self.old.log) (told_by answers.now)) }
        ensures told { IsRoundAt M.opening self.old.log (told_by answers.now) result }
        ensures want { OnWant result (self.new ≡ self.old) }
        ensures cause { OnFailed result
            (Rose (D.told self.old.book.disk).faults (D.told self.new.book.disk).faults) }
        ensures count { (D.told self.old.book.disk).faults ≤ (D.told self.new.book.disk).faults }
    {
        if make_room(&mut self.notes, self.spare).is_err() {
            return RoundReply::Memory;
        }
        let reply = make_round(&mut self.chronicle, self.halted, policy, answers);
        write_if(
            &mut self.notes,
            &mut self.halted,
            seat,
            call,
            note_of(reply),
        );
        reply
    }
}

// A round of a book, unless a stop has ended it.
fn make_round<D: Disk>(
    chronicle: &mut JournaledRounds<D>,
    halted: Option<Halt>,
    policy: &Policy,
    answers: &[Answer],
) -> RoundReply
    requires { halted ≡ None → chronicle.old.live ≡ true }
    ensures { IsRoundOf D.told halted (rank_by policy.now.answers) answers.now chronicle.old result
        chronicle.new }
{
    if let Some(halt) = halted {
        return RoundReply::Stopped(halt);
    }
    match chronicle.round(policy, answers) {
        Ok(turn) => RoundReply::Turned(turn),
        Err(fault) => RoundReply::Refused(fault),
    }
}

// What is noted of a reply.
fn note_of(reply: RoundReply) -> Option<What>
    ensures { result ≡ round_notes reply }
{
    match reply {
        RoundReply::Turned(turn) => Some(What::Turned {
            dones: turn.dones,
            begins: turn.begins,
        }),
        RoundReply::Refused(BookFault::Alien { item, held, begun }) => {
            Some(What::Alien { item, held, begun })
        }
        RoundReply::Refused(BookFault::Disk) => Some(What::Disk),
        RoundReply::Stopped(_) => Some(What::Stopped),
        RoundReply::Memory => None,
    }
}
