ghost use Rattle.std.specs.Prelude.{◌≡◌};
ghost use Rattle.order_policy.specs.Answers.{rank_by};
ghost use Rattle.rollout_book.specs.Aliens.{told_by};
ghost use Rattle.turn_lock.specs.Passes.{IsPassOf, IsSamePass, seat_of_pass, seats_of, seen_of};
ghost use Rattle.shared_book.specs.Calls.{IsCounted};
ghost use Rattle.shared_book.specs.Lasting.{CountsAsHeard};
ghost use Rattle.controller_run.specs.Settling.{IsLateSettled, IsSettled};

use crate::round_end::RoundEnd;
use disk_model::Disk;
use port_session::PortAnswers;
use shared_book::{BookPass, Cause, Marker, RoundReply, SharedBook, Wake};
use std::sync::Wait;
use switch_ports::WorkerPorts;
use wan_edge::Port;

/// Hands the answers that a round has heard to the book, in whose round a command was offered or none.
pub(crate) fn settle<'d, R: Wait, D: Disk, M: Marker, T: Port>(
    rt: &R,
    book: &SharedBook<'d, D, M>,
    pass: BookPass<D, M>,
    heard: PortAnswers<T>,
    offered: bool,
) -> (BookPass<D, M>, RoundEnd)
    requires lock { IsPassOf book.now.lock pass.pass }
    requires policy { M.opening.policy ≡ rank_by book.now.policy.now.answers }
    requires calls { IsCounted pass.calls pass.pass }
    requires told { CountsAsHeard T.told heard.migration M.heard }
    ensures lock { IsPassOf book.now.lock result.0.pass }
    ensures pass { IsSamePass pass.pass result.0.pass }
    ensures calls { IsCounted result.0.calls result.0.pass }
    ensures settled { IsSettled M.opening (seats_of pass.pass) (seat_of_pass pass.pass)
        (seen_of pass.pass) (told_by heard.answers) offered result.1 (seen_of result.0.pass) }
{
    let (pass, reply) = book.round(rt, pass, heard);
    let outcome = match reply {
        RoundReply::Turned(_) => RoundEnd::Whole { offered },
        RoundReply::Stopped(halt) => RoundEnd::Ended(Wake::Stopped(halt)),
        RoundReply::Refused(fault) => RoundEnd::Stops(Cause::from(fault)),
        RoundReply::Memory => RoundEnd::Stops(Cause::Memory),
    };
    (pass, outcome)
}

/// The same of a round in which nothing was offered, since switches are late. Where none answered the book is
/// told nothing, and the worker rests a moment.
pub(crate) fn settle_late<'d, R: Wait, D: Disk, M: Marker, T: Port>(
    rt: &R,
    book: &SharedBook<'d, D, M>,
    pass: BookPass<D, M>,
    ports: &WorkerPorts<T>,
    heard: PortAnswers<T>,
) -> (BookPass<D, M>, RoundEnd)
    requires lock { IsPassOf book.now.lock pass.pass }
    requires policy { M.opening.policy ≡ rank_by book.now.policy.now.answers }
    requires calls { IsCounted pass.calls pass.pass }
    requires told { CountsAsHeard T.told heard.migration M.heard }
    ensures lock { IsPassOf book.now.lock result.0.pass }
    ensures pass { IsSamePass pass.pass result.0.pass }
    ensures calls { IsCounted result.0.calls result.0.pass }
    ensures settled { IsLateSettled M.opening (seats_of pass.pass) (seat_of_pass pass.pass)
        (seen_of pass.pass) heard.answers result.1 (seen_of result.0.pass) }
{
    if heard.answers().is_empty() {
        ports.rest();
        return (pass, RoundEnd::Whole { offered: false });
    }
    settle(rt, book, pass, heard, false)
}
