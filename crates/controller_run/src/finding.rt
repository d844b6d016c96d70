ghost use Rattle.std.specs.Prelude.{◌≡◌, [], IsTrue, false};
ghost use Rattle.turn_lock.specs.Passes.{IsPassOf, IsSamePass, seat_of_pass, seats_of, seen_of};
ghost use Rattle.shared_book.specs.Calls.{IsCounted};
ghost use Rattle.shared_book.specs.Homes.{homes_of};
ghost use Rattle.controller_run.specs.Finding.{IsFound, IsListed};

use disk_model::Disk;
use rollout_rules::Op;
use shared_book::{BookPass, ListReply, Listed, Marker, SharedBook, Wake};
use std::alloc::Global;
use std::sync::Wait;

/// What a worker finds to do.
#[derive(Clone, Copy, Debug, Drop, PartialEq, Eq)]
pub enum Found {
    /// The first operation in flight of its due switches, whose commands are listed.
    Work(Op),
    /// This operation of its switches is in flight, none of them is late, and no round is left. No commands
    /// are listed.
    Spent(Op),
    /// Some of its switches are late. Of the others nothing is in flight, or no round is left. No commands
    /// are listed.
    Later,
    /// Nothing any more, for this reason.
    Ended(Wake),
    /// Memory ran out.
    Memory,
}

/// Finds work of these switches, which are due, and lists their commands where a round is left. Where others
/// are late it only looks, and else it waits until an operation is in flight.
pub(crate) fn find_work<'d, R: Wait, D: Disk, M: Marker>(
    rt: &R,
    alloc: Global,
    book: &SharedBook<'d, D, M>,
    pass: BookPass<D, M>,
    switches: &[u32],
    late: bool,
    left: u32,
    commands: &mut Listed<D, M>,
) -> (BookPass<D, M>, Found)
    requires lock { IsPassOf book.now.lock pass.pass }
    requires homes { book.now.homes ≡ homes_of M.opening.rollout.problem }
    requires calls { IsCounted pass.calls pass.pass }
    requires fresh { commands.old ≡ [] }
    ensures lock { IsPassOf book.now.lock result.0.pass }
    ensures pass { IsSamePass pass.pass result.0.pass }
    ensures calls { IsCounted result.0.calls result.0.pass }
    ensures found { IsFound (record {
      opening = M.opening;
      seats = seats_of pass.pass;
      seat = seat_of_pass pass.pass;
      switches = switches.now;
      late = late;
    }) left (seen_of pass.pass) commands.new result.1
        (seen_of result.0.pass) }
{
    if late {
        return look_for_work(rt, alloc, book, pass, switches, late, left, commands);
    }
    let (pass, woken) = book.wait_work(rt, pass, switches);
    match woken {
        Wake::Work(op) if left == 0 => (pass, Found::Spent(op)),
        Wake::Work(op) => list_work(rt, alloc, book, pass, switches, op, commands),
        Wake::Memory => (pass, Found::Memory),
        end => (pass, Found::Ended(end)),
    }
}

// The same where others are late: it looks once, and where no round is left it doesn't look.
fn look_for_work<'d, R: Wait, D: Disk, M: Marker>(
    rt: &R,
    alloc: Global,
    book: &SharedBook<'d, D, M>,
    pass: BookPass<D, M>,
    switches: &[u32],
    late: bool,
    left: u32,
    commands: &mut Listed<D, M>,
) -> (BookPass<D, M>, Found)
    requires lock { IsPassOf book.now.lock pass.pass }
    requires homes { book.now.homes ≡ homes_of M.opening.rollout.problem }
    requires calls { IsCounted pass.calls pass.pass }
    requires fresh { commands.old ≡ [] }
    requires late { IsTrue late }
    ensures lock { IsPassOf book.now.lock result.0.pass }
    ensures pass { IsSamePass pass.pass result.0.pass }
    ensures calls { IsCounted result.0.calls result.0.pass }
    ensures found { IsFound (record {
      opening = M.opening;
      seats = seats_of pass.pass;
      seat = seat_of_pass pass.pass;
      switches = switches.now;
      late = late;
    }) left (seen_of pass.pass) commands.new result.1
        (seen_of result.0.pass) }
{
    if left == 0 {
        return (pass, Found::Later);
    }
    let (pass, looked) = book.look(rt, pass, switches);
    match looked {
        None => (pass, Found::Later),
        Some(Wake::Work(op)) => list_work(rt, alloc, book, pass, switches, op, commands),
        Some(Wake::Finished) => (pass, Found::Ended(Wake::Finished)),
        Some(Wake::Held) => (pass, Found::Ended(Wake::Held)),
        Some(Wake::Stopped(halt)) => (pass, Found::Ended(Wake::Stopped(halt))),
        Some(Wake::Memory) => (pass, Found::Memory),
    }
}

// Lists the commands of these switches, where this operation of theirs was in flight.
fn list_work<'d, R: Wait, D: Disk, M: Marker>(
    rt: &R,
    alloc: Global,
    book: &SharedBook<'d, D, M>,
    pass: BookPass<D, M>,
    switches: &[u32],
    op: Op,
    commands: &mut Listed<D, M>,
) -> (BookPass<D, M>, Found)
    requires lock { IsPassOf book.now.lock pass.pass }
    requires calls { IsCounted pass.calls pass.pass }
    requires fresh { commands.old ≡ [] }
    ensures lock { IsPassOf book.now.lock result.0.pass }
    ensures pass { IsSamePass pass.pass result.0.pass }
    ensures calls { IsCounted result.0.calls result.0.pass }
    ensures listed { IsListed (record {
      opening = M.opening;
      seats = seats_of pass.pass;
      seat = seat_of_pass pass.pass;
      switches = switches.now;
      late = false;
    }) op (seen_of pass.pass) commands.new result.1
        (seen_of result.0.pass) }
{
    let (pass, reply) = book.commands(rt, alloc, pass, switches, commands);
    match reply {
        ListReply::Listed => (pass, Found::Work(op)),
        ListReply::Stopped(halt) => (pass, Found::Ended(Wake::Stopped(halt))),
        ListReply::Memory => (pass, Found::Memory),
    }
}
