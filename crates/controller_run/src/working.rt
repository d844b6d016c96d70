ghost use Rattle.std.specs.Prelude.{◌≡◌, ◌⊎◌, ◌<◌, All, IsTrue, List};
ghost use Rattle.order_policy.specs.Answers.{rank_by};
ghost use Rattle.turn_lock.specs.Passes.{IsPassOf, IsSamePass, seat_of_pass, seats_of, seen_of};
ghost use Rattle.shared_book.specs.Calls.{IsCounted};
ghost use Rattle.shared_book.specs.Homes.{homes_of};
ghost use Rattle.shared_book.specs.Lasting.{CountsAsHeard};
ghost use Rattle.switch_ports.specs.Due.{AreApart, LeavesAlone, any_late, due_of};
ghost use Rattle.controller_run.specs.Working.{IsWorked, OnOffered, OnWhole, Settles, Untold};

use crate::exchanging::exchange;
use crate::finding::{Found, find_work};
use crate::hearing::hear_late;
use crate::round_end::RoundEnd;
use crate::settling::settle;
use disk_model::Disk;
use shared_book::{BookPass, Cause, Listed, Marker, SharedBook};
use std::alloc::Global;
use std::sync::Wait;
use switch_ports::WorkerPorts;
use wan_edge::Port;

/// What a worker's rounds are given: where each item's home is, in which migration commands go out, and how
/// many rounds may offer some.
#[derive(Clone, Copy)]
pub struct WorkerOptions<'h> {
    pub homes: &'h [Option<u32>],
    pub migration: u32,
    pub rounds: u32,
}

/// One round of a worker, which has so many rounds left: it looks for work of the switches that are due, has
/// their commands listed, offers them before it hears at the first port, and hands the book what all ports
/// told. Switches that are late are left alone; where nothing else is to do and none answers, it rests a
/// moment.
pub(crate) fn work<'d, R: Wait, D: Disk, M: Marker, T: Port>(
    rt: &R,
    alloc: Global,
    book: &SharedBook<'d, D, M>,
    pass: BookPass<D, M>,
    ports: &mut WorkerPorts<T>,
    terms: WorkerOptions<'_>,
    left: u32,
) -> (BookPass<D, M>, RoundEnd)
    requires lock { IsPassOf book.now.lock pass.pass }
    requires homes { book.now.homes ≡ homes_of M.opening.rollout.problem }
    requires policy { M.opening.policy ≡ rank_by book.now.policy.now.answers }
    requires calls { IsCounted pass.calls pass.pass }
    requires live { All (λ s. IsTrue s.stream.live) ports.old }
    requires home { terms.homes.now ≡ homes_of M.opening.rollout.problem }
    requires migration { terms.migration ≡ M.migration }
    requires told { CountsAsHeard T.told terms.migration M.heard }
    ensures lock { IsPassOf book.now.lock result.0.pass }
    ensures pass { IsSamePass pass.pass result.0.pass }
    ensures calls { IsCounted result.0.calls result.0.pass }
    ensures live { OnWhole result.1 (All (λ s. IsTrue s.stream.live) ports.new) }
    ensures some_left { OnOffered result.1 (0 < left) }
    ensures worked { IsWorked T.told
        (record {
          opening = M.opening;
          seats = seats_of pass.pass;
          seat = seat_of_pass pass.pass;
          switches = due_of ports.old;
          late = any_late ports.old;
        }) terms.entry.migration terms.entry.homes.now left
        terms.entry.rounds (record { seen = seen_of pass.pass; ports = ports.old }) result.1
        (record { seen = seen_of result.0.pass; ports = ports.new }) }
{
    match ports.due(alloc) {
        Ok(due) => work_at(rt, alloc, book, pass, ports, terms, left, due.as_slice()),
        Err(_) => (pass, RoundEnd::Stops(Cause::Memory)),
    }
}

// One round, where these switches are due.
fn work_at<'d, R: Wait, D: Disk, M: Marker, T: Port>(
    rt: &R,
    alloc: Global,
    book: &SharedBook<'d, D, M>,
    pass: BookPass<D, M>,
    ports: &mut WorkerPorts<T>,
    terms: WorkerOptions<'_>,
    left: u32,
    due: &[u32],
) -> (BookPass<D, M>, RoundEnd)
    requires lock { IsPassOf book.now.lock pass.pass }
    requires homes { book.now.homes ≡ homes_of M.opening.rollout.problem }
    requires policy { M.opening.policy ≡ rank_by book.now.policy.now.answers }
    requires calls { IsCounted pass.calls pass.pass }
    requires live { All (λ s. IsTrue s.stream.live) ports.old }
    requires home { terms.homes.now ≡ homes_of M.opening.rollout.problem }
    requires migration { terms.migration ≡ M.migration }
    requires told { CountsAsHeard T.told terms.migration M.heard }
    requires due { due.now ≡ due_of ports.old }
    requires apart { AreApart due.now ports.old }
    ensures lock { IsPassOf book.now.lock result.0.pass }
    ensures pass { IsSamePass pass.pass result.0.pass }
    ensures calls { IsCounted result.0.calls result.0.pass }
    ensures live { OnWhole result.1 (All (λ s. IsTrue s.stream.live) ports.new) }
    ensures some_left { OnOffered result.1 (0 < left) }
    ensures worked { IsWorked T.told
        (record {
          opening = M.opening;
          seats = seats_of pass.pass;
          seat = seat_of_pass pass.pass;
          switches = due_of ports.old;
          late = any_late ports.old;
        }) terms.entry.migration terms.entry.homes.now left
        terms.entry.rounds (record { seen = seen_of pass.pass; ports = ports.old }) result.1
        (record { seen = seen_of result.0.pass; ports = ports.new }) }
{
    let late = due.len() < ports.switches().len();
    let mut commands = Listed::new(alloc);
    let (pass, found) = find_work(rt, alloc, book, pass, due, late, left, &mut commands);
    match found {
        Found::Spent(op) => {
            let spent = Cause::Spent {
                rounds: terms.rounds,
                item: op.item,
                number: op.number,
            };
            (pass, RoundEnd::Stops(spent))
        }
        Found::Work(_) => carry_out(rt, alloc, book, pass, ports, terms, commands),
        Found::Later => hear_late(rt, alloc, book, pass, ports, terms, commands),
        Found::Ended(end) => (pass, RoundEnd::Ended(end)),
        Found::Memory => (pass, RoundEnd::Stops(Cause::Memory)),
    }
}

// Offers these commands, which a turn of the book has listed, hears, and hands the book what was told.
fn carry_out<'d, R: Wait, D: Disk, M: Marker, T: Port>(
    rt: &R,
    alloc: Global,
    book: &SharedBook<'d, D, M>,
    pass: BookPass<D, M>,
    ports: &mut WorkerPorts<T>,
    terms: WorkerOptions<'_>,
    commands: Listed<D, M>,
) -> (BookPass<D, M>, RoundEnd)
    requires lock { IsPassOf book.now.lock pass.pass }
    requires policy { M.opening.policy ≡ rank_by book.now.policy.now.answers }
    requires calls { IsCounted pass.calls pass.pass }
    requires live { All (λ s. IsTrue s.stream.live) ports.old }
    requires home { terms.homes.now ≡ homes_of M.opening.rollout.problem }
    requires migration { terms.migration ≡ M.migration }
    requires told { CountsAsHeard T.told terms.migration M.heard }
    requires alone { LeavesAlone terms.homes.now commands ports.old }
    ensures lock { IsPassOf book.now.lock result.0.pass }
    ensures pass { IsSamePass pass.pass result.0.pass }
    ensures calls { IsCounted result.0.calls result.0.pass }
    ensures live { OnWhole result.1 (All (λ s. IsTrue s.stream.live) ports.new) }
    ensures carried_out { Settles T.told M.opening (seats_of pass.pass) (seat_of_pass pass.pass)
        terms.entry.migration terms.entry.homes.now commands
        (record { seen = seen_of pass.pass; ports = ports.old }) result.1
        (record { seen = seen_of result.0.pass; ports = ports.new })
        ⊎ Untold T.told
        terms.entry.migration terms.entry.homes.now commands
        (record { seen = seen_of pass.pass; ports = ports.old }) result.1
        (record { seen = seen_of result.0.pass; ports = ports.new }) }
{
    let offered = !commands.commands().is_empty();
    match exchange(alloc, ports, &commands, terms.homes, terms.migration) {
        Ok(heard) => settle(rt, book, pass, heard, offered),
        Err(cause) => (pass, RoundEnd::Stops(cause)),
    }
}
