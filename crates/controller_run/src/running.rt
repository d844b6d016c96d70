//! A rollout over a fleet.
ghost use Rattle.std.specs.Prelude.{◌≡◌, ◌<◌, ◌≤◌, ℕ, IfSome, IsPermutation, length, map, max, vec_capacity};
ghost use Rattle.wan_edge.specs.Streams.{Rose};
ghost use Rattle.wan_edge.specs.Fleets.{GuestsStay};
ghost use Rattle.order_policy.specs.Answers.{rank_by};
ghost use Rattle.rollout_book.specs.Lists.{IsKeptList};
ghost use Rattle.shared_book.specs.Images.{StaysOpened};
ghost use Rattle.shared_book.specs.Opened.{IsOpened, opening_of};
ghost use Rattle.switch_ports.specs.Berths.{AreApart, AreLent, ports_of};
ghost use Rattle.switch_ports.specs.Hands.{first_sessions};
ghost use Rattle.switch_ports.specs.Homes.{working_homes};
ghost use Rattle.controller_run.specs.Ran.{EndsRun, IsOver, Ran};
ghost use Rattle.controller_run.specs.Runs.{IsRun, Runs};
ghost use Rattle.controller_run.specs.Workers.{AreWorkers, workers_ports};

use crate::end::RunEnd;
use crate::leading::{Ended, run_named};
use crate::workers::{Workers, keep_all_ports};
use disk_model::Disk;
use rollout_book::Book;
use std::alloc::Global;
use std::marker::Brand;
use std::sync::Wait;
use std::thread::Threads;
use switch_ports::{Berth, NotOpened, keep_ports, open_ports};
use wan_edge::{Fleet, Port};

/// How a rollout is run: by how many workers at most, at least one; in how many rounds each of them may offer
/// commands; and the number of the migration in which they go out.
#[derive(Clone, Copy, Debug)]
pub struct Limits {
    pub workers: u32,
    pub rounds: u32,
    pub migration: u32,
}

/// Runs a rollout from what its book has found. A port is opened to each switch at which there is work; a
/// first round begins what may begin; and the ports, dealt to workers in threads of their own and to the
/// caller, are served in rounds until every operation is settled, the rest is held back, or the run is
/// stopped. Where a thread can't be started the caller serves its ports beside its own. Then the ports are
/// given back. The book comes back with every answer; its disk keeps the owner of its journal, from before the
/// opening on.
#[tactic(auto, using(shared_book::proofs::Staying::stays_alone))]
pub fn run<'d, R, D, F>(
    rt: &R,
    alloc: Global,
    book: Book<'d, D>,
    fleet: &mut F,
    limits: Limits,
) -> (Book<'d, D>, RunEnd)
where
    R: Wait + Threads + Sync,
    D: Disk + Drop + Send,
    F: Fleet,
    F::Port: Drop + Send,
    requires opened { IsOpened (opening_of book.chronicle (rank_by book.policy.now.answers))
        book.chronicle }
    requires has { IfSome (D.told book.chronicle.disk).bytes
        (IsKeptList book.chronicle.history.start book.chronicle.entries
        (D.told book.chronicle.disk).may_leave) }
    ensures ran { EndsRun F.Port.told
        (working_homes book.entry.chronicle.rollout.problem book.entry.chronicle.rollout.plan)
        book.entry.chronicle result.0.chronicle (ports_of (F.told fleet.old))
        (ports_of (F.told fleet.new))
        (Ran D.told F.Port.told
        (opening_of book.entry.chronicle (rank_by book.entry.policy.now.answers))
        (D.told book.entry.chronicle.disk).moment (D.told book.entry.chronicle.disk).faults
        limits.migration limits.rounds
        (working_homes book.entry.chronicle.rollout.problem book.entry.chronicle.rollout.plan)
        (ports_of (F.told fleet.old)) result.1 result.0.chronicle (ports_of (F.told fleet.new)))
        result.1 }
    ensures stays { StaysOpened D.told
        (opening_of book.entry.chronicle (rank_by book.entry.policy.now.answers))
        (D.told book.entry.chronicle.disk) result.0.chronicle.disk }
    ensures guests { GuestsStay (F.told fleet.old) (F.told fleet.new) }
    ensures cause { (switch : ℕ)
        → result.1 ≡ RunEnd.NoPort switch
        → Rose (F.told fleet.old).faults (F.told fleet.new).faults }
    ensures count { (F.told fleet.old).faults ≤ (F.told fleet.new).faults }
{
    match open_ports(alloc, fleet, book.graph().plan()) {
        Ok(berths) => run_over(rt, alloc, book, fleet, berths, limits),
        Err(NotOpened::NoPort(switch)) => (book, RunEnd::NoPort(switch)),
        Err(NotOpened::Memory) => (book, RunEnd::Memory),
    }
}

// Runs over the ports that were opened, and gives them back.
fn run_over<'d, R, D, F>(
    rt: &R,
    alloc: Global,
    book: Book<'d, D>,
    fleet: &mut F,
    berths: Vec<Berth<F::Port>>,
    limits: Limits,
) -> (Book<'d, D>, RunEnd)
where
    R: Wait + Threads + Sync,
    D: Disk + Drop + Send,
    F: Fleet,
    F::Port: Drop + Send,
    requires opened { IsOpened (opening_of book.chronicle (rank_by book.policy.now.answers))
        book.chronicle }
    requires has { IfSome (D.told book.chronicle.disk).bytes
        (IsKeptList book.chronicle.history.start book.chronicle.entries
        (D.told book.chronicle.disk).may_leave) }
    requires apart { AreApart berths.items }
    requires lent { AreLent (F.told fleet.old).lent berths.items }
    ensures ran { IsOver (ports_of (F.told fleet.old)) (ports_of (F.told fleet.new)) berths.items
        result.1
        (λ ports. Runs D.told F.Port.told
        (opening_of book.entry.chronicle (rank_by book.entry.policy.now.answers))
        (D.told book.entry.chronicle.disk).moment (D.told book.entry.chronicle.disk).faults
        limits.migration limits.rounds (first_sessions berths.items) result.1 result.0.chronicle
        ports) (result.0.chronicle ≡ book.entry.chronicle) }
    ensures stays { StaysOpened D.told
        (opening_of book.entry.chronicle (rank_by book.entry.policy.now.answers))
        (D.told book.entry.chronicle.disk) result.0.chronicle.disk }
    ensures guests { GuestsStay (F.told fleet.old) (F.told fleet.new) }
    ensures count { (F.told fleet.old).faults ≤ (F.told fleet.new).faults }
{
    match Workers::of(alloc, berths, limits.workers) {
        Ok(team) => {
            let Ended { book, team, end } = run_workers(rt, alloc, book, team, limits);
            keep_all_ports(fleet, team);
            (book, end)
        }
        Err(berths) => {
            keep_ports(fleet, berths);
            (book, RunEnd::Memory)
        }
    }
}

// Runs over the ports of a team.
fn run_workers<'d, R, D, T>(
    rt: &R,
    alloc: Global,
    book: Book<'d, D>,
    team: Workers<T>,
    limits: Limits,
) -> Ended<'d, D, T>
where
    R: Wait + Threads + Sync,
    D: Disk + Drop + Send,
    T: Port + Drop + Send,
    requires opened { IsOpened (opening_of book.chronicle (rank_by book.policy.now.answers))
        book.chronicle }
    requires has { IfSome (D.told book.chronicle.disk).bytes
        (IsKeptList book.chronicle.history.start book.chronicle.entries
        (D.told book.chronicle.disk).may_leave) }
    requires few { length team.crews.items < max 1 limits.workers }
    requires team { AreWorkers team.own.ports team.own.spare.items (vec_capacity team.own.spare)
        team.crews.items }
    ensures switches { IsPermutation (map (λ t. t.switch)
        (workers_ports team.own.ports team.own.spare.items team.crews.items))
        (map (λ t. t.switch)
        (workers_ports result.team.own.ports result.team.own.spare.items result.team.crews.items)) }
    ensures ran { IsRun result.end
        (Runs D.told T.told
        (opening_of book.entry.chronicle (rank_by book.entry.policy.now.answers))
        (D.told book.entry.chronicle.disk).moment (D.told book.entry.chronicle.disk).faults
        limits.migration limits.rounds
        (workers_ports team.own.ports team.own.spare.items team.crews.items) result.end
        result.book.chronicle
        (workers_ports result.team.own.ports result.team.own.spare.items result.team.crews.items))
        ((result.book.chronicle ≡ book.entry.chronicle)
        × (workers_ports result.team.own.ports result.team.own.spare.items result.team.crews.items
        ≡ workers_ports team.own.ports team.own.spare.items team.crews.items)) }
    ensures stays { StaysOpened D.told
        (opening_of book.entry.chronicle (rank_by book.entry.policy.now.answers))
        (D.told book.entry.chronicle.disk) result.book.chronicle.disk }
{
    run_named::<R, D, Brand, T>(rt, alloc, book, team, limits)
}
