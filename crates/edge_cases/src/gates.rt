//! Ports that answer only while two threads hear at once.
ghost use Rattle.std.specs.Prelude.{◌≡◌};

use controller_run::{Limits, RolloutResult, RunEnd, RunOutcome, run_rollout};
use disk_model::{Disk, MemoryDisk};
use fixtures::{plan_of_document, two_flows};
use intent_journal::Unopened;
use lists::{Memory, Text};
use lossy_link::{Gate, GatedPort, MemoryFleet};
use order_policy::Policy;
use std::alloc::Global;
use std::sync::Wait;
use std::test::Fail;
use std::thread::Threads;
use wan_edge::{Fleet, Nums8, Turns};
use wan_model::{CheckedPlan, OpView};

// Four such flows, at the switches with the numbers 0 to 3.
fn four() -> &'static str {
    "{\"plan\":{\"scale\":1,\"stages\":[{\"installed\":[true,true,true,true,true,true,true,true],\"rates\":[4,0,4,0,4,0,4,0]},{\"installed\":[true,true,true,true,true,true,true,true],\"rates\":[1,3,1,3,1,3,1,3]}]},\"problem\":{\"flows\":[{\"name\":\"f\",\"tunnels\":[{\"new\":1,\"old\":4,\"path\":[\"A\",\"X\"]},{\"new\":3,\"old\":0,\"path\":[\"A\",\"Y\",\"X\"]}]},{\"name\":\"g\",\"tunnels\":[{\"new\":1,\"old\":4,\"path\":[\"B\",\"X\"]},{\"new\":3,\"old\":0,\"path\":[\"B\",\"Y\",\"X\"]}]},{\"name\":\"h\",\"tunnels\":[{\"new\":1,\"old\":4,\"path\":[\"C\",\"X\"]},{\"new\":3,\"old\":0,\"path\":[\"C\",\"Y\",\"X\"]}]},{\"name\":\"i\",\"tunnels\":[{\"new\":1,\"old\":4,\"path\":[\"D\",\"X\"]},{\"new\":3,\"old\":0,\"path\":[\"D\",\"Y\",\"X\"]}]}],\"links\":[{\"capacity\":20,\"from\":\"A\",\"to\":\"X\"},{\"capacity\":20,\"from\":\"A\",\"to\":\"Y\"},{\"capacity\":20,\"from\":\"Y\",\"to\":\"X\"},{\"capacity\":20,\"from\":\"B\",\"to\":\"X\"},{\"capacity\":20,\"from\":\"B\",\"to\":\"Y\"},{\"capacity\":20,\"from\":\"C\",\"to\":\"X\"},{\"capacity\":20,\"from\":\"C\",\"to\":\"Y\"},{\"capacity\":20,\"from\":\"D\",\"to\":\"X\"},{\"capacity\":20,\"from\":\"D\",\"to\":\"Y\"}],\"switches\":[{\"name\":\"A\",\"table\":8},{\"name\":\"B\",\"table\":8},{\"name\":\"C\",\"table\":8},{\"name\":\"D\",\"table\":8},{\"name\":\"X\",\"table\":8},{\"name\":\"Y\",\"table\":8}]}}"
}

// The name of a switch with a port.
fn name_of(switch: u32) -> &'static str {
    match switch {
        0 => "A",
        1 => "B",
        2 => "C",
        _ => "D",
    }
}

// Puts a port where this switch waits, under its name.
fn put(
    alloc: Global,
    fleet: &mut MemoryFleet<GatedPort>,
    switch: u32,
    port: GatedPort,
) -> Result<(), Memory> {
    fleet.put(switch, port)?;
    fleet.call(
        switch,
        Text::from(String::from_str(alloc, name_of(switch))?),
    )
}

// Puts the ports of the two halves of a gate where these switches wait.
fn put_gate(
    alloc: Global,
    fleet: &mut MemoryFleet<GatedPort>,
    switches: [u32; 2],
) -> Result<(), Fail> {
    let (first, second) = Gate::new(alloc)?;
    put(alloc, fleet, switches[0], GatedPort::new(alloc, first))?;
    put(alloc, fleet, switches[1], GatedPort::new(alloc, second))?;
    Ok(())
}

// By how many workers a rollout is made, and in how many rounds each may offer commands.
#[derive(Clone, Copy)]
struct Workload {
    workers: u32,
    rounds: u32,
}

// How the rollout of a document goes over the ports of a fleet, by item.
fn rolled_out<R: Wait + Threads + Sync>(
    rt: &R,
    alloc: Global,
    text: &str,
    crew: Workload,
    fleet: &mut MemoryFleet<GatedPort>,
) -> Result<RunOutcome, Fail> {
    let by_item: Box<dyn Fn(OpView) -> u64 + Send + Sync> = Box::new(
        alloc,
        |view: OpView| -> u64
            ensures { result ≡ view.item }
        { u64::from(view.item) },
    )?;
    let policy = Policy::new(by_item);
    rolled_by(rt, alloc, text, &policy, crew, fleet)
}

// The same by a policy, from a blank disk.
fn rolled_by<R: Wait + Threads + Sync>(
    rt: &R,
    alloc: Global,
    text: &str,
    policy: &Policy,
    crew: Workload,
    fleet: &mut MemoryFleet<GatedPort>,
) -> Result<RunOutcome, Fail> {
    let plan = plan_of_document(alloc, text)?;
    let disk = MemoryDisk::new(alloc, Nums8::new(alloc), Turns::new(alloc));
    outcome_of(rolled_over(rt, alloc, plan, policy, crew, disk, fleet))
}

// Over any disk and any fleet.
fn rolled_over<R: Wait + Threads + Sync, D: Disk + Drop + Send, F: Fleet>(
    rt: &R,
    alloc: Global,
    plan: CheckedPlan,
    policy: &Policy,
    crew: Workload,
    disk: D,
    fleet: &mut F,
) -> Result<RolloutResult<D>, Unopened<D>>
where
    F::Port: Drop + Send,
{
    let limits = Limits {
        workers: crew.workers,
        rounds: crew.rounds,
        migration: 0,
    };
    run_rollout(rt, alloc, plan, policy, limits, disk, fleet)
}

// What the run has come to; the disk goes.
fn outcome_of<D: Drop>(rolled: Result<RolloutResult<D>, Unopened<D>>) -> Result<RunOutcome, Fail> {
    match rolled {
        Ok(rolled) => {
            let RolloutResult { disk, outcome } = rolled;
            drop(disk);
            Ok(outcome)
        }
        Err(unopened) => {
            let Unopened { disk, cause } = unopened;
            drop(disk);
            Err(Fail::from(cause))
        }
    }
}

// How a rollout goes over ports of which the two of each of these pairs wait at a gate.
fn run_at_gates<R: Wait + Threads + Sync>(
    rt: &R,
    alloc: Global,
    text: &str,
    crew: Workload,
    gates: &[[u32; 2]],
) -> Result<RunOutcome, Fail> {
    let mut fleet = MemoryFleet::new(alloc);
    let outcome = met_over(rt, alloc, text, crew, gates, &mut fleet);
    drop(fleet);
    outcome
}

fn met_over<R: Wait + Threads + Sync>(
    rt: &R,
    alloc: Global,
    text: &str,
    crew: Workload,
    gates: &[[u32; 2]],
    fleet: &mut MemoryFleet<GatedPort>,
) -> Result<RunOutcome, Fail> {
    for gate in gates {
        put_gate(alloc, fleet, *gate)?;
    }
    rolled_out(rt, alloc, text, crew, fleet)
}

// Whether a rollout without a journal has settled so many operations.
fn has_finished(outcome: RunOutcome, count: u32) -> bool {
    let has_finished = match outcome.end {
        RunEnd::Finished => outcome.operations == count && outcome.found == 0,
        _ => false,
    };
    drop(outcome);
    has_finished
}

fn has_stopped(outcome: RunOutcome) -> bool {
    let has_stopped = matches!(outcome.end, RunEnd::Stopped(_));
    drop(outcome);
    has_stopped
}

// So many workers with so many rounds that they meet on a busy machine, too.
fn many(workers: u32) -> Workload {
    Workload {
        workers,
        rounds: 1000,
    }
}

// Too few rounds to wait for ever.
fn alone() -> Workload {
    Workload {
        workers: 1,
        rounds: 3,
    }
}

#[test]
fn workers_meet_at_their_gates_and_one_alone_spends_its_rounds(
    rt: HostRuntime,
) -> Result<(), Fail> {
    let by_two = run_at_gates(&rt, rt.alloc(), two_flows(), many(2), &[[0, 1]])?;
    assert!(rt; has_finished(by_two, 2));
    let by_four = run_at_gates(&rt, rt.alloc(), four(), many(4), &[[0, 1], [2, 3]])?;
    assert!(rt; has_finished(by_four, 4));
    let by_one = run_at_gates(&rt, rt.alloc(), two_flows(), alone(), &[[0, 1]])?;
    assert!(rt; has_stopped(by_one));
    Ok(())
}
