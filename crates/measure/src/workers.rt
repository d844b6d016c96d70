//! A rollout by workers over ports in memory, from a journal on a disk in memory.
ghost use Rattle.std.specs.Prelude.{◌≡◌};

use crate::rollout;
use crate::slow_port::SlowPort;
use anyhow::{Result, bail};
use controller_run::{Limits, RolloutResult, RunEnd, RunOutcome, run_rollout};
use disk_model::{Disk, MemoryDisk};
use intent_journal::Unopened;
use lists::Text;
use lossy_link::{FaithfulPort, MemoryFleet};
use order_policy::Policy;
use std::alloc::Global;
use std::rt::Clock;
use std::sync::Wait;
use std::thread::Threads;
use wan_edge::{Fleet, Nums8, Port, Turns};
use wan_model::{CheckedPlan, OpView, Problem};

/// When the ports answer.
#[derive(Clone, Copy)]
pub(crate) enum Pace {
    AtOnce,
    /// A millisecond after the commands came.
    Slow,
}

/// So many workers at most, each of which may offer commands in so many rounds, over ports of this pace.
#[derive(Clone, Copy)]
pub(crate) struct Workload {
    pub workers: u32,
    pub rounds: u32,
    pub pace: Pace,
}

/// What the run has come to, and how many calls the disk had.
#[derive(Drop)]
struct Rolled {
    outcome: RunOutcome,
    calls: u64,
}

/// Rolls the document's plan out, and prints how many operations were settled and how many calls the disk had.
pub(crate) fn measure<R: Threads + Wait + Sync + Clock + AllocGlobal + Print>(
    rt: &R,
    document: Vec<u8>,
    crew: Workload,
) -> Result<()> {
    let rolled = rolled_ranked(rt, rt.alloc(), document.as_slice(), crew);
    drop(document);
    let rolled = rolled?;
    let printed = print(rt, &rolled);
    drop(rolled);
    printed
}

fn print<R: Print>(rt: &R, rolled: &Rolled) -> Result<()> {
    let calls = rolled.calls;
    let operations = rolled.outcome.operations;
    match rolled.outcome.end {
        RunEnd::Finished => println!(rt; "operations {operations}, calls {calls}")?,
        RunEnd::Stopped(_) => println!(rt; "stopped, calls {calls}")?,
        _ => bail!("neither finished nor stopped"),
    }
    Ok(())
}

// The policy ranks all alike.
fn rolled_ranked<R: Threads + Wait + Sync + Clock>(
    rt: &R,
    alloc: Global,
    document: &[u8],
    crew: Workload,
) -> Result<Rolled> {
    let alike: Box<dyn Fn(OpView) -> u64 + Send + Sync> = Box::new(
        alloc,
        |_view: OpView| -> u64
            ensures { result ≡ 0 }
        { 0 },
    )?;
    let policy = Policy::new(alike);
    rolled_by(rt, alloc, document, &policy, crew)
}

// The same by a policy.
fn rolled_by<R: Threads + Wait + Sync + Clock>(
    rt: &R,
    alloc: Global,
    document: &[u8],
    policy: &Policy,
    crew: Workload,
) -> Result<Rolled> {
    rolled_at(rt, alloc, rollout::plan(alloc, document)?, policy, crew)
}

fn rolled_at<R: Threads + Wait + Sync + Clock>(
    rt: &R,
    alloc: Global,
    plan: CheckedPlan,
    policy: &Policy,
    crew: Workload,
) -> Result<Rolled> {
    match crew.pace {
        Pace::AtOnce => {
            let fleet = fleet_of(alloc, plan.problem());
            rolled_with(rt, alloc, plan, policy, crew, fleet)
        }
        Pace::Slow => {
            let fleet = slow_fleet_of(rt, alloc, plan.problem());
            rolled_with(rt, alloc, plan, policy, crew, fleet)
        }
    }
}

// Over the fleet, where there is one.
fn rolled_with<R: Threads + Wait + Sync, P: Port + Drop + Send>(
    rt: &R,
    alloc: Global,
    plan: CheckedPlan,
    policy: &Policy,
    crew: Workload,
    fleet: Result<MemoryFleet<P>>,
) -> Result<Rolled> {
    match fleet {
        Ok(fleet) => {
            let mut fleet = fleet;
            let rolled = rolled_over(rt, alloc, plan, policy, crew, &mut fleet);
            drop(fleet);
            rolled
        }
        Err(error) => {
            drop(plan);
            Err(error)
        }
    }
}

fn rolled_over<R: Threads + Wait + Sync, P: Port + Drop + Send>(
    rt: &R,
    alloc: Global,
    plan: CheckedPlan,
    policy: &Policy,
    crew: Workload,
    fleet: &mut MemoryFleet<P>,
) -> Result<Rolled> {
    let disk = MemoryDisk::new(alloc, Nums8::new(alloc), Turns::new(alloc));
    rolled_of(outcome_over(rt, alloc, plan, policy, crew, disk, fleet))
}

fn rolled_of(rolled: Result<RolloutResult<MemoryDisk>, Unopened<MemoryDisk>>) -> Result<Rolled> {
    match rolled {
        Ok(rolled) => {
            let RolloutResult { disk, outcome } = rolled;
            Ok(Rolled {
                outcome,
                calls: disk.calls(),
            })
        }
        Err(unopened) => {
            drop(unopened);
            bail!("no journal was opened")
        }
    }
}

// A port at each switch.
fn fleet_of(alloc: Global, problem: &Problem) -> Result<MemoryFleet<FaithfulPort>> {
    let mut fleet = MemoryFleet::new(alloc);
    for switch in 0..problem.switches().len() as u32 {
        fleet.call(
            switch,
            copy_name(alloc, problem.switch_name(switch as usize))?,
        )?;
        fleet.put(switch, FaithfulPort::new(alloc))?;
    }
    Ok(fleet)
}

fn copy_name(alloc: Global, name: &str) -> Result<Text> {
    Ok(Text::from(String::from_str(alloc, name)?))
}

// A slow port at each switch.
fn slow_fleet_of<'r, R: Clock>(
    rt: &'r R,
    alloc: Global,
    problem: &Problem,
) -> Result<MemoryFleet<SlowPort<'r, R>>> {
    let mut fleet = MemoryFleet::new(alloc);
    for switch in 0..problem.switches().len() as u32 {
        fleet.call(
            switch,
            copy_name(alloc, problem.switch_name(switch as usize))?,
        )?;
        fleet.put(switch, SlowPort::new(rt, alloc))?;
    }
    Ok(fleet)
}

// Over any disk and any fleet.
fn outcome_over<R: Threads + Wait + Sync, D: Disk + Drop + Send, F: Fleet>(
    rt: &R,
    alloc: Global,
    plan: CheckedPlan,
    policy: &Policy,
    crew: Workload,
    disk: D,
    fleet: &mut F,
) -> Result<RolloutResult<D>, Unopened<D>>
where
    F::Port: Drop + Send,
{
    let limits = Limits {
        workers: crew.workers,
        rounds: crew.rounds,
        migration: 0,
    };
    run_rollout(rt, alloc, plan, policy, limits, disk, fleet)
}
