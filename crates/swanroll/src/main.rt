//! The program: hands the arguments, the standard streams, the journal's file with its log, the switches
//! and guests behind sockets, the allocator and its policies to the call that does everything, and ends with
//! its status. An agent for which the environment names a file is a call of its own, and so are a report of the
//! journal as it stands, the problem that its rollout leaves, another target for it, and what a controller does
//! that has a term.
#![tactic(auto)]

ghost use Rattle.std.specs.Prelude.{◌≡◌};
ghost use Rattle.named_policies.specs.Policies as spec;

use devices::{ceiling, fleet, journal, sight, state};
use fenced_ports::FencedFleet;
use host_edge::{StdSink, StdSource};
use lists::Memory;
use named_policies::{critical, freeze, order, policies_of};
use order_policy::{Policies, Policy};
use retarget_top::{retarget, retarget_asked};
use std::env;
use std::process::ExitCode;
use std::sync::Wait;
use std::thread::Threads;
use swanroll_top::{
    LiveAsked, guests_asked, keep_agent, left_asked, live_asked, report_live, show_left,
    start_logged, watch,
};
use takeover_top::{run_asked, run_at_term, start_plain, take_over, takeover_asked};
use text_commands::{Unread, why_unread};
use wan_model::OpView;

mod devices;

fn main(rt: HostRuntime) -> ExitCode {
    let mut source = StdSource::new(rt, rt.stdin());
    let mut sink = StdSink::output(rt, rt.stdout());
    let mut notes = StdSink::error(rt, rt.stderr());
    match run(&rt, rt, &mut source, &mut sink, &mut notes) {
        Ok(status) => ExitCode::from(status),
        Err(_) => ExitCode::from(
            start_logged(
                &rt,
                rt.alloc(),
                Err(Unread::Memory),
                &mut source,
                &mut sink,
                &mut notes,
                journal(rt),
                &mut fleet(rt),
                &Policies::new(rt.alloc()),
            )
            .status,
        ),
    }
}

/// Does what the arguments ask for, with the policies `critical`, `order` and `freeze`, and answers the
/// exit status.
fn run(
    wait: &(impl Wait + Threads + Sync),
    rt: HostRuntime,
    source: &mut StdSource<HostRuntime>,
    sink: &mut StdSink<HostRuntime>,
    notes: &mut StdSink<HostRuntime>,
) -> Result<u8, Memory> {
    let by_chain: Box<dyn Fn(OpView) -> u64 + Send + Sync> = Box::new(
        rt.alloc(),
        |view: OpView| -> u64
            ensures { result ≡ spec.critical view }
        { critical(view) },
    )?;
    let by_item: Box<dyn Fn(OpView) -> u64 + Send + Sync> = Box::new(
        rt.alloc(),
        |view: OpView| -> u64
            ensures { result ≡ spec.order view }
        { order(view) },
    )?;
    let ceiling = ceiling(rt);
    let frozen: Box<dyn Fn(OpView) -> u64 + Send + Sync> = Box::new(
        rt.alloc(),
        move |view: OpView| -> u64
            ensures { result ≡ spec.freeze ceiling view }
        { freeze(ceiling, view) },
    )?;
    let policies = policies_of(
        rt.alloc(),
        Policy::new(by_chain),
        Policy::new(by_item),
        Policy::holding(frozen),
    )?;
    Ok(begin(wait, rt, source, sink, notes, &policies))
}

/// Does what the arguments ask for: an agent over the file that the environment names for it, where they ask
/// for an agent and it names one; a report of the journal as it stands, what the rollout leaves, or another target;
/// a takeover, or a run of a term, over a fleet of that term; and else all that there is.
fn begin(
    wait: &(impl Wait + Threads + Sync),
    rt: HostRuntime,
    source: &mut StdSource<HostRuntime>,
    sink: &mut StdSink<HostRuntime>,
    notes: &mut StdSink<HostRuntime>,
    policies: &Policies<Policy>,
) -> u8 {
    let arguments = arguments(&rt);
    if let Some(guests) = guests_asked(&arguments, policies) {
        if let Some(disk) = state(rt) {
            drop(arguments);
            return keep_agent(rt.alloc(), guests, sink, notes, disk, &mut fleet(rt)).status;
        }
    }
    if let Some(asked) = live_asked(&arguments) {
        drop(arguments);
        return look(wait, rt, asked, source, sink, notes);
    }
    if let Some(migration) = left_asked(&arguments) {
        drop(arguments);
        return show_left(rt.alloc(), migration, source, sink, notes, &mut sight(rt));
    }
    if let Some(asked) = retarget_asked(&arguments) {
        return retarget(
            rt.alloc(),
            asked.migration,
            asked.planner,
            asked.shed,
            source,
            sink,
            notes,
            journal(rt),
        )
        .status;
    }
    if let Some(term) = takeover_asked(&arguments, policies) {
        let mut fenced = FencedFleet::new(rt.alloc(), fleet(rt), term);
        return take_over(
            wait,
            rt.alloc(),
            arguments,
            source,
            sink,
            notes,
            journal(rt),
            &mut fenced,
            policies,
        )
        .status;
    }
    run_by_term(wait, rt, arguments, source, sink, notes, policies)
}

/// A run over a fleet of the term that the words name, and else all that there is.
fn run_by_term(
    wait: &(impl Wait + Threads + Sync),
    rt: HostRuntime,
    arguments: Result<Vec<String>, Unread>,
    source: &mut StdSource<HostRuntime>,
    sink: &mut StdSink<HostRuntime>,
    notes: &mut StdSink<HostRuntime>,
    policies: &Policies<Policy>,
) -> u8 {
    match run_asked(&arguments) {
        Some(term) if term > 0 => {
            let mut fenced = FencedFleet::new(rt.alloc(), fleet(rt), term);
            run_at_term(
                wait,
                rt.alloc(),
                arguments,
                source,
                sink,
                notes,
                journal(rt),
                &mut fenced,
                policies,
            )
            .status
        }
        _ => {
            start_plain(
                wait,
                rt.alloc(),
                arguments,
                source,
                sink,
                notes,
                journal(rt),
                &mut fleet(rt),
                policies,
            )
            .status
        }
    }
}

/// Looks at the journal as it stands: once, or again and again.
fn look(
    wait: &(impl Wait + Threads + Sync),
    rt: HostRuntime,
    asked: LiveAsked,
    source: &mut StdSource<HostRuntime>,
    sink: &mut StdSink<HostRuntime>,
    notes: &mut StdSink<HostRuntime>,
) -> u8 {
    let mut file = sight(rt);
    if asked.seconds == 0 {
        return report_live(rt.alloc(), asked.migration, source, sink, notes, &mut file);
    }
    watch(wait, &rt, rt.alloc(), asked, source, sink, notes, &mut file)
}

fn arguments(rt: &HostRuntime) -> Result<Vec<String>, Unread> {
    let all = match env::args(rt) {
        Ok(all) => all,
        Err(error) => return Err(why_unread(&error)),
    };
    match all.collect::<Vec<String>>(rt.alloc()) {
        Ok(arguments) => Ok(arguments),
        Err(_) => Err(Unread::Memory),
    }
}
