//! The program of the commands that make a text of their input, and of no others: it hands the arguments, the
//! standard streams, the allocator and its policies to the call that makes these texts, and ends with its status.
//! For these words it does what the whole program does, and it is compiled in a part of the time.
#![tactic(auto)]

ghost use Rattle.std.specs.Prelude.{◌≡◌};
ghost use Rattle.named_policies.specs.Policies as spec;
ghost use Rattle.named_policies.specs.Saying.{IsSaid};

use host_edge::{StdSink, StdSource};
use lists::Memory;
use named_policies::{ceiling_in, critical, freeze, order, policies_of};
use order_policy::{Policies, Policy};
use std::env;
use std::process::ExitCode;
use text_commands::{Unread, start_text, why_unread};
use wan_model::OpView;

fn main(rt: HostRuntime) -> ExitCode {
    let mut source = StdSource::new(rt, rt.stdin());
    let mut sink = StdSink::output(rt, rt.stdout());
    let mut notes = StdSink::error(rt, rt.stderr());
    match run(rt, &mut source, &mut sink, &mut notes) {
        Ok(status) => ExitCode::from(status),
        Err(_) => ExitCode::from(start_text(
            rt.alloc(),
            Err(Unread::Memory),
            &mut source,
            &mut sink,
            &mut notes,
            &Policies::new(rt.alloc()),
        )),
    }
}

/// Does what the arguments ask for, with the policies `critical`, `order` and `freeze`, and answers the
/// exit status.
fn run(
    rt: HostRuntime,
    source: &mut StdSource<HostRuntime>,
    sink: &mut StdSink<HostRuntime>,
    notes: &mut StdSink<HostRuntime>,
) -> Result<u8, Memory> {
    let by_chain: Box<dyn Fn(OpView) -> u64 + Send + Sync> = Box::new(
        rt.alloc(),
        |view: OpView| -> u64
            ensures { result ≡ spec.critical view }
        { critical(view) },
    )?;
    let by_item: Box<dyn Fn(OpView) -> u64 + Send + Sync> = Box::new(
        rt.alloc(),
        |view: OpView| -> u64
            ensures { result ≡ spec.order view }
        { order(view) },
    )?;
    let ceiling = ceiling(rt);
    let frozen: Box<dyn Fn(OpView) -> u64 + Send + Sync> = Box::new(
        rt.alloc(),
        move |view: OpView| -> u64
            ensures { result ≡ spec.freeze ceiling view }
        { freeze(ceiling, view) },
    )?;
    let policies = policies_of(
        rt.alloc(),
        Policy::new(by_chain),
        Policy::new(by_item),
        Policy::holding(frozen),
    )?;
    Ok(start_text(rt.alloc(), arguments(&rt), source, sink, notes, &policies))
}

/// The stage from which on the policy `freeze` holds operations back, if the environment says one:
/// `SWANROLL_CEILING`.
fn ceiling(rt: HostRuntime) -> Option<u32>
    ensures { IsSaid result }
{
    ceiling_in(word_of_environment(rt, "SWANROLL_CEILING").as_str())
}

/// What stands under a name in the environment; nothing where it isn't there, or isn't text.
fn word_of_environment(rt: HostRuntime, name: &str) -> String {
    env::var(&rt, name).unwrap_or(String::new(rt.alloc()))
}

fn arguments(rt: &HostRuntime) -> Result<Vec<String>, Unread> {
    let all = match env::args(rt) {
        Ok(all) => all,
        Err(error) => return Err(why_unread(&error)),
    };
    match all.collect::<Vec<String>>(rt.alloc()) {
        Ok(arguments) => Ok(arguments),
        Err(_) => Err(Unread::Memory),
    }
}
