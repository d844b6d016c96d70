//! An agent and a rollout that talk over loopback.

ghost use Rattle.std.specs.Prelude.{◌≡◌};
ghost use Rattle.std.specs.Thread.{IsSync};

use disk_mirror::{Mirror, Openable};
use host_edge::{FileDisk, TcpFleet};
use lists::Memory;
use order_policy::{Policies, Policy};
use std::alloc::Global;
use std::fs;
use std::net::TcpListener;
use std::sync::Wait;
use std::test::Fail;
use std::thread::{Threads, join};
use swanroll_top::swanroll;
use wan_edge::{Fleet, MemorySink, MemorySource, Nums8, Sink, Source, Turns};
use wan_model::OpView;

const FLEET_PATH: &str = "edge_cases_test.fleet";

const JOURNAL_PATH: &str = "edge_cases_test.journal";

// How long connecting, hearing and writing may take, in milliseconds.
const LIMIT: u64 = 1_000;

// One flow moves 3 of its 4 to a second path in one step.
fn one() -> &'static str {
    "{\"plan\":{\"scale\":1,\"stages\":[{\"installed\":[true,true],\"rates\":[4,0]},{\"installed\":[true,true],\"rates\":[1,3]}]},\"problem\":{\"flows\":[{\"name\":\"f\",\"tunnels\":[{\"new\":1,\"old\":4,\"path\":[\"A\",\"B\"]},{\"new\":3,\"old\":0,\"path\":[\"A\",\"C\",\"B\"]}]}],\"links\":[{\"capacity\":10,\"from\":\"A\",\"to\":\"B\"},{\"capacity\":10,\"from\":\"A\",\"to\":\"C\"},{\"capacity\":10,\"from\":\"C\",\"to\":\"B\"}],\"switches\":[{\"name\":\"A\",\"table\":8},{\"name\":\"B\",\"table\":8},{\"name\":\"C\",\"table\":8}]}}"
}

// How a side ended, and what it wrote.
#[derive(Drop)]
struct SideEnd {
    status: u8,
    text: Vec<u8>,
}

// The agent of a switch at an address and the rollout, each in a thread of its own.
fn both_sides<R: Wait + Threads + Sync>(
    wait: &R,
    rt: HostRuntime,
    address: String,
) -> (Result<SideEnd, Memory>, Result<SideEnd, Memory>) {
    join(
        wait,
        move || -> Result<SideEnd, Memory>
            requires { IsSync R.row }
        { serve(wait, rt, address) },
        move || -> Result<SideEnd, Memory>
            requires { IsSync R.row }
        { roll_out(wait, rt) },
    )
}

fn serve<R: Wait + Threads + Sync>(
    wait: &R,
    rt: HostRuntime,
    address: String,
) -> Result<SideEnd, Memory> {
    let path = String::new(rt.alloc());
    let mut fleet = TcpFleet::new(rt.alloc(), rt, path, address, LIMIT);
    let told = told_over(wait, rt, "agent", "", "", &mut fleet);
    drop(fleet);
    told
}

fn roll_out<R: Wait + Threads + Sync>(wait: &R, rt: HostRuntime) -> Result<SideEnd, Memory> {
    let path = String::from_str(rt.alloc(), FLEET_PATH)?;
    let mut fleet = TcpFleet::new(rt.alloc(), rt, path, String::new(rt.alloc()), LIMIT);
    let told = told_over(wait, rt, "run", one(), JOURNAL_PATH, &mut fleet);
    drop(fleet);
    told
}

// What a command of one word ends with over an input, a journal's file and a fleet.
fn told_over<R: Wait + Threads + Sync>(
    wait: &R,
    rt: HostRuntime,
    word: &str,
    input: &str,
    journal: &str,
    fleet: &mut TcpFleet<HostRuntime>,
) -> Result<SideEnd, Memory> {
    let by_item: Box<dyn Fn(OpView) -> u64 + Send + Sync> = Box::new(
        rt.alloc(),
        |view: OpView| -> u64
            ensures { result ≡ view.item }
        { u64::from(view.item) },
    )?;
    let mut policies = Policies::new(rt.alloc());
    policies.add("critical", Policy::new(by_item))?;
    told_with(wait, rt, word, input, journal, fleet, &policies)
}

fn told_with<R: Wait + Threads + Sync>(
    wait: &R,
    rt: HostRuntime,
    word: &str,
    input: &str,
    journal: &str,
    fleet: &mut TcpFleet<HostRuntime>,
    policies: &Policies<Policy>,
) -> Result<SideEnd, Memory> {
    let words = words_of(rt.alloc(), word)?;
    let told = told_by(wait, rt, &words, input, journal, fleet, policies);
    drop(words);
    told
}

// The same by these words.
fn told_by<R: Wait + Threads + Sync>(
    wait: &R,
    rt: HostRuntime,
    words: &[String],
    input: &str,
    journal: &str,
    fleet: &mut TcpFleet<HostRuntime>,
    policies: &Policies<Policy>,
) -> Result<SideEnd, Memory> {
    let mut source = source_of(rt.alloc(), input)?;
    let told = told_from(wait, rt, words, &mut source, journal, fleet, policies);
    drop(source);
    told
}

// The same from this source.
fn told_from<R: Wait + Threads + Sync>(
    wait: &R,
    rt: HostRuntime,
    words: &[String],
    source: &mut MemorySource,
    journal: &str,
    fleet: &mut TcpFleet<HostRuntime>,
    policies: &Policies<Policy>,
) -> Result<SideEnd, Memory> {
    let disk = disk_of(rt, journal)?;
    let mut sink = MemorySink::new(rt.alloc(), Turns::new(rt.alloc()));
    let mut notes = MemorySink::new(rt.alloc(), Turns::new(rt.alloc()));
    let status = status_of(
        wait,
        rt.alloc(),
        words,
        source,
        &mut sink,
        &mut notes,
        disk,
        fleet,
        policies,
    );
    drop(notes);
    let told = told_of(rt.alloc(), status, &sink);
    drop(sink);
    told
}

fn told_of(alloc: Global, status: u8, sink: &MemorySink) -> Result<SideEnd, Memory> {
    let text = Vec::from_slice(alloc, sink.written())?;
    Ok(SideEnd { status, text })
}

fn disk_of(rt: HostRuntime, journal: &str) -> Result<Mirror<FileDisk<HostRuntime>>, Memory> {
    let file = FileDisk::new(rt, String::from_str(rt.alloc(), journal)?);
    Ok(Mirror::new(rt.alloc(), file))
}

fn status_of<R: Wait + Threads + Sync, S: Source, K: Sink, D: Openable + Drop + Send, F: Fleet>(
    rt: &R,
    alloc: Global,
    words: &[String],
    source: &mut S,
    sink: &mut K,
    notes: &mut K,
    disk: D,
    fleet: &mut F,
    policies: &Policies<Policy>,
) -> u8
where
    F::Port: Drop + Send,
{
    let ended = swanroll(rt, alloc, words, source, sink, notes, disk, fleet, policies);
    let status = ended.status;
    drop(ended);
    status
}

fn words_of(alloc: Global, word: &str) -> Result<Vec<String>, Memory> {
    let mut words = Vec::new(alloc);
    words.push(String::from_str(alloc, word)?)?;
    Ok(words)
}

fn source_of(alloc: Global, input: &str) -> Result<MemorySource, Memory> {
    let mut bytes = Nums8::new(alloc);
    bytes.extend_from_slice(input.as_bytes())?;
    Ok(MemorySource::new(bytes, Turns::new(alloc)))
}

// An address of this machine at which nobody listens, as it was given to somebody who has gone. The fleet's file
// names it, and there is no journal.
fn prepared(rt: HostRuntime) -> Result<String, Fail> {
    let listener = TcpListener::bind(&rt, "127.0.0.1:0")?;
    let address = listener.local_addr()?;
    drop(listener);
    let lines = format!(in rt.alloc(); "A {address}\n")?;
    fs::write(&rt, FLEET_PATH, lines.as_str())?;
    let _ = fs::remove_file(&rt, JOURNAL_PATH);
    Ok(format!(in rt.alloc(); "{address}")?)
}

fn has_ended(told: Result<SideEnd, Memory>, text: &str) -> bool {
    match told {
        Ok(told) => is_told(told, text),
        Err(_) => false,
    }
}

fn is_told(told: SideEnd, text: &str) -> bool {
    let is_told = told.status == 0 && told.text.as_slice().starts_with(text.as_bytes());
    drop(told);
    is_told
}

// Whether both sides end well. The agent may have been asked more than once, on a busy machine.
fn both_end<R: Wait + Threads + Sync>(wait: &R, rt: HostRuntime, address: String) -> bool {
    let (agent, rollout) = both_sides(wait, rt, address);
    let rolled = has_ended(rollout, "finished: operations 1, found 0\n");
    let served = has_ended(agent, "agent: guests 1, commands ");
    rolled && served
}

#[test]
fn an_agent_and_a_rollout_end_in_one_process(rt: HostRuntime) -> Result<(), Fail> {
    let address = prepared(rt)?;
    assert!(rt; both_end(&rt, rt, address));
    fs::remove_file(&rt, JOURNAL_PATH)?;
    fs::remove_file(&rt, FLEET_PATH)?;
    Ok(())
}
