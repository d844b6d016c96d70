//! One read of a guest by an agent with a file: what its commands change is on the disk before their answers
//! go out.
ghost use Rattle.std.specs.Prelude.{◌≡◌, ◌≢◌, ◌<◌, ◌≤◌, ◌++◌, length, None, Some, IfErr, IfOk, IfSome, IsErr, IsTrue, OnErr, OnOk};
ghost use Rattle.agent_service.specs.Keeping.{HasCome, IsOnDisk, StopsKeeping, StoresAll};
ghost use Rattle.agent_state.specs.Stored.{IsBeforeOrAfter};
ghost use Rattle.disk_model.specs.Moments.{LeavesOnly};
ghost use Rattle.fenced_agent.specs.Agents.{FencedHoldings, fenced_holding};
ghost use Rattle.fenced_wire.specs.Reading.{all_kept};
ghost use Rattle.agent_talks.specs.Serving.{CarriesOut, HearsBytes, HearsGuest, IsCutTermed};
ghost use Rattle.switch_agent.specs.Serving.{IsOwnFault};
ghost use Rattle.switch_agent.specs.ReadStates.{most};
ghost use Rattle.switch_agent.specs.declared.serve_fault.ServeFault.TheVariants as fault;
ghost use Rattle.wan_edge.specs.Streams.{Appends, AppendsPart, IsAtEnd, KeepsTelling, Rose, SinkSteps};

use crate::gathering::{Gathered, gather_batch};
use agent_state::{Place, StateFault, append};
use agent_talks::{Heard, Talk};
use disk_model::Disk;
use fenced_agent::FencedAgent;
use fenced_wire::TermedReader;
use std::alloc::Global;
use switch_agent::{ServeFault, Served, read_some};
use wan_edge::{Failed, Guest, write_all};

// How many bytes one call reads at most.
const BUFFER: usize = 4_096;

/// Reads the guest once. The commands that end in what came are carried out in order, by the rule of terms; what
/// they changed, and the floor that they raised, is on the disk as one batch before they are answered. A command that is cut off where the guest has ended
/// is dropped. Where the disk fails, or memory runs out for what is kept, no answer of that read goes out.
pub(crate) fn serve_kept<D: Disk, G: Guest>(
    alloc: Global,
    disk: &mut D,
    place: Place,
    agent: &mut FencedAgent,
    guest: &mut G,
    talk: Talk,
) -> Result<(Place, Heard), StateFault>
    requires { IsOnDisk (D.told disk.old) place (fenced_holding agent.old) }
    ensures kept { IfOk result
        (λ kept. IsOnDisk (D.told disk.new) kept.0 (fenced_holding agent.new)) }
    ensures heard { IfOk result
        (λ kept. HearsGuest agent.old agent.new talk (G.Source.told guest.old)
        (G.Source.told guest.new) kept.1 (G.Sink.told guest.old).written
        (G.Sink.told guest.new).written) }
    ensures some { 0 < talk.room }
    ensures any_moment { IfSome (D.told disk.old).bytes
        (λ _. LeavesOnly D.told disk.old disk.new (HasCome (fenced_holding agent.old))) }
    ensures told { KeepsTelling (D.told disk.old).bytes (D.told disk.new).bytes }
    ensures read_cause { IfOk result
        (λ kept. kept.1.served.fault ≡ Some fault.Read
        → Rose (G.Source.told guest.old).faults (G.Source.told guest.new).faults) }
    ensures write_cause { IfOk result
        (λ kept. kept.1.served.fault ≡ Some fault.Write
        → Rose (G.Sink.told guest.old).faults (G.Sink.told guest.new).faults) }
    ensures cause { IfErr result
        (λ why. StopsKeeping why (D.told disk.old).faults (D.told disk.new).faults) }
    ensures count { (D.told disk.old).faults ≤ (D.told disk.new).faults }
{
    let mut buffer = [0; BUFFER];
    keep_into(alloc, disk, place, agent, guest, talk, &mut buffer)
}

// The same, by what comes into a buffer.
fn keep_into<D: Disk, G: Guest>(
    alloc: Global,
    disk: &mut D,
    place: Place,
    agent: &mut FencedAgent,
    guest: &mut G,
    talk: Talk,
    buffer: &mut [u8],
) -> Result<(Place, Heard), StateFault>
    requires buffer { 0 < length buffer.old }
    requires kept { IsOnDisk (D.told disk.old) place (fenced_holding agent.old) }
    ensures kept { IfOk result
        (λ kept. IsOnDisk (D.told disk.new) kept.0 (fenced_holding agent.new)) }
    ensures heard { IfOk result
        (λ kept. HearsGuest agent.old agent.new talk (G.Source.told guest.old)
        (G.Source.told guest.new) kept.1 (G.Sink.told guest.old).written
        (G.Sink.told guest.new).written) }
    ensures some { 0 < talk.room }
    ensures any_moment { IfSome (D.told disk.old).bytes
        (λ _. LeavesOnly D.told disk.old disk.new (HasCome (fenced_holding agent.old))) }
    ensures told { KeepsTelling (D.told disk.old).bytes (D.told disk.new).bytes }
    ensures read_cause { IfOk result
        (λ kept. kept.1.served.fault ≡ Some fault.Read
        → Rose (G.Source.told guest.old).faults (G.Source.told guest.new).faults) }
    ensures write_cause { IfOk result
        (λ kept. kept.1.served.fault ≡ Some fault.Write
        → Rose (G.Sink.told guest.old).faults (G.Sink.told guest.new).faults) }
    ensures cause { IfErr result
        (λ why. StopsKeeping why (D.told disk.old).faults (D.told disk.new).faults) }
    ensures count { (D.told disk.old).faults ≤ (D.told disk.new).faults }
{
    let (reader, room) = talk.into_parts();
    match read_some(guest, room, buffer) {
        Ok(n) => keep_some(alloc, disk, place, agent, guest, reader, room, &buffer[..n]),
        Err(_) => Ok((place, Heard::last(Some(ServeFault::Read)))),
    }
}

// Carries out and answers the commands that end in these bytes, which were read; none of them is the end.
#[tactic(auto, using(agent_state::proofs::Quiet::causes_later))]
fn keep_some<D: Disk, G: Guest>(
    alloc: Global,
    disk: &mut D,
    place: Place,
    agent: &mut FencedAgent,
    guest: &mut G,
    reader: TermedReader,
    room: usize,
    piece: &[u8],
) -> Result<(Place, Heard), StateFault>
    requires live { IsTrue reader.live }
    requires cut { IsCutTermed (all_kept reader) }
    requires within { length piece.now ≤ room }
    requires few { room ≤ most }
    requires end { length piece.now ≡ 0 → IsAtEnd (G.Source.told guest.old).left }
    requires kept { IsOnDisk (D.told disk.old) place (fenced_holding agent.old) }
    ensures kept { IfOk result
        (λ kept. IsOnDisk (D.told disk.new) kept.0 (fenced_holding agent.new)) }
    ensures hears { IfOk result
        (λ kept. HearsBytes agent.old agent.new (record { kept = all_kept reader; room = room })
        piece.now kept.1 (G.Source.told guest.old).left (G.Sink.told guest.old).written
        (G.Sink.told guest.new).written) }
    ensures any_moment { IfSome (D.told disk.old).bytes
        (λ _. LeavesOnly D.told disk.old disk.new (HasCome (fenced_holding agent.old))) }
    ensures told { KeepsTelling (D.told disk.old).bytes (D.told disk.new).bytes }
    ensures unfailed { IfOk result (λ kept. kept.1.served.fault ≢ Some fault.Read) }
    ensures write_cause { IfOk result
        (λ kept. kept.1.served.fault ≡ Some fault.Write
        → Rose (G.Sink.told guest.old).faults (G.Sink.told guest.new).faults) }
    ensures unread { OnOk result (G.Source.told guest.new ≡ G.Source.told guest.old) }
    ensures cause { IfErr result
        (λ why. StopsKeeping why (D.told disk.old).faults (D.told disk.new).faults) }
    ensures count { (D.told disk.old).faults ≤ (D.told disk.new).faults }
{
    let mut reader = reader;
    if piece.is_empty() {
        return Ok((place, Heard::last(None)));
    }
    let next = keep_read(alloc, disk, place, agent, &mut reader, piece, guest)?;
    let heard = Heard::behind(next.1, reader, room - piece.len());
    Ok((next.0, heard))
}

// Carries out the commands that end in the piece, keeps what they changed, and then answers them.
#[tactic(auto, using(agent_state::proofs::Quiet::causes_later))]
fn keep_read<D: Disk, G: Guest>(
    alloc: Global,
    disk: &mut D,
    place: Place,
    agent: &mut FencedAgent,
    reader: &mut TermedReader,
    piece: &[u8],
    guest: &mut G,
) -> Result<(Place, Served), StateFault>
    requires live { IsTrue reader.old.live }
    requires cut { IsCutTermed (all_kept reader.old) }
    requires kept { IsOnDisk (D.told disk.old) place (fenced_holding agent.old) }
    ensures kept { IfOk result
        (λ kept. IsOnDisk (D.told disk.new) kept.0 (fenced_holding agent.new)) }
    ensures carried { IfOk result
        (λ kept. CarriesOut agent.old agent.new (all_kept reader.old ++ piece.now) kept.1
        (λ rest. rest ≡ all_kept reader.new) (G.Sink.told guest.old).written
        (G.Sink.told guest.new).written) }
    ensures unanswered { OnErr result (guest.new ≡ guest.old) }
    ensures any_moment { IfSome (D.told disk.old).bytes
        (λ _. LeavesOnly D.told disk.old disk.new (HasCome (fenced_holding agent.old))) }
    ensures few { IfOk result (λ kept. kept.1.commands ≤ length piece.now) }
    ensures own { IfOk result (λ kept. IfSome kept.1.fault IsOwnFault) }
    ensures live { IfOk result (λ kept. kept.1.fault ≡ None → IsTrue reader.new.live) }
    ensures cut { IfOk result (λ kept. kept.1.fault ≡ None → IsCutTermed (all_kept reader.new)) }
    ensures told { KeepsTelling (D.told disk.old).bytes (D.told disk.new).bytes }
    ensures write_cause { IfOk result
        (λ kept. kept.1.fault ≡ Some fault.Write
        → Rose (G.Sink.told guest.old).faults (G.Sink.told guest.new).faults) }
    ensures writes { SinkSteps (G.Sink.told guest.old) (G.Sink.told guest.new) }
    ensures unread { OnOk result (G.Source.told guest.new ≡ G.Source.told guest.old) }
    ensures cause { IfErr result
        (λ why. StopsKeeping why (D.told disk.old).faults (D.told disk.new).faults) }
    ensures count { (D.told disk.old).faults ≤ (D.told disk.new).faults }
{
    let mut gathered = Gathered::new(alloc);
    let served = gather_batch(alloc, agent, reader, piece, &mut gathered)?;
    let now = keep_batch(alloc, disk, place, gathered.batch.as_slice(), agent)?;
    let answered = answer(disk, now, agent, guest, gathered.answers.as_slice());
    Ok((now, with_answers(served, answered)))
}

// Puts what was changed on the disk; nothing where nothing was.
fn keep_batch<D: Disk>(
    alloc: Global,
    disk: &mut D,
    place: Place,
    batch: &[u8],
    agent: &FencedAgent,
) -> Result<Place, StateFault>
    ensures any_moment { (before : FencedHoldings)
        → IsOnDisk (D.told disk.old) place before
        → StoresAll before (fenced_holding agent.now) batch.now
        → IfSome (D.told disk.old).bytes
        (λ _. LeavesOnly D.told disk.old disk.new
        (IsBeforeOrAfter before (fenced_holding agent.now))) }
    ensures done { IfOk result
        (λ now. (before : FencedHoldings)
        → IsOnDisk (D.told disk.old) place before
        → StoresAll before (fenced_holding agent.now) batch.now
        → IsOnDisk (D.told disk.new) now (fenced_holding agent.now)) }
    ensures told { KeepsTelling (D.told disk.old).bytes (D.told disk.new).bytes }
    ensures cause { IfErr result
        (λ why. StopsKeeping why (D.told disk.old).faults (D.told disk.new).faults) }
    ensures count { (D.told disk.old).faults ≤ (D.told disk.new).faults }
{
    if batch.is_empty() {
        return Ok(place);
    }
    let now = append(alloc, disk, place, batch, agent)?;
    Ok(now)
}

// Answers a controller: what the agent holds is on the disk by then.
fn answer<D: Disk, G: Guest>(
    _disk: &D,
    _place: Place,
    _agent: &FencedAgent,
    guest: &mut G,
    answers: &[u8],
) -> Result<(), Failed>
    requires { IsOnDisk (D.told _disk.now) _place (fenced_holding _agent.now) }
    ensures all { OnOk result
        (Appends (G.Sink.told guest.old).written answers.now (G.Sink.told guest.new).written) }
    ensures part { OnErr result
        (AppendsPart (G.Sink.told guest.old).written answers.now
        (G.Sink.told guest.new).written) }
    ensures cause { OnErr result
        (Rose (G.Sink.told guest.old).faults (G.Sink.told guest.new).faults) }
    ensures step { SinkSteps (G.Sink.told guest.old) (G.Sink.told guest.new) }
    ensures unread { G.Source.told guest.new ≡ G.Source.told guest.old }
{
    write_all(guest, answers)
}

// What came of a read whose answers went out, or didn't.
fn with_answers(served: Served, answered: Result<(), Failed>) -> Served
    ensures all { OnOk answered (result ≡ served) }
    ensures part { OnErr answered
        (result ≡ record { commands = served.commands; fault = Some fault.Write }) }
    ensures commands { result.commands ≡ served.commands }
    ensures own { IfSome served.fault IsOwnFault → IfSome result.fault IsOwnFault }
    ensures none { result.fault ≡ None → served.fault ≡ None }
    ensures written { result.fault ≡ Some fault.Write
        → served.fault ≢ Some fault.Write
        → IsErr answered }
{
    match answered {
        Ok(()) => served,
        Err(_) => Served {
            commands: served.commands,
            fault: Some(ServeFault::Write),
        },
    }
}
