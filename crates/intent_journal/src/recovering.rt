ghost use Rattle.std.specs.Prelude.{◌≡◌, ◌*◌, ◌<◌, ◌≤◌, ◌^◌, [], length, true, vec_capacity, IfErr, IfOk, IfSome};
ghost use Rattle.rollout_rules.specs.History.{from_nothing};
ghost use Rattle.disk_model.specs.Crashes.{Holds, Within};
ghost use Rattle.disk_model.specs.Moments.{LeavesOnly};
ghost use Rattle.dependency_graph.specs.Graph.{op_total};
ghost use Rattle.intent_journal.specs.Images as images;
ghost use Rattle.intent_journal.specs.Judging.{BeforeList, LeavesGraphOf};
ghost use Rattle.intent_journal.specs.Opened.{HasRoom, IsKept};
ghost use Rattle.intent_journal.specs.Openings.{IsLeft, IsMadeReady, IsOpenFor, IsOpenedFrom};
ghost use Rattle.intent_journal.specs.Recovered.{IsCause, IsReady, MayStand, OnRefusal, kept_for};
ghost use Rattle.intent_journal.specs.Verdicts.{Fresh, judged_journal, verdict};
ghost use Rattle.intent_journal.specs.Whole.{Causes};
ghost use Rattle.intent_journal.specs.declared.fault.JournalFault.TheVariants as fault;
ghost use Rattle.wan_edge.specs.Streams.{KeepsTelling, Rose};

use crate::blank::{is_blank, is_cleared};
use crate::digest::Digest;
use crate::fault::{JournalFault, Unopened};
use crate::found::LATEST_START;
use crate::journal::Journal;
use crate::judging::judge;
use crate::making::make;
use crate::preparing::prepare;
use crate::renewing::{Rest, renew};
use crate::starting::zeros;
use dependency_graph::Graph;
use disk_model::{Disk, read_synced};
use rollout_rules::EntryList;
use std::alloc::Global;
use wan_model::item_count;

/// A journal that is at rest, its list, and the room for what may come.
#[derive(Drop)]
struct Ready {
    rest: Rest,
    most: u32,
    body: Vec<u8>,
    list: EntryList,
}

/// Opens the journal of a rollout on a disk; on one that is blank it makes one. The graph is brought to
/// the start and the list, which come back, and memory is taken for all later appends. Before the first
/// write it refuses what is no journal, one of another plan, a start that isn't sound, and a list that
/// isn't legal. After `Ok` each image that a crash may leave keeps the list. After an entry that isn't
/// legal the graph has the start and the entries ahead of it; after every other refusal of the image it is
/// as it was. Where the disk failed or memory ran out it is as it was, or has the start and a front of
/// the list.
pub fn recover<D: Disk>(
    alloc: Global,
    disk: D,
    digest: &Digest,
    graph: &mut Graph,
) -> Result<(Journal<D>, EntryList), Unopened<D>>
    requires empty { graph.old.history ≡ from_nothing graph.old.rollout.problem [] }
    ensures opened { IfOk result
        (λ opened. IsOpenedFrom D.told graph.old.rollout digest.now disk graph.new opened.1
        opened.0.disk) }
    ensures journal { IfOk result (λ opened. IsOpenFor graph.old.rollout opened.1 opened.0) }
    ensures left { IfErr result
        (λ unopened. IsLeft D.told graph.old.rollout digest.now disk unopened.cause unopened.disk) }
    ensures unmoved { IfErr result (λ unopened. BeforeList unopened.cause (graph.new ≡ graph.old)) }
    ensures graph { IfErr result
        (λ unopened. IfSome (D.told disk).bytes
        (λ image. LeavesGraphOf image unopened.cause graph.old graph.new)) }
{
    let mut disk = disk;
    match open(alloc, &mut disk, digest, graph) {
        Ok(ready) => Ok(into_journal(disk, ready)),
        Err(cause) => Err(Unopened { disk, cause }),
    }
}

// The open journal that owns this disk, and its list.
fn into_journal<D: Disk>(disk: D, ready: Ready) -> (Journal<D>, EntryList)
    requires kept { IsKept ready.rest.gate ready.rest.end (D.told disk).bytes
        (D.told disk).may_leave }
    requires room { HasRoom ready.rest.gate ready.rest.end (length ready.list) ready.most
        (vec_capacity ready.body) }
    ensures disk { result.0.disk ≡ disk }
    ensures live { result.0.live ≡ true }
    ensures entries { result.0.entries ≡ length ready.list }
    ensures most { result.0.most ≡ ready.most }
    ensures list { result.1 ≡ ready.list }
{
    let Ready {
        rest,
        most,
        body,
        list,
    } = ready;
    let entries = list.as_slice().len() as u32;
    let journal = Journal::at_rest(disk, rest.gate, rest.end, entries, most, body);
    (journal, list)
}

// Reads the image, and opens the journal that it is or is to be.
fn open<D: Disk>(
    alloc: Global,
    disk: &mut D,
    digest: &Digest,
    graph: &mut Graph,
) -> Result<Ready, JournalFault>
    requires empty { graph.old.history ≡ from_nothing graph.old.rollout.problem [] }
    ensures opened { IfOk result
        (λ ready. IsOpenedFrom D.told graph.old.rollout digest.now disk.old graph.new ready.list
        disk.new) }
    ensures ready { IfOk result
        (λ ready. IsMadeReady graph.old.rollout ready.list ready.rest.gate ready.rest.end ready.most
        (vec_capacity ready.body) (D.told disk.new).bytes (D.told disk.new).may_leave) }
    ensures left { IfErr result
        (λ cause. IsLeft D.told graph.old.rollout digest.now disk.old cause disk.new) }
    ensures unmoved { IfErr result (λ cause. BeforeList cause (graph.new ≡ graph.old)) }
    ensures graph { IfErr result
        (λ cause. IfSome (D.told disk.old).bytes
        (λ image. LeavesGraphOf image cause graph.old graph.new)) }
{
    let image = read_synced(alloc, disk)?;
    open_read(alloc, disk, image.as_slice(), digest, graph)
}

// Opens the journal that was read, or makes one where the image is blank.
fn open_read<D: Disk>(
    alloc: Global,
    disk: &mut D,
    image: &[u8],
    digest: &Digest,
    graph: &mut Graph,
) -> Result<Ready, JournalFault>
    requires image { Holds (λ all. all ≡ image.now) (D.told disk.old).bytes
        (D.told disk.old).may_leave }
    requires empty { graph.old.history ≡ from_nothing graph.old.rollout.problem [] }
    ensures ok { IfOk result
        (λ ready. IsReady (verdict graph.old.rollout digest.now image.now)
        (kept_for graph.old.rollout digest.now (verdict graph.old.rollout digest.now image.now))
        ready.list ready.rest.gate ready.rest.end ready.most (vec_capacity ready.body) graph.old
        graph.new (D.told disk.new).bytes (D.told disk.new).may_leave) }
    ensures most { IfOk result (λ ready. ready.most ≡ 2 * op_total graph.old.rollout) }
    ensures any_moment { IfSome (D.told disk.old).bytes
        (λ _. LeavesOnly D.told disk.old disk.new
        (MayStand graph.old.rollout digest.now image.now
        (verdict graph.old.rollout digest.now image.now) (D.told disk.old).may_leave)) }
    ensures cause { IfErr result
        (λ given. given ≡ fault.Disk → Rose (D.told disk.old).faults (D.told disk.new).faults) }
    ensures refusal { IfErr result
        (λ fault. IsCause fault digest.now (verdict graph.old.rollout digest.now image.now)) }
    ensures unmoved { IfErr result (λ fault. BeforeList fault (graph.new ≡ graph.old)) }
    ensures graph { IfErr result (λ fault. LeavesGraphOf image.now fault graph.old graph.new) }
    ensures unwritten { IfErr result (λ fault. OnRefusal fault (disk.new ≡ disk.old)) }
    ensures told { KeepsTelling (D.told disk.old).bytes (D.told disk.new).bytes }
    ensures count { (D.told disk.old).faults ≤ (D.told disk.new).faults }
{
    let blank = is_blank(alloc, image)?;
    if blank {
        return make_anew(alloc, disk, image, digest, graph);
    }
    go_on(alloc, disk, image, digest, graph)
}

// Makes a journal with the empty list of a blank image.
fn make_anew<D: Disk>(
    alloc: Global,
    disk: &mut D,
    image: &[u8],
    digest: &Digest,
    graph: &Graph,
) -> Result<Ready, JournalFault>
    requires image { Holds (λ all. all ≡ image.now) (D.told disk.old).bytes
        (D.told disk.old).may_leave }
    requires blank { images.is_blank image.now ≡ true }
    ensures ok { IfOk result
        (λ ready. IsReady Fresh (kept_for graph.now.rollout digest.now Fresh) ready.list
        ready.rest.gate ready.rest.end ready.most (vec_capacity ready.body) graph.now graph.now
        (D.told disk.new).bytes (D.told disk.new).may_leave) }
    ensures most { IfOk result (λ ready. ready.most ≡ 2 * op_total graph.now.rollout) }
    ensures any_moment { IfSome (D.told disk.old).bytes
        (λ _. LeavesOnly D.told disk.old disk.new
        (MayStand graph.now.rollout digest.now image.now Fresh (D.told disk.old).may_leave)) }
    ensures cause { IfErr result
        (λ fault. Causes fault (D.told disk.old).faults (D.told disk.new).faults) }
    ensures told { KeepsTelling (D.told disk.old).bytes (D.told disk.new).bytes }
    ensures count { (D.told disk.old).faults ≤ (D.told disk.new).faults }
{
    let start = zeros(alloc, item_count(graph.plan().problem()))?;
    let list = EntryList::new(alloc);
    let prepared = prepare(alloc, graph, digest, &start, list.as_slice())?;
    let rest = make(disk, is_cleared(image), &prepared.part)?;
    Ok(Ready {
        rest,
        most: prepared.most,
        body: prepared.body,
        list,
    })
}

// Opens the journal that was read, and writes it anew.
fn go_on<D: Disk>(
    alloc: Global,
    disk: &mut D,
    image: &[u8],
    digest: &Digest,
    graph: &mut Graph,
) -> Result<Ready, JournalFault>
    requires image { Holds (λ all. all ≡ image.now) (D.told disk.old).bytes
        (D.told disk.old).may_leave }
    requires empty { graph.old.history ≡ from_nothing graph.old.rollout.problem [] }
    ensures ok { IfOk result
        (λ ready. IsReady (judged_journal graph.old.rollout digest.now image.now)
        (kept_for graph.old.rollout digest.now
        (judged_journal graph.old.rollout digest.now image.now)) ready.list ready.rest.gate
        ready.rest.end ready.most (vec_capacity ready.body) graph.old graph.new
        (D.told disk.new).bytes (D.told disk.new).may_leave) }
    ensures most { IfOk result (λ ready. ready.most ≡ 2 * op_total graph.old.rollout) }
    ensures any_moment { IfSome (D.told disk.old).bytes
        (λ _. LeavesOnly D.told disk.old disk.new
        (MayStand graph.old.rollout digest.now image.now
        (judged_journal graph.old.rollout digest.now image.now) (D.told disk.old).may_leave)) }
    ensures cause { IfErr result
        (λ given. given ≡ fault.Disk → Rose (D.told disk.old).faults (D.told disk.new).faults) }
    ensures refusal { IfErr result
        (λ fault. IsCause fault digest.now
        (judged_journal graph.old.rollout digest.now image.now)) }
    ensures unmoved { IfErr result (λ fault. BeforeList fault (graph.new ≡ graph.old)) }
    ensures graph { IfErr result (λ fault. LeavesGraphOf image.now fault graph.old graph.new) }
    ensures unwritten { IfErr result (λ fault. OnRefusal fault (disk.new ≡ disk.old)) }
    ensures told { KeepsTelling (D.told disk.old).bytes (D.told disk.new).bytes }
    ensures count { (D.told disk.old).faults ≤ (D.told disk.new).faults }
{
    let judged = judge(alloc, image, digest, graph)?;
    if judged.found.start > LATEST_START {
        return Err(JournalFault::Memory);
    }
    let prepared = prepare(alloc, graph, digest, &judged.start, judged.list.as_slice())?;
    let rest = renew(disk, &judged.found, &prepared.part)?;
    Ok(Ready {
        rest,
        most: prepared.most,
        body: prepared.body,
        list: judged.list,
    })
}
