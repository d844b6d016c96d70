//! A journal on a disk in memory, a case a line. Standard input is a document on its first line, and then
//! on each line a case. Of each it prints what came of it, how many calls the disk had, and both images
//! that a crash may leave.
ghost use Rattle.std.specs.Prelude.{◌≡◌, [], true};
ghost use Rattle.rollout_rules.specs.History.{from_nothing};

use crate::case::{Call, Case};
use crate::printing::{print_number, print_words};
use crate::rollout;
use anyhow::{Context, Result};
use dependency_graph::Graph;
use disk_model::MemoryDisk;
use intent_journal::{Digest, Journal, JournalFault, place, recover};
use rollout_rules::{Entry, EntryList};
use std::alloc::Global;
use std::io::{BufRead, BufReader};
use wan_edge::Failed;

pub(crate) fn measure(rt: &HostRuntime) -> Result<()> {
    let alloc = rt.alloc();
    let mut lines = BufReader::new(alloc, rt.reader())?.lines(alloc);
    let document = lines.next().context("no document")??;
    for line in lines {
        let line = line?;
        answer(rt, document.as_bytes(), line.as_str())?;
    }
    Ok(())
}

fn answer(rt: &HostRuntime, document: &[u8], line: &str) -> Result<()> {
    let case = Case::of(rt.alloc(), line)?;
    let answered = answer_of(rt, document, &case);
    drop(case);
    answered
}

fn answer_of(rt: &HostRuntime, document: &[u8], case: &Case) -> Result<()> {
    answer_over(rt, case, rollout::graph(rt.alloc(), document)?)
}

fn answer_over(rt: &HostRuntime, case: &Case, graph: Graph) -> Result<()>
    requires empty { graph.history ≡ from_nothing graph.rollout.problem [] }
{
    let mut graph = graph;
    let answered = answer_case(rt, case, &mut graph);
    drop(graph);
    answered
}

fn answer_case(rt: &HostRuntime, case: &Case, graph: &mut Graph) -> Result<()>
    requires empty { graph.old.history ≡ from_nothing graph.old.rollout.problem [] }
{
    let digest = rollout::digest(rt.alloc(), graph.plan(), case.migration)?;
    let disk = case.disk(rt.alloc())?;
    let outcome = carried_out(rt.alloc(), case, disk, &digest, graph);
    let printed = print(rt, &outcome);
    drop(outcome);
    printed
}

/// What came of a call, and the disk after it.
#[derive(Drop)]
struct CallResult {
    end: End,
    disk: MemoryDisk,
}

#[derive(Drop)]
enum End {
    Placed,
    /// The journal is open with this list, and this came of the batch.
    Open(EntryList, Added),
    Fault(JournalFault),
}

#[derive(Clone, Copy)]
enum Added {
    /// There was no batch.
    Nothing,
    /// There is no room for so many entries.
    TooMany,
    All,
    /// The disk failed.
    Failed,
}

fn carried_out(
    alloc: Global,
    case: &Case,
    disk: MemoryDisk,
    digest: &Digest,
    graph: &mut Graph,
) -> CallResult
    requires empty { graph.old.history ≡ from_nothing graph.old.rollout.problem [] }
{
    match case.call {
        Call::Place => place_once(alloc, disk, digest, graph),
        Call::Recover => recover_once(alloc, disk, digest, graph, case.batch.as_slice()),
    }
}

#[tactic(auto, using(crate::proofs::Starting::nothing_flies))]
fn place_once(alloc: Global, disk: MemoryDisk, digest: &Digest, graph: &Graph) -> CallResult
    requires empty { graph.now.history ≡ from_nothing graph.now.rollout.problem [] }
{
    let mut disk = disk;
    let end = match place(alloc, &mut disk, digest, graph) {
        Ok(()) => End::Placed,
        Err(cause) => End::Fault(cause),
    };
    CallResult { end, disk }
}

fn recover_once(
    alloc: Global,
    disk: MemoryDisk,
    digest: &Digest,
    graph: &mut Graph,
    batch: &[Entry],
) -> CallResult
    requires empty { graph.old.history ≡ from_nothing graph.old.rollout.problem [] }
{
    let most = 2 * u64::from(graph.op_total());
    match recover(alloc, disk, digest, graph) {
        Ok((journal, list)) => append_once(journal, list, batch, most),
        Err(unopened) => CallResult {
            end: End::Fault(unopened.cause),
            disk: unopened.disk,
        },
    }
}

fn append_once(
    journal: Journal<MemoryDisk>,
    list: EntryList,
    batch: &[Entry],
    most: u64,
) -> CallResult
    requires live { journal.live ≡ true }
    requires most { journal.most ≡ most }
{
    let mut journal = journal;
    let added = add(&mut journal, batch, most);
    CallResult {
        end: End::Open(list, added),
        disk: journal.into_disk(),
    }
}

// Adds the batch where there is one, to a journal with room for so many entries in all.
fn add(journal: &mut Journal<MemoryDisk>, batch: &[Entry], most: u64) -> Added
    requires live { journal.old.live ≡ true }
    requires most { journal.old.most ≡ most }
{
    if batch.is_empty() {
        return Added::Nothing;
    }
    if u64::from(journal.entries()) + batch.len() as u64 > most {
        return Added::TooMany;
    }
    match journal.append(batch) {
        Ok(()) => Added::All,
        Err(Failed) => Added::Failed,
    }
}

fn print(rt: &HostRuntime, outcome: &CallResult) -> Result<()> {
    match &outcome.end {
        End::Placed => print_words(rt, "placed")?,
        End::Open(list, added) => print_open(rt, list.as_slice(), *added)?,
        End::Fault(cause) => print_fault(rt, *cause)?,
    }
    print_disk(rt, &outcome.disk)
}

fn print_open(rt: &HostRuntime, list: &[Entry], added: Added) -> Result<()> {
    print!(rt; "open")?;
    for entry in list {
        print_entry(rt, *entry)?;
    }
    println!(rt; "")?;
    match added {
        Added::Nothing => Ok(()),
        Added::TooMany => print_words(rt, "too many entries"),
        Added::All => print_words(rt, "appended"),
        Added::Failed => print_words(rt, "failed"),
    }
}

fn print_entry(rt: &HostRuntime, entry: Entry) -> Result<()> {
    let (kind, op) = match entry {
        Entry::Begin(op) => ('b', op),
        Entry::Done(op) => ('d', op),
    };
    print!(rt; " {kind}:{}:{}", op.item, op.number)?;
    Ok(())
}

fn print_fault(rt: &HostRuntime, fault: JournalFault) -> Result<()> {
    match fault {
        JournalFault::Disk => print_words(rt, "disk"),
        JournalFault::NotJournal(first) => print_number(rt, "first byte", u64::from(first)),
        JournalFault::OtherPlan(kept, wanted) => {
            print_other(rt, kept.migration, wanted.migration)
        }
        JournalFault::Illegal(place) => print_illegal(rt, place),
        JournalFault::BadStart => print_words(rt, "start refused"),
        JournalFault::Memory => print_words(rt, "memory"),
    }
}

fn print_other(rt: &HostRuntime, kept: u32, wanted: u32) -> Result<()> {
    println!(rt; "other plan {kept} {wanted}")?;
    Ok(())
}

fn print_illegal(rt: &HostRuntime, place: u32) -> Result<()> {
    println!(rt; "entry {place} illegal")?;
    Ok(())
}

fn print_disk(rt: &HostRuntime, disk: &MemoryDisk) -> Result<()> {
    let kept = digits_of(rt.alloc(), disk, true)?;
    let synced = digits_of(rt.alloc(), disk, false)?;
    println!(rt; "calls {} kept {kept} synced {synced}", disk.calls())?;
    Ok(())
}

// The image that a crash leaves, with what wasn't synced or without it.
fn digits_of(alloc: Global, disk: &MemoryDisk, keep: bool) -> Result<String> {
    let image = disk.left(keep)?;
    let digits = hex::encode(alloc, image.as_slice());
    drop(image);
    Ok(digits?)
}
