//! The opening of a journal on a disk in memory, so many times over. Standard input is a document on its first
//! line, and the image of a journal of its rollout in hexadecimal digits on the second. How many entries were
//! found is printed at the end.
ghost use Rattle.std.specs.Prelude.{◌≡◌, []};
ghost use Rattle.rollout_rules.specs.History.{from_nothing};

use crate::rollout;
use anyhow::{Context, Result};
use dependency_graph::Graph;
use disk_model::MemoryDisk;
use intent_journal::{Digest, recover};
use std::alloc::Global;
use std::io::{BufRead, BufReader};
use wan_edge::{Nums8, Turns};
use wan_model::CheckedPlan;

pub(crate) fn measure(rt: &HostRuntime, times: u32) -> Result<()> {
    let alloc = rt.alloc();
    let mut lines = BufReader::new(alloc, rt.reader())?.lines(alloc);
    let document = lines.next().context("no document")??;
    let image = lines.next().context("no image")??;
    open_text(rt, document.as_bytes(), image.as_str(), times)
}

fn open_text(rt: &HostRuntime, document: &[u8], image: &str, times: u32) -> Result<()> {
    let image = hex::decode(rt.alloc(), image)?;
    open_plan(rt, rollout::plan(rt.alloc(), document)?, &image, times)
}

fn open_plan(rt: &HostRuntime, plan: CheckedPlan, image: &[u8], times: u32) -> Result<()> {
    match rollout::digest(rt.alloc(), &plan, 0) {
        Ok(digest) => print_entries(rt, open_each_time(rt.alloc(), plan, &digest, image, times)),
        Err(error) => {
            drop(plan);
            Err(error)
        }
    }
}

fn print_entries(rt: &HostRuntime, entries: Option<usize>) -> Result<()> {
    let entries = entries.context("no journal of this rollout")?;
    println!(rt; "entries {entries}")?;
    Ok(())
}

// How many entries were found the last time.
fn open_each_time(
    alloc: Global,
    plan: CheckedPlan,
    digest: &Digest,
    image: &[u8],
    times: u32,
) -> Option<usize> {
    let mut plan = plan;
    let mut entries = Some(0);
    for _time in 0..times {
        let opened = open_once(alloc, plan, digest, image)?;
        plan = opened.plan;
        entries = opened.entries;
    }
    drop(plan);
    entries
}

/// How many entries a journal has, where it is one of this rollout, and the plan again that it is over.
#[derive(Drop)]
struct Opened {
    entries: Option<usize>,
    plan: CheckedPlan,
}

// Nothing where memory runs out for the graph.
fn open_once(alloc: Global, plan: CheckedPlan, digest: &Digest, image: &[u8]) -> Option<Opened> {
    match Graph::new(alloc, plan) {
        Ok(graph) => Some(open_over(alloc, graph, digest, image)),
        Err(plan) => {
            drop(plan);
            None
        }
    }
}

fn open_over(alloc: Global, graph: Graph, digest: &Digest, image: &[u8]) -> Opened
    requires empty { graph.history ≡ from_nothing graph.rollout.problem [] }
{
    let mut graph = graph;
    Opened {
        entries: entries_of(alloc, &mut graph, digest, image),
        plan: graph.into_plan(),
    }
}

// How many entries a journal of these bytes has.
fn entries_of(alloc: Global, graph: &mut Graph, digest: &Digest, image: &[u8]) -> Option<usize>
    requires empty { graph.old.history ≡ from_nothing graph.old.rollout.problem [] }
{
    match disk_of(alloc, image) {
        Some(disk) => entries_on(alloc, disk, graph, digest),
        None => None,
    }
}

fn disk_of(alloc: Global, image: &[u8]) -> Option<MemoryDisk> {
    let mut bytes = Nums8::new(alloc);
    if bytes.extend_from_slice(image).is_err() {
        drop(bytes);
        return None;
    }
    Some(MemoryDisk::new(alloc, bytes, Turns::new(alloc)))
}

fn entries_on(alloc: Global, disk: MemoryDisk, graph: &mut Graph, digest: &Digest) -> Option<usize>
    requires empty { graph.old.history ≡ from_nothing graph.old.rollout.problem [] }
{
    match recover(alloc, disk, digest, graph) {
        Ok((journal, list)) => {
            drop(journal.into_disk());
            let entries = list.as_slice().len();
            drop(list);
            Some(entries)
        }
        Err(unopened) => {
            drop(unopened);
            None
        }
    }
}
