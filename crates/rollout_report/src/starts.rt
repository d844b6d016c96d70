ghost use Rattle.std.specs.Prelude.{◌≡◌, ◌-◌, IfOk};
ghost use Rattle.rollout_rules.specs.Items as items;
ghost use Rattle.rollout_report.specs.Journals.{AreDones, settled_before};

use crate::{Counts, History};
use dependency_graph::Graph;
use lists::Memory;
use rollout_rules::Entry;
use std::alloc::Global;
use wan_model::item_count;

/// What was settled of each item before these entries of a graph's history.
pub(crate) fn start_before(
    alloc: Global,
    graph: &Graph,
    entries: &[Entry],
) -> Result<Vec<u32>, Memory>
    ensures { IfOk result (λ start. start.items ≡ settled_before graph.now entries.now) }
{
    let done = dones(alloc, graph, entries)?;
    let mut start = Vec::new(alloc);
    for item in 0..item_count(graph.plan().problem()) {
        start.push(less(graph.settled(item), done.settled(item)))?;
    }
    Ok(start)
}

/// How many operations of each item the entries settle.
fn dones(alloc: Global, graph: &Graph, entries: &[Entry]) -> Result<Counts, Memory>
    ensures { IfOk result
        (λ counts. AreDones (items.item_count graph.now.rollout.problem) entries.now counts) }
{
    let nothing = vec![in alloc; 0u32; item_count(graph.plan().problem()) as usize]?;
    Counts::over(alloc, graph.plan(), &History::new(&nothing, entries))
}

fn less(settled: u32, done: u64) -> u32
    ensures { result ≡ settled - done }
{
    u64::from(settled).saturating_sub(done) as u32
}
