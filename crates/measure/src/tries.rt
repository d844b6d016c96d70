//! How many operations a release tries. Standard input is a document. After a first release one operation
//! in flight after another is done, the first by item, each with a release of its own; what is printed is
//! how many items are woken before it, which it tries alone, and how many operations it begins.
ghost use Rattle.std.specs.Prelude.{◌≡◌, ◌<◌, IfSome, IsTrue};
ghost use Rattle.rollout_rules.specs.History.{flies};
ghost use Rattle.rollout_rules.specs.Items.{item_count};

use crate::rollout;
use anyhow::Result;
use dependency_graph::Graph;
use order_policy::Policy;
use std::io::Read;
use update_scheduler::{Bench, release};
use wan_model::{OpView, item_count};

pub(crate) fn measure(rt: &HostRuntime, times: u32) -> Result<()> {
    let mut given = Vec::new(rt.alloc());
    rt.stdin().read_to_end(&mut given)?;
    let graph = rollout::graph(rt.alloc(), &given);
    drop(given);
    try_over(rt, graph?, times)
}

fn try_over(rt: &HostRuntime, graph: Graph, times: u32) -> Result<()> {
    let mut graph = graph;
    let tried = try_releases(rt, &mut graph, times);
    drop(graph);
    tried
}

// Releases by item, whose policy ranks all alike.
fn try_releases(rt: &HostRuntime, graph: &mut Graph, times: u32) -> Result<()> {
    let by_item: Box<dyn Fn(OpView) -> u64 + Send + Sync> = Box::new(
        rt.alloc(),
        |_view: OpView| -> u64
            ensures { result ≡ 0 }
        { 0 },
    )?;
    let policy = Policy::new(by_item);
    bench_releases(rt, graph, &policy, times)
}

fn bench_releases(rt: &HostRuntime, graph: &mut Graph, policy: &Policy, times: u32) -> Result<()> {
    let mut bench = Bench::new(rt.alloc(), graph)?;
    let printed = print_releases(rt, graph, policy, &mut bench, times);
    drop(bench);
    printed
}

fn print_releases(
    rt: &HostRuntime,
    graph: &mut Graph,
    policy: &Policy,
    bench: &mut Bench,
    times: u32,
) -> Result<()>
    requires { bench.old.items ≡ item_count graph.old.rollout.problem }
{
    let_go(graph, policy, bench);
    for _time in 0..times {
        if !first_done(graph) {
            return Ok(());
        }
        let woken = graph.woken().len();
        let begun = let_go(graph, policy, bench);
        println!(rt; "woken {woken}, began {begun}")?;
    }
    Ok(())
}

// How many operations a release begins.
fn let_go(graph: &mut Graph, policy: &Policy, bench: &mut Bench) -> usize
    requires { bench.old.items ≡ item_count graph.old.rollout.problem }
    ensures rollout { graph.new.rollout ≡ graph.old.rollout }
    ensures items { bench.new.items ≡ bench.old.items }
{
    release(graph, policy, bench);
    bench.begun().len()
}

// Settles the first operation in flight, by item. Whether there was one.
fn first_done(graph: &mut Graph) -> bool
    ensures { graph.new.rollout ≡ graph.old.rollout }
{
    match first_flying(graph) {
        Some(item) => {
            graph.done(item);
            true
        }
        None => false,
    }
}

fn first_flying(graph: &Graph) -> Option<u32>
    ensures item { IfSome result (λ item. item < item_count graph.now.rollout.problem) }
    ensures flies { IfSome result (λ item. IsTrue (flies graph.now.history item)) }
{
    for item in 0..item_count(graph.plan().problem()) {
        if graph.flying(item) {
            return Some(item);
        }
    }
    None
}
