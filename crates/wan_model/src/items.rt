ghost use Rattle.std.specs.Prelude.{◌≡◌, ◌<◌, length, IfSome, IsTrue};
ghost use Rattle.rollout_rules.specs.Items.{item_count, item_at, entry_from, home_of, is_item};
ghost use Rattle.rollout_rules.specs.declared.item.Item.TheVariants as variants;

use crate::problem::Problem;
use crate::tunnel::Tunnel;
use rollout_rules::Item;

/// How many items a rollout has: the flows, and the entries of each tunnel. Time: the tunnels.
pub fn item_count(problem: &Problem) -> u32
    ensures { result ≡ item_count problem.now }
{
    let mut count = problem.flows().len() as u32;
    for t in 0..problem.tunnels().len() {
        count += problem.hops(t);
    }
    count
}

/// The item with a number: the flows come first, then the entries, tunnel by tunnel and hop by hop. Time:
/// the tunnels.
pub fn item_at(problem: &Problem, number: u32) -> Item
    requires { number < item_count problem.now }
    ensures { result ≡ item_at problem.now number }
{
    let flows = problem.flows().len() as u32;
    if number < flows {
        return Item::Flow(number);
    }
    entry_at(problem.tunnels(), number - flows)
}

/// The entry with a number among those of all tunnels.
fn entry_at(tunnels: &[Tunnel], number: u32) -> Item
    requires { length tunnels.now < 4294967296 }
    ensures { result ≡ entry_from tunnels.now 0 number }
{
    let mut left = number;
    for t in 0..tunnels.len() {
        let tunnel = &tunnels[t];
        let hops = tunnel.path.as_slice().len();
        if (left as usize) < hops {
            return Item::Entry {
                tunnel: t as u32,
                hop: left,
            };
        }
        left -= hops as u32;
    }
    Item::Entry {
        tunnel: tunnels.len() as u32,
        hop: left,
    }
}

/// The switch that applies the operations of the item with a number: the first on a flow's paths, or the
/// entry's own. None exactly for a flow without tunnels. Time: the tunnels.
pub fn home_of(problem: &Problem, number: u32) -> Option<u32>
    requires { number < item_count problem.now }
    ensures { result ≡ home_of problem.now (item_at problem.now number) }
{
    home_of_item(problem, item_at(problem, number))
}

/// The same of an item.
pub fn home_of_item(problem: &Problem, item: Item) -> Option<u32>
    requires { IsTrue (is_item problem.now item) }
    ensures home { result ≡ home_of problem.now item }
    ensures inside { IfSome result (λ home. home < length problem.now.switches) }
{
    match item {
        Item::Flow(flow) => first_switch(problem, flow as usize),
        Item::Entry { tunnel, hop } => Some(problem.path(tunnel as usize)[hop as usize]),
    }
}

// The first switch on a flow's paths.
fn first_switch(problem: &Problem, flow: usize) -> Option<u32>
    requires { flow < length problem.now.flows }
    ensures home { result ≡ home_of problem.now (variants.Flow flow) }
    ensures inside { IfSome result (λ home. home < length problem.now.switches) }
{
    if problem.tunnel_count(flow) == 0 {
        return None;
    }
    Some(problem.path(problem.tunnel_of(flow, 0))[0])
}
