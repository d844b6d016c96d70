//! What each row of a problem has, by its number.

ghost use Rattle.std.specs.Prelude.{◌≡◌, ◌*◌, ◌<◌, ◌≤◌, is_some, length};
ghost use Rattle.rollout_rules.specs.Wan as wan;
ghost use Rattle.rollout_rules.specs.Valid.{flow_total};
ghost use Rattle.rollout_rules.specs.Network.{IsNetwork, IsRate};
ghost use Rattle.wan_model.specs.Sides.{rate_on, total_on};
ghost use Rattle.rollout_rules.specs.declared.limits.TheConstants.{MOST_TUNNELS_OF_FLOW, MOST_HOPS, LARGEST_RATE, LARGEST_WIDTH};

use crate::problem::Problem;
use crate::side::Side;

impl Problem {
    /// The name of a switch.
    pub fn switch_name(&self, switch: usize) -> &str
        requires { switch < length self.now.switches }
        ensures { result.now ≡ (wan.switch_at self.now switch).name }
    {
        let row = &self.switches()[switch];
        row.name.as_str()
    }

    /// How many entries the table of a switch holds.
    pub fn table(&self, switch: usize) -> u32
        requires { switch < length self.now.switches }
        ensures { result ≡ (wan.switch_at self.now switch).table }
    {
        let row = &self.switches()[switch];
        row.table
    }

    /// The capacity of a link.
    pub fn capacity(&self, link: usize) -> u64
        requires { link < length self.now.links }
        ensures { result ≡ (wan.link_at self.now link).capacity }
    {
        let row = &self.links()[link];
        row.capacity
    }

    /// The name of a flow.
    pub fn flow_name(&self, flow: usize) -> &str
        requires { flow < length self.now.flows }
        ensures { result.now ≡ (wan.flow_at self.now flow).name }
    {
        let row = &self.flows()[flow];
        row.name.as_str()
    }

    /// How many tunnels a flow has.
    pub fn tunnel_count(&self, flow: usize) -> u32
        requires { flow < length self.now.flows }
        ensures value { result ≡ (wan.flow_at self.now flow).tunnels }
        ensures few { result ≤ MOST_TUNNELS_OF_FLOW }
    {
        let row = &self.flows()[flow];
        row.tunnels
    }

    /// The number of a flow's j-th tunnel.
    pub fn tunnel_of(&self, flow: usize, j: u32) -> usize
        requires flow { flow < length self.now.flows }
        requires tunnel { j < (wan.flow_at self.now flow).tunnels }
        ensures value { result ≡ wan.tunnel_of self.now flow j }
        ensures inside { result < length self.now.tunnels }
        ensures own { (wan.tunnel_at self.now result).flow ≡ flow }
    {
        let row = &self.flows()[flow];
        row.first as usize + j as usize
    }

    /// The flow of a tunnel.
    pub fn flow_of(&self, tunnel: usize) -> usize
        requires { tunnel < length self.now.tunnels }
        ensures value { result ≡ (wan.tunnel_at self.now tunnel).flow }
        ensures inside { result < length self.now.flows }
    {
        let row = &self.tunnels()[tunnel];
        row.flow as usize
    }

    /// The switches on the path of a tunnel.
    pub fn path(&self, tunnel: usize) -> &[u32]
        requires { tunnel < length self.now.tunnels }
        ensures list { result.now ≡ (wan.tunnel_at self.now tunnel).path }
        ensures network { IsNetwork self.now }
    {
        let row = &self.tunnels()[tunnel];
        row.path.as_slice()
    }

    /// How many switches stand on the path of a tunnel.
    pub fn hops(&self, tunnel: usize) -> u32
        requires { tunnel < length self.now.tunnels }
        ensures value { result ≡ wan.hops self.now tunnel }
        ensures least { 2 ≤ result }
        ensures most { result ≤ MOST_HOPS }
    {
        self.path(tunnel).len() as u32
    }

    /// The switch at a hop of a tunnel.
    pub fn switch_of(&self, tunnel: usize, hop: usize) -> usize
        requires tunnel { tunnel < length self.now.tunnels }
        requires hop { hop < wan.hops self.now tunnel }
        ensures value { result ≡ wan.switch_of self.now tunnel hop }
        ensures inside { result < length self.now.switches }
    {
        self.path(tunnel)[hop] as usize
    }

    /// The links between the switches on the path of a tunnel.
    pub fn links_of(&self, tunnel: usize) -> &[u32]
        requires { tunnel < length self.now.tunnels }
        ensures list { result.now ≡ (wan.tunnel_at self.now tunnel).links }
        ensures network { IsNetwork self.now }
    {
        let row = &self.tunnels()[tunnel];
        row.links.as_slice()
    }

    /// How many entries a tunnel takes in each table on its path.
    pub fn width(&self, tunnel: usize) -> u32
        requires { tunnel < length self.now.tunnels }
        ensures value { result ≡ wan.width_of self.now tunnel }
        ensures least { 1 ≤ result }
        ensures most { result ≤ LARGEST_WIDTH }
    {
        let row = &self.tunnels()[tunnel];
        row.width
    }

    /// The rate of a tunnel in a split, or None where it isn't installed there.
    pub fn rate_on(&self, side: Side, tunnel: usize) -> Option<u64>
        requires { tunnel < length self.now.tunnels }
        ensures value { result ≡ rate_on side (wan.tunnel_at self.now tunnel) }
        ensures within { IsRate result }
    {
        let row = &self.tunnels()[tunnel];
        match side {
            Side::Old => row.old,
            Side::New => row.new,
        }
    }

    /// The old rate of a tunnel: 0 where it isn't installed at first.
    pub fn old_rate(&self, tunnel: usize) -> u64
        requires { tunnel < length self.now.tunnels }
        ensures value { result ≡ wan.old_rate (wan.tunnel_at self.now tunnel) }
        ensures most { result ≤ LARGEST_RATE }
    {
        self.rate_on(Side::Old, tunnel).unwrap_or(0)
    }

    /// The new rate of a tunnel: 0 where it isn't installed in the end.
    pub fn new_rate(&self, tunnel: usize) -> u64
        requires { tunnel < length self.now.tunnels }
        ensures value { result ≡ wan.new_rate (wan.tunnel_at self.now tunnel) }
        ensures most { result ≤ LARGEST_RATE }
    {
        self.rate_on(Side::New, tunnel).unwrap_or(0)
    }

    /// Whether a tunnel is installed at first.
    pub fn was_installed(&self, tunnel: usize) -> bool
        requires { tunnel < length self.now.tunnels }
        ensures { result ≡ is_some (wan.tunnel_at self.now tunnel).old }
    {
        self.rate_on(Side::Old, tunnel).is_some()
    }

    /// Whether a tunnel is installed in the end.
    pub fn is_wanted(&self, tunnel: usize) -> bool
        requires { tunnel < length self.now.tunnels }
        ensures { result ≡ is_some (wan.tunnel_at self.now tunnel).new }
    {
        self.rate_on(Side::New, tunnel).is_some()
    }

    /// The sum of a flow's old rates. Time: its tunnels.
    pub fn old_total(&self, flow: usize) -> u128
        requires { flow < length self.now.flows }
        ensures value { result
            ≡ flow_total self.now (λ t. wan.old_rate (wan.tunnel_at self.now t)) flow }
        ensures most { result ≤ MOST_TUNNELS_OF_FLOW * LARGEST_RATE }
    {
        self.total_on(Side::Old, flow)
    }

    /// The sum of a flow's new rates. Time: its tunnels.
    pub fn new_total(&self, flow: usize) -> u128
        requires { flow < length self.now.flows }
        ensures value { result
            ≡ flow_total self.now (λ t. wan.new_rate (wan.tunnel_at self.now t)) flow }
        ensures most { result ≤ MOST_TUNNELS_OF_FLOW * LARGEST_RATE }
    {
        self.total_on(Side::New, flow)
    }

    fn total_on(&self, side: Side, flow: usize) -> u128
        requires { flow < length self.now.flows }
        ensures value { result ≡ total_on side self.now flow }
        ensures most { result ≤ MOST_TUNNELS_OF_FLOW * LARGEST_RATE }
    {
        let mut sum = 0;
        for j in 0..self.tunnel_count(flow) {
            sum += u128::from(self.rate_on(side, self.tunnel_of(flow, j)).unwrap_or(0));
        }
        sum
    }
}
