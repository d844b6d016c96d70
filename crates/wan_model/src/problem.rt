ghost use Rattle.std.specs.Prelude.{◌≡◌, ◌<◌, Option, Some, length, OnOk, OnErr, IfOk};
ghost use Rattle.rollout_rules.specs.Network.{IsFormat, IsNetwork};
ghost use Rattle.rollout_rules.specs.Building.{no_problem, no_wide_problem, with_switch, with_link, with_flow, with_tunnel, find_switch, find_flow, find_link, links_along, IsRoute, MayAddSwitch, MayAddLink, MayAddFlow, MayAddTunnel};

use crate::ends::Ends;
use crate::flow::Flow;
use crate::link::Link;
use crate::names::Names;
use crate::switch::Switch;
use crate::tunnel::Tunnel;
use lists::{Ids, Memory, Text};
use std::alloc::Global;
use std::marker::Model;

/// A network with the old and the new split of its flows over tunnels. In format 1 every tunnel has the
/// width 1; in format 2 each one has a width of its own.
///
/// Rows are numbered in the order in which they were added. Names and links are looked up by hash, so
/// that adding a row takes constant time, and a tunnel the length of its path. Lack of memory leaves a
/// problem as it was.
#[derive(Debug, Drop)]
pub struct Problem {
    format: u32,
    switches: Vec<Switch>,
    links: Vec<Link>,
    flows: Vec<Flow>,
    tunnels: Vec<Tunnel>,
    switch_names: Names,
    flow_names: Names,
    link_ends: Ends,
    alloc: Global,
}

impl Model for Problem {
    ghost use Rattle.rollout_rules.specs.Wan as wan;
    ghost use Rattle.wan_model.specs.Numbered.{IsNumberedNetwork};

    ghost Value = { wan.Problem };

    ghost view = { λ p. record {
      format = p.format;
      switches = p.switches.items;
      links = p.links.items;
      flows = p.flows.items;
      tunnels = p.tunnels.items;
    } };

    ghost invariant = { λ p. IsNumberedNetwork (record {
      format = p.format;
      switches = p.switches.items;
      links = p.links.items;
      flows = p.flows.items;
      tunnels = p.tunnels.items;
    }) p.switch_names p.flow_names p.link_ends };
}

impl Problem {
    /// A network without switches, in format 1.
    pub fn new(alloc: Global) -> Problem
        ensures { result ≡ no_problem }
    {
        Problem::of_format(alloc, 1)
    }

    /// A network without switches, in format 2.
    pub fn new_wide(alloc: Global) -> Problem
        ensures { result ≡ no_wide_problem }
    {
        Problem::of_format(alloc, 2)
    }

    pub(crate) fn of_format(alloc: Global, format: u32) -> Problem
        requires { IsFormat format }
        ensures { result ≡ record no_problem { format = format } }
    {
        Problem {
            format,
            switches: Vec::new(alloc),
            links: Vec::new(alloc),
            flows: Vec::new(alloc),
            tunnels: Vec::new(alloc),
            switch_names: Names::new(alloc),
            flow_names: Names::new(alloc),
            link_ends: Ends::new(alloc),
            alloc,
        }
    }

    /// Adds a switch whose forwarding table holds `table` entries, and answers its number. The name is
    /// new and within the limit.
    pub fn add_switch(&mut self, name: &str, table: u32) -> Result<u32, Memory>
        requires { MayAddSwitch self.old name.now table }
        ensures ok { OnOk result (self.new ≡ with_switch self.old name.now table) }
        ensures place { IfOk result (λ place. place ≡ length self.old.switches) }
        ensures err { OnErr result (self.new ≡ self.old) }
    {
        let place = self.switches.len() as u32;
        let mut text = Text::new(self.alloc);
        text.push_str(name)?;
        // Room for the row comes first, so that no name is noted without its row.
        self.switches.reserve(1)?;
        self.switch_names.add(self.alloc, name)?;
        self.switches.push_reserved(Switch { name: text, table });
        Ok(place)
    }

    /// Adds a link from one switch to another, and answers its number. It is the first link that leads
    /// from this one to that.
    pub fn add_link(&mut self, from: u32, to: u32, capacity: u64) -> Result<u32, Memory>
        requires { MayAddLink self.old from to capacity }
        ensures ok { OnOk result (self.new ≡ with_link self.old from to capacity) }
        ensures place { IfOk result (λ place. place ≡ length self.old.links) }
        ensures err { OnErr result (self.new ≡ self.old) }
    {
        let place = self.links.len() as u32;
        self.links.reserve(1)?;
        self.link_ends.add(from, to)?;
        self.links.push_reserved(Link { from, to, capacity });
        Ok(place)
    }

    /// Adds a flow without tunnels, and answers its number. The name is new among the flows.
    pub fn add_flow(&mut self, name: &str) -> Result<u32, Memory>
        requires { MayAddFlow self.old name.now }
        ensures ok { OnOk result (self.new ≡ with_flow self.old name.now) }
        ensures place { IfOk result (λ place. place ≡ length self.old.flows) }
        ensures err { OnErr result (self.new ≡ self.old) }
    {
        let place = self.flows.len() as u32;
        let first = self.tunnels.len() as u32;
        let mut text = Text::new(self.alloc);
        text.push_str(name)?;
        self.flows.reserve(1)?;
        self.flow_names.add(self.alloc, name)?;
        self.flows.push_reserved(Flow {
            name: text,
            first,
            tunnels: 0,
        });
        Ok(place)
    }

    /// Adds a tunnel along a path of switches to the last flow, and answers its number. Where a rate is
    /// `None`, the tunnel isn't installed. The path follows links, meets no switch twice, and has the
    /// ends of the flow's other tunnels; in format 1 the width is 1.
    pub fn add_tunnel(
        &mut self,
        path: &[u32],
        old: Option<u64>,
        new: Option<u64>,
        width: u32,
    ) -> Result<u32, Memory>
        requires { MayAddTunnel self.old path.now old new width }
        ensures ok { OnOk result (self.new ≡ with_tunnel self.old path.now old new width) }
        ensures place { IfOk result (λ place. place ≡ length self.old.tunnels) }
        ensures err { OnErr result (self.new ≡ self.old) }
    {
        let place = self.tunnels.len() as u32;
        let flow = self.flows.len() - 1;
        let links = self.links_along(path)?;
        let path = ids_of(self.alloc, path)?;
        self.tunnels.reserve(1)?;
        self.flows[flow].tunnels += 1;
        self.tunnels.push_reserved(Tunnel {
            flow: flow as u32,
            path,
            links,
            width,
            old,
            new,
        });
        Ok(place)
    }

    /// 1 where every tunnel has the width 1, and 2 where each one has a width of its own.
    pub fn format(&self) -> u32
        ensures value { result ≡ self.now.format }
        ensures network { IsNetwork self.now }
    {
        self.format
    }

    /// The switches by their numbers.
    pub fn switches(&self) -> &[Switch]
        ensures list { result.now ≡ self.now.switches }
        ensures network { IsNetwork self.now }
    {
        self.switches.as_slice()
    }

    /// The links by their numbers.
    pub fn links(&self) -> &[Link]
        ensures list { result.now ≡ self.now.links }
        ensures network { IsNetwork self.now }
    {
        self.links.as_slice()
    }

    /// The flows by their numbers.
    pub fn flows(&self) -> &[Flow]
        ensures list { result.now ≡ self.now.flows }
        ensures network { IsNetwork self.now }
    {
        self.flows.as_slice()
    }

    /// The tunnels by their numbers, those of each flow in a row.
    pub fn tunnels(&self) -> &[Tunnel]
        ensures list { result.now ≡ self.now.tunnels }
        ensures network { IsNetwork self.now }
    {
        self.tunnels.as_slice()
    }

    /// The number of the switch with this name.
    pub fn find_switch(&self, name: &str) -> Option<u32>
        ensures number { result ≡ find_switch self.now name.now }
        ensures network { IsNetwork self.now }
    {
        let number = self.switch_names.find(name)?;
        Some(number as u32)
    }

    /// The number of the flow with this name.
    pub fn find_flow(&self, name: &str) -> Option<u32>
        ensures number { result ≡ find_flow self.now name.now }
        ensures network { IsNetwork self.now }
    {
        let number = self.flow_names.find(name)?;
        Some(number as u32)
    }

    /// The number of the link that leads from one switch to another.
    pub fn find_link(&self, from: u32, to: u32) -> Option<u32>
        ensures number { result ≡ find_link self.now from to }
        ensures network { IsNetwork self.now }
    {
        let number = self.link_ends.find(from, to)?;
        Some(number as u32)
    }

    // The links between the switches of a route, in order.
    fn links_along(&self, path: &[u32]) -> Result<Ids, Memory>
        requires { IsRoute self.now path.now }
        ensures { IfOk result (λ links. links ≡ links_along self.now path.now) }
    {
        let mut links = Ids::new(self.alloc);
        for hop in 1..path.len() {
            let Some(link) = self.find_link(path[hop - 1], path[hop]) else {
                unreachable!()
            };
            links.push(link)?;
        }
        Ok(links)
    }
}

// A list of the same numbers.
fn ids_of(alloc: Global, numbers: &[u32]) -> Result<Ids, Memory>
    ensures { IfOk result (λ ids. ids ≡ numbers.now) }
{
    let mut ids = Ids::new(alloc);
    for number in numbers {
        ids.push(*number)?;
    }
    Ok(ids)
}
