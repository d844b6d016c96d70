ghost use Rattle.std.specs.Prelude.{◌≡◌, ◌<◌, ◌≤◌, ◌+◌, ◌-◌, ℕ, map, length, slice_index};
ghost use Rattle.rollout_rules.specs.Sums.{list_below};
ghost use Rattle.rollout_rules.specs.Wan.{Problem};
ghost use Rattle.rollout_rules.specs.Network.{IsNetwork};
ghost use Rattle.serde_json.specs.Written.{compact_text};
ghost use Rattle.problem_json.specs.Writing.{switch_data, link_data, name_data, rate_data, tunnel_data, flow_data, list_data, problem_data, format_text, width_text};
ghost use Rattle.wan_text.specs.Named.{AreNamesOf, quoted_name};

use crate::writing::pieces::{push_comma, push_number};
use lists::Text;
use text_writer::Pieces;
use wan_model::{Flow, Link, Problem, Switch, Tunnel};
use wan_text::Names;

/// Adds a problem, row by row.
pub fn push_problem<P: Pieces>(text: &mut P, names: &Names, problem: &Problem)
    requires { AreNamesOf names.now problem.now }
    ensures text { P.pushes text.old (compact_text (problem_data problem.now)) text.new }
    ensures network { IsNetwork problem.now }
{
    text.push_str(r#"{"flows":"#);
    push_flows(text, problem, names);
    push_format(text, problem.format());
    text.push_str(r#","links":"#);
    push_links(text, problem, names.switches());
    text.push_str(r#","switches":"#);
    push_switches(text, names.switches(), problem.switches());
    text.push_str("}");
}

/// Adds the member of the format, where it isn't 1.
fn push_format<P: Pieces>(text: &mut P, format: u32)
    ensures { P.pushes text.old (format_text format) text.new }
{
    if format == 1 {
        return;
    }
    text.push_str(r#","format":"#);
    push_number(text, u64::from(format));
}

fn push_switches<P: Pieces>(text: &mut P, names: &[Text], switches: &[Switch])
    requires { names.now ≡ map quoted_name switches.now }
    ensures { P.pushes text.old (compact_text (list_data (map switch_data switches.now))) text.new }
{
    text.push_str("[");
    for (number, switch) in switches.iter().enumerate() {
        push_comma(text, number);
        push_switch(text, names[number].as_str(), switch);
    }
    text.push_str("]");
}

fn push_switch<P: Pieces>(text: &mut P, name: &str, switch: &Switch)
    requires { name.now ≡ quoted_name switch.now }
    ensures { P.pushes text.old (compact_text (switch_data switch.now)) text.new }
{
    text.push_str(r#"{"name":"#);
    text.push_str(name);
    text.push_str(r#","table":"#);
    push_number(text, u64::from(switch.table));
    text.push_str("}");
}

fn push_links<P: Pieces>(text: &mut P, problem: &Problem, names: &[Text])
    requires { names.now ≡ map quoted_name problem.now.switches }
    ensures { P.pushes text.old
        (compact_text (list_data (map (link_data problem.now) problem.now.links))) text.new }
{
    text.push_str("[");
    for (number, link) in problem.links().iter().enumerate() {
        push_comma(text, number);
        push_link(text, names, link);
    }
    text.push_str("]");
}

fn push_link<P: Pieces>(text: &mut P, names: &[Text], link: &Link)
    requires begins { link.now.from < length names.now }
    requires ends { link.now.to < length names.now }
    ensures { (p : Problem) → names.now ≡ map quoted_name p.switches
        → P.pushes text.old (compact_text (link_data p link.now)) text.new }
{
    text.push_str(r#"{"capacity":"#);
    push_number(text, link.capacity);
    text.push_str(r#","from":"#);
    text.push_str(names[link.from as usize].as_str());
    text.push_str(r#","to":"#);
    text.push_str(names[link.to as usize].as_str());
    text.push_str("}");
}

fn push_flows<P: Pieces>(text: &mut P, problem: &Problem, names: &Names)
    requires { AreNamesOf names.now problem.now }
    ensures { P.pushes text.old
        (compact_text (list_data (list_below (length problem.now.flows) (flow_data problem.now))))
        text.new }
{
    text.push_str("[");
    for number in 0..problem.flows().len() {
        push_comma(text, number);
        push_flow(text, problem, names, number);
    }
    text.push_str("]");
}

fn push_flow<P: Pieces>(text: &mut P, problem: &Problem, names: &Names, number: usize)
    requires inside { number < length problem.now.flows }
    requires names { AreNamesOf names.now problem.now }
    ensures { P.pushes text.old (compact_text (flow_data problem.now number)) text.new }
{
    let flow = &problem.flows()[number];
    let first = flow.first as usize;
    text.push_str(r#"{"name":"#);
    text.push_str(names.flows()[number].as_str());
    text.push_str(r#","tunnels":"#);
    push_tunnels(
        text,
        problem,
        names.switches(),
        first,
        first + flow.tunnels as usize,
    );
    text.push_str("}");
}

/// Adds the tunnels from one number to before another.
fn push_tunnels<P: Pieces>(
    text: &mut P,
    problem: &Problem,
    names: &[Text],
    begin: usize,
    end: usize,
)
    requires order { begin ≤ end }
    requires inside { end ≤ length problem.now.tunnels }
    requires names { names.now ≡ map quoted_name problem.now.switches }
    ensures { P.pushes text.old
        (compact_text (list_data (list_below (end - begin)
        (λ j. tunnel_data problem.now (begin + j))))) text.new }
{
    text.push_str("[");
    for number in begin..end {
        push_comma(text, number - begin);
        push_tunnel(text, problem, names, number);
    }
    text.push_str("]");
}

fn push_tunnel<P: Pieces>(text: &mut P, problem: &Problem, names: &[Text], number: usize)
    requires inside { number < length problem.now.tunnels }
    requires names { names.now ≡ map quoted_name problem.now.switches }
    ensures { P.pushes text.old (compact_text (tunnel_data problem.now number)) text.new }
{
    let tunnel = &problem.tunnels()[number];
    text.push_str(r#"{"new":"#);
    push_rate(text, tunnel.new);
    text.push_str(r#","old":"#);
    push_rate(text, tunnel.old);
    text.push_str(r#","path":"#);
    push_path(text, names, tunnel.path.as_slice());
    push_width(text, problem.format(), tunnel.width);
    text.push_str("}");
}

/// Adds a rate, null where the tunnel isn't installed.
fn push_rate<P: Pieces>(text: &mut P, rate: Option<u64>)
    ensures { P.pushes text.old (compact_text (rate_data rate)) text.new }
{
    match rate {
        Some(rate) => push_number(text, rate),
        None => text.push_str("null"),
    }
}

/// Adds the names of the switches on a path.
fn push_path<P: Pieces>(text: &mut P, names: &[Text], path: &[u32])
    requires { (h : ℕ) → h < length path.now → slice_index path.now h < length names.now }
    ensures { (p : Problem)
        → names.now ≡ map quoted_name p.switches
        → P.pushes text.old (compact_text (list_data (map (name_data p) path.now))) text.new }
{
    text.push_str("[");
    for (number, switch) in path.iter().enumerate() {
        push_comma(text, number);
        text.push_str(names[*switch as usize].as_str());
    }
    text.push_str("]");
}

/// Adds the member of the width, where the format has one.
fn push_width<P: Pieces>(text: &mut P, format: u32, width: u32)
    ensures { P.pushes text.old (width_text format width) text.new }
{
    if format == 1 {
        return;
    }
    text.push_str(r#","width":"#);
    push_number(text, u64::from(width));
}
