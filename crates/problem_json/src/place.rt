ghost use Rattle.std.specs.Prelude.{◌≡◌, ◌++◌, decimal};
ghost use Rattle.std.specs.Fmt.{WritesOnOk};
ghost use Rattle.problem_json.specs.Places.{place_of, place_at, place_in, place_along};

mod installed;
mod stage;
mod tunnel;

use installed::{write_installed, write_mark};
use stage::{write_rate, write_rates, write_stage};
use std::fmt;
use tunnel::{write_hop, write_in_tunnel, write_tunnel};

/// What stands at a place of an input.
#[derive(Clone, Copy, Debug, Drop, PartialEq, Eq)]
pub enum Part {
    Top,
    Problem,
    Format,
    Switches,
    Switch,
    SwitchName,
    SwitchTable,
    Links,
    Link,
    LinkFrom,
    LinkTo,
    LinkCapacity,
    Flows,
    Flow,
    FlowName,
    Tunnels,
    Tunnel,
    Path,
    PathName,
    Old,
    New,
    Width,
    PlanTop,
    Scale,
    Stages,
    Stage,
    Rates,
    Rate,
    Installed,
    Mark,
    ScriptTop,
    Event,
    LeastTop,
    LeastSteps,
    LeastLink,
    LeastRows,
    LeastRow,
}

/// A place of an input: what stands there, and the numbers of the lists' elements that lead to it, from
/// the outermost on; those that nothing needs are 0.
#[derive(Clone, Copy, Debug, Drop, PartialEq, Eq)]
pub struct Place {
    pub part: Part,
    pub a: u32,
    pub b: u32,
    pub c: u32,
}

impl Place {
    /// A place that no number leads to.
    pub fn of(part: Part) -> Place
        ensures { result ≡ place_of part }
    {
        Place {
            part,
            a: 0,
            b: 0,
            c: 0,
        }
    }

    /// A place in a switch, a link, a flow, a stage or an event.
    pub(crate) fn at(part: Part, a: u32) -> Place
        ensures { result ≡ place_at part a }
    {
        Place {
            part,
            a,
            b: 0,
            c: 0,
        }
    }

    /// A place in a flow's tunnel, or in a list of a stage.
    pub(crate) fn within(part: Part, a: u32, b: u32) -> Place
        ensures { result ≡ place_in part a b }
    {
        Place { part, a, b, c: 0 }
    }

    /// A place along a path.
    pub(crate) fn along(part: Part, a: u32, b: u32, c: u32) -> Place
        ensures { result ≡ place_along part a b c }
    {
        Place { part, a, b, c }
    }
}

impl fmt::Display for Place {
    ghost use Rattle.std.specs.Prelude.{Some};
    ghost use Rattle.problem_json.specs.PlaceTexts.{place_text};

    ghost output = { λ place. Some (place_text place) };

    fn fmt<W: fmt::Write>(&self, f: &mut fmt::Formatter<W>) -> fmt::Result {
        let Place { part, a, b, c } = *self;
        match part {
            Part::Top => f.write_str("top"),
            Part::Problem => f.write_str("problem"),
            Part::Format => f.write_str("format"),
            Part::Switches => f.write_str("switches"),
            Part::Switch => write_element(f, "switches[", a, "]"),
            Part::SwitchName => write_element(f, "switches[", a, "].name"),
            Part::SwitchTable => write_element(f, "switches[", a, "].table"),
            Part::Links => f.write_str("links"),
            Part::Link => write_element(f, "links[", a, "]"),
            Part::LinkFrom => write_element(f, "links[", a, "].from"),
            Part::LinkTo => write_element(f, "links[", a, "].to"),
            Part::LinkCapacity => write_element(f, "links[", a, "].capacity"),
            Part::Flows => f.write_str("flows"),
            Part::Flow => write_element(f, "flows[", a, "]"),
            Part::FlowName => write_element(f, "flows[", a, "].name"),
            Part::Tunnels => write_element(f, "flows[", a, "].tunnels"),
            Part::Tunnel => write_tunnel(f, a, b),
            Part::Path => write_in_tunnel(f, a, b, ".path"),
            Part::PathName => write_hop(f, a, b, c),
            Part::Old => write_in_tunnel(f, a, b, ".old"),
            Part::New => write_in_tunnel(f, a, b, ".new"),
            Part::Width => write_in_tunnel(f, a, b, ".width"),
            Part::PlanTop => f.write_str("plan"),
            Part::Scale => f.write_str("plan.scale"),
            Part::Stages => f.write_str("plan.stages"),
            Part::Stage => write_stage(f, a),
            Part::Rates => write_rates(f, a),
            Part::Rate => write_rate(f, a, b),
            Part::Installed => write_installed(f, a),
            Part::Mark => write_mark(f, a, b),
            Part::ScriptTop => f.write_str("script"),
            Part::Event => write_element(f, "script[", a, "]"),
            Part::LeastTop => f.write_str("least"),
            Part::LeastSteps => f.write_str("least.steps"),
            Part::LeastLink => f.write_str("least.link"),
            Part::LeastRows => f.write_str("least.rows"),
            Part::LeastRow => write_element(f, "least.rows[", a, "]"),
        }
    }
}

// An element of a list, or what stands in it, by its number.
fn write_element<W: fmt::Write>(
    f: &mut fmt::Formatter<W>,
    before: &str,
    number: u32,
    behind: &str,
) -> fmt::Result
    ensures { WritesOnOk W.write_str_gives f.old result (before.now ++ decimal number ++ behind.now)
        f.new }
{
    write!(f, "{before}{number}{behind}")
}
