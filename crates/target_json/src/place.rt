ghost use Rattle.std.specs.Prelude.{◌≡◌, ◌++◌, codes, decimal};
ghost use Rattle.std.specs.Fmt.{WritesOnOk};
ghost use Rattle.target_json.specs.Places.{flow_text, link_text, place_of, place_at, place_in};

use std::fmt;

/// What stands at a place of a document with a target.
#[derive(Clone, Copy, Debug, Drop, PartialEq, Eq)]
pub enum TargetPart {
    Top,
    Target,
    Flows,
    Flow,
    FlowName,
    Rates,
    Rate,
    Capacities,
    Link,
    LinkFrom,
    LinkTo,
    LinkCapacity,
}

/// A place: what stands there, and the numbers of the lists' elements that lead to it, from the outermost on;
/// those that nothing needs are 0.
#[derive(Clone, Copy, Debug, Drop, PartialEq, Eq)]
pub struct TargetPlace {
    pub part: TargetPart,
    pub a: u32,
    pub b: u32,
}

impl TargetPlace {
    /// A place that no number leads to.
    pub(crate) fn of(part: TargetPart) -> TargetPlace
        ensures { result ≡ place_of part }
    {
        TargetPlace { part, a: 0, b: 0 }
    }

    /// A place in a flow, or in a link.
    pub(crate) fn at(part: TargetPart, a: u32) -> TargetPlace
        ensures { result ≡ place_at part a }
    {
        TargetPlace { part, a, b: 0 }
    }

    /// A place in a list of a flow.
    pub(crate) fn within(part: TargetPart, a: u32, b: u32) -> TargetPlace
        ensures { result ≡ place_in part a b }
    {
        TargetPlace { part, a, b }
    }
}

impl fmt::Display for TargetPlace {
    ghost use Rattle.std.specs.Prelude.{Some};
    ghost use Rattle.target_json.specs.Places.{place_text};

    ghost output = { λ place. Some (place_text place) };

    fn fmt<W: fmt::Write>(&self, f: &mut fmt::Formatter<W>) -> fmt::Result {
        let TargetPlace { part, a, b } = *self;
        match part {
            TargetPart::Top => f.write_str("top"),
            TargetPart::Target => f.write_str("target"),
            TargetPart::Flows => f.write_str("target.flows"),
            TargetPart::Flow => write_in_flow(f, a, ""),
            TargetPart::FlowName => write_in_flow(f, a, ".name"),
            TargetPart::Rates => write_in_flow(f, a, ".new"),
            TargetPart::Rate => write_rate(f, a, b),
            TargetPart::Capacities => f.write_str("target.capacities"),
            TargetPart::Link => write_in_link(f, a, ""),
            TargetPart::LinkFrom => write_in_link(f, a, ".from"),
            TargetPart::LinkTo => write_in_link(f, a, ".to"),
            TargetPart::LinkCapacity => write_in_link(f, a, ".capacity"),
        }
    }
}

// A flow, or what stands in it, by its number.
fn write_in_flow<W: fmt::Write>(f: &mut fmt::Formatter<W>, number: u32, behind: &str) -> fmt::Result
    ensures { WritesOnOk W.write_str_gives f.old result (flow_text number behind.now) f.new }
{
    write!(f, "target.flows[{number}]{behind}")
}

fn write_rate<W: fmt::Write>(f: &mut fmt::Formatter<W>, number: u32, rate: u32) -> fmt::Result
    ensures { WritesOnOk W.write_str_gives f.old result
        (codes "target.flows[" ++ decimal number ++ codes "].new[" ++ decimal rate ++ codes "]")
        f.new }
{
    write!(f, "target.flows[{number}].new[{rate}]")
}

fn write_in_link<W: fmt::Write>(f: &mut fmt::Formatter<W>, number: u32, behind: &str) -> fmt::Result
    ensures { WritesOnOk W.write_str_gives f.old result (link_text number behind.now) f.new }
{
    write!(f, "target.capacities[{number}]{behind}")
}
