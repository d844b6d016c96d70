ghost use Rattle.std.specs.Prelude.{◌++◌, codes, decimal};
ghost use Rattle.std.specs.Fmt.{WritesOnOk};
ghost use Rattle.problem_json.specs.PlaceTexts.{tunnel_text};

use std::fmt;

/// A tunnel as a place, by its flow's number and its own in the flow.
#[derive(Clone, Copy, Drop)]
struct TunnelPlace {
    flow: u32,
    number: u32,
}

impl fmt::Display for TunnelPlace {
    ghost use Rattle.std.specs.Prelude.{Some};
    ghost use Rattle.problem_json.specs.PlaceTexts.{tunnel_text};

    ghost output = { λ place. Some (tunnel_text place.flow place.number) };

    #[tactic(auto, unfolding(crate::specs::PlaceTexts::tunnel_text))]
    fn fmt<W: fmt::Write>(&self, f: &mut fmt::Formatter<W>) -> fmt::Result {
        let TunnelPlace { flow, number } = *self;
        write!(f, "flows[{flow}].tunnels[{number}]")
    }
}

pub(super) fn write_tunnel<W: fmt::Write>(
    f: &mut fmt::Formatter<W>,
    flow: u32,
    number: u32,
) -> fmt::Result
    ensures { WritesOnOk W.write_str_gives f.old result (tunnel_text flow number) f.new }
{
    let tunnel = TunnelPlace { flow, number };
    write!(f, "{tunnel}")
}

/// What stands in a tunnel.
pub(super) fn write_in_tunnel<W: fmt::Write>(
    f: &mut fmt::Formatter<W>,
    flow: u32,
    number: u32,
    behind: &str,
) -> fmt::Result
    ensures { WritesOnOk W.write_str_gives f.old result
        (tunnel_text flow number ++ behind.now) f.new }
{
    let tunnel = TunnelPlace { flow, number };
    write!(f, "{tunnel}{behind}")
}

/// A name of a tunnel's path.
pub(super) fn write_hop<W: fmt::Write>(
    f: &mut fmt::Formatter<W>,
    flow: u32,
    number: u32,
    hop: u32,
) -> fmt::Result
    ensures { WritesOnOk W.write_str_gives f.old result
        (tunnel_text flow number ++ codes ".path[" ++ decimal hop ++ codes "]") f.new }
{
    let tunnel = TunnelPlace { flow, number };
    write!(f, "{tunnel}.path[{hop}]")
}
