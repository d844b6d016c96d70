ghost use Rattle.std.specs.Prelude.{◌≡◌, ◌⊎◌, ℕ, All, List, Option, IfErr, IfOk, IsTrue, OnOk};
ghost use Rattle.shared_book.specs.Homes.{homes_of};
ghost use Rattle.switch_ports.specs.Due.{LeavesAlone};
ghost use Rattle.controller_run.specs.Exchanging.{Exchanges, StopsInHear, StopsInOffer};

use disk_model::Disk;
use port_session::PortAnswers;
use shared_book::{Cause, Listed, Marker};
use std::alloc::Global;
use switch_ports::WorkerPorts;
use wan_edge::Port;

/// A round between the ports alone: the commands go out, none of which is a late switch's, at all ports
/// before the first is heard, and what comes is told, port by port. No port is waited for. Ports are apart,
/// so the clauses say nothing of the order between an offer at one and a hear at another.
///
/// # Errors
///
/// As those of [`WorkerPorts::offer`] and [`WorkerPorts::hear`].
pub fn exchange<D: Disk, M: Marker, T: Port>(
    alloc: Global,
    ports: &mut WorkerPorts<T>,
    commands: &Listed<D, M>,
    homes: &[Option<u32>],
    migration: u32,
) -> Result<PortAnswers<T>, Cause>
    requires live { All (λ s. IsTrue s.stream.live) ports.old }
    requires homes { homes.now ≡ homes_of M.opening.rollout.problem }
    requires migration { migration ≡ M.migration }
    requires alone { LeavesAlone homes.now commands.now ports.old }
    ensures ok { IfOk result
        (λ heard. Exchanges T.told migration homes.now ports.old commands.now heard.answers
        ports.new) }
    ensures migration { IfOk result (λ heard. heard.migration ≡ migration) }
    ensures live { OnOk result (All (λ s. IsTrue s.stream.live) ports.new) }
    ensures err { IfErr result
        (λ why. StopsInOffer T.told migration homes.now why ports.old commands.now ports.new
        ⊎ StopsInHear T.told migration homes.now why ports.old commands.now ports.new) }
{
    ports.offer(commands, homes, migration)?;
    ports.hear::<M>(alloc, homes, migration)
}
