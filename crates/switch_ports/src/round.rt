//! One round over ports in a row.
ghost use Rattle.std.specs.Prelude.{◌≡◌, ◌++◌, List, All, map, IfErr, IsTrue, OnOk};
ghost use Rattle.wan_edge.specs.Frames.{Answer};
ghost use Rattle.switch_ports.specs.Rows.{HearsEach, IsCauseOfHear, IsCauseOfOffer, ListensEach, OffersAllEach, OffersEach};

use crate::exchange::{hear_at, offer_at};
use crate::outboxes::Outboxes;
use port_session::{PortAnswers, Session};
use shared_book::Cause;
use wan_edge::Port;
use wire_frames::Command;

/// Deals the commands out, and offers at each port what lies ready for its switch.
pub(crate) fn offer_each<T: Port>(
    sessions: &mut [Session<T>],
    outboxes: &mut Outboxes,
    commands: &[Command],
    homes: &[Option<u32>],
    migration: u32,
) -> Result<(), Cause>
    requires { outboxes.old.switches ≡ map (λ s. s.switch) sessions.old }
    ensures each { OffersEach T.told migration homes.now commands.now sessions.old sessions.new }
    ensures all { OnOk result
        (OffersAllEach T.told migration homes.now commands.now sessions.old sessions.new) }
    ensures cause { IfErr result (λ cause. IsCauseOfOffer T.told cause sessions.old sessions.new) }
    ensures switches { outboxes.new.switches ≡ outboxes.old.switches }
{
    if let Err(_) = outboxes.deal(commands, homes) {
        return Err(Cause::Memory);
    }
    for (place, session) in sessions.iter_mut().enumerate() {
        offer_at(session, outboxes.outbox(place), migration)?;
    }
    Ok(())
}

/// Hears each port out, one after the other.
pub(crate) fn hear_each<T: Port>(
    sessions: &mut [Session<T>],
    homes: &[Option<u32>],
    migration: u32,
    heard: &mut PortAnswers<T>,
) -> Result<(), Cause>
    requires live { All (λ s. IsTrue s.stream.live) sessions.old }
    requires migration { heard.old.migration ≡ migration }
    ensures each { ListensEach T.told sessions.old sessions.new }
    ensures ok { OnOk result
        ((told : List Answer)
        × (heard.new.answers ≡ heard.old.answers ++ told)
        × HearsEach T.told migration homes.now sessions.old sessions.new told) }
    ensures live { OnOk result (All (λ s. IsTrue s.stream.live) sessions.new) }
    ensures migration { heard.new.migration ≡ migration }
    ensures cause { IfErr result
        (λ cause. IsCauseOfHear T.told migration homes.now cause sessions.old sessions.new) }
{
    for session in sessions.iter_mut() {
        hear_at(session, homes, migration, heard)?;
    }
    Ok(())
}
