//! One port's part of a round.
ghost use Rattle.std.specs.Prelude.{◌≡◌, ◌++◌, List, All, IfErr, IfNone, IfSome, IsTrue, OnOk};
ghost use Rattle.wan_edge.specs.Frames.{Answer};
ghost use Rattle.switch_ports.specs.Causes.{cause_of};
ghost use Rattle.switch_ports.specs.Hearing.{HasAlien, HearsOut, IsHearCause, IsOwn, Listens};
ghost use Rattle.switch_ports.specs.Outboxes.{home_at, is_switch};
ghost use Rattle.switch_ports.specs.Offering.{IsOfferCause, Offers, OffersAll};
ghost use Rattle.switch_ports.specs.Views.{view};

use crate::outboxes::home_at;
use port_session::{PortAnswers, Session, SessionFault};
use shared_book::Cause;
use wan_edge::Port;
use wire_frames::{Answer, Command};

/// Offers these commands in one call, where there are any.
pub(crate) fn offer_at<T: Port>(
    session: &mut Session<T>,
    commands: &[Command],
    migration: u32,
) -> Result<(), Cause>
    ensures some { Offers migration commands.now (view T.told session.old)
        (view T.told session.new) }
    ensures all { OnOk result
        (OffersAll migration commands.now (view T.told session.old) (view T.told session.new)) }
    ensures cause { IfErr result
        (λ cause. IsOfferCause cause (view T.told session.old) (view T.told session.new)) }
{
    match session.offer_all(commands, migration) {
        Ok(()) => Ok(()),
        Err(fault) => Err(cause_at(session.switch(), fault)),
    }
}

/// Hears the port out. An answer of an item whose home isn't its switch is refused.
pub(crate) fn hear_at<T: Port>(
    session: &mut Session<T>,
    homes: &[Option<u32>],
    migration: u32,
    heard: &mut PortAnswers<T>,
) -> Result<(), Cause>
    requires live { IsTrue session.old.stream.live }
    requires migration { heard.old.migration ≡ migration }
    ensures some { Listens (view T.told session.old) (view T.told session.new) }
    ensures ok { OnOk result
        ((told : List Answer)
        × (heard.new.answers ≡ heard.old.answers ++ told)
        × HearsOut migration homes.now (view T.told session.old) told (view T.told session.new)) }
    ensures migration { heard.new.migration ≡ migration }
    ensures cause { IfErr result
        (λ cause. IsHearCause migration homes.now cause (view T.told session.old)
        (view T.told session.new)) }
{
    let before = heard.answers().len();
    if let Err(fault) = session.hear_all(migration, heard) {
        return Err(cause_at(session.switch(), fault));
    }
    let switch = session.switch();
    match alien_item(homes, switch, &heard.answers()[before..]) {
        Some(item) => Err(Cause::NotMine { switch, item }),
        None => Ok(()),
    }
}

// Why a worker stops, whose session with this switch has met a fault.
fn cause_at(switch: u32, fault: SessionFault) -> Cause
    ensures { result ≡ cause_of switch fault }
{
    match fault {
        SessionFault::Port => Cause::Port(switch),
        SessionFault::NoAnswer(byte) => Cause::NoAnswer { switch, byte },
        SessionFault::Memory => Cause::Memory,
    }
}

// The item of the first answer that isn't of this switch.
fn alien_item(homes: &[Option<u32>], switch: u32, answers: &[Answer]) -> Option<u32>
    ensures none { IfNone result (All (IsOwn homes.now switch) answers.now) }
    ensures some { IfSome result (λ item. HasAlien homes.now switch item answers.now) }
{
    for answer in answers {
        if !is_own(homes, switch, answer.item) {
            return Some(answer.item);
        }
    }
    None
}

// Whether an item's home is this switch.
fn is_own(homes: &[Option<u32>], switch: u32, item: u32) -> bool
    ensures { result ≡ is_switch switch (home_at homes.now item) }
{
    home_at(homes, item) == Some(switch)
}
