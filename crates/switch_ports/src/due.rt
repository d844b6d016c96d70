//! Which switches are due.
ghost use Rattle.std.specs.Prelude.{◌≡◌, ◌∷◌, ◌++◌, [], IfOk, OnOk};
ghost use Rattle.switch_ports.specs.Due.{due_of};

use lists::Memory;
use port_session::Session;
use std::alloc::Global;
use wan_edge::Port;

/// The switches of these sessions that are due, in order.
pub(crate) fn due_each<T: Port>(alloc: Global, sessions: &[Session<T>]) -> Result<Vec<u32>, Memory>
    ensures { IfOk result (λ due. due.items ≡ due_of sessions.now) }
{
    let mut due = Vec::new(alloc);
    for session in sessions {
        add_due(session, &mut due)?;
    }
    Ok(due)
}

// Adds the switch of a session that is due.
#[tactic(auto, using(crate::proofs::Lateness::due_one))]
fn add_due<T: Port>(session: &Session<T>, due: &mut Vec<u32>) -> Result<(), Memory>
    ensures { OnOk result (due.new.items ≡ due.old.items ++ due_of (session.now ∷ [])) }
{
    if session.is_late() {
        return Ok(());
    }
    due.push(session.switch())?;
    Ok(())
}
