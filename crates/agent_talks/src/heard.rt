ghost use Rattle.std.specs.Prelude.{◌≡◌, ◌≤◌, None, IsTrue};
ghost use Rattle.agent_talks.specs.Serving.{IsCutTermed, heard_by};
ghost use Rattle.fenced_wire.specs.Reading.{all_kept};
ghost use Rattle.switch_agent.specs.ReadStates.{most};

use crate::Talk;
use fenced_wire::TermedReader;
use switch_agent::{ServeFault, Served};

/// What came of one read of a guest: what was carried out, and what is kept of the guest. Of one that isn't
/// read any further nothing is: it has come to its end, or there was a fault.
#[derive(Drop)]
pub struct Heard {
    pub served: Served,
    pub talk: Option<Talk>,
}

impl Heard {
    /// Of a guest that isn't read any further, and of which no command was carried out.
    pub fn last(fault: Option<ServeFault>) -> Self
        ensures { result ≡ record { served = record { commands = 0; fault = fault }; talk = None } }
    {
        let served = Served { commands: 0, fault };
        Heard { served, talk: None }
    }

    /// After a read by which this was carried out: the guest is read further where there was no fault, and
    /// more may be read of it.
    pub fn behind(served: Served, reader: TermedReader, room: usize) -> Self
        requires live { served.fault ≡ None → IsTrue reader.live }
        requires cut { served.fault ≡ None → IsCutTermed (all_kept reader) }
        requires few { room ≤ most }
        ensures { result ≡ heard_by served.commands served.fault (all_kept reader) room }
    {
        let commands = served.commands;
        match served.fault {
            Some(fault) => {
                let fault = Some(fault);
                let served = Served { commands, fault };
                Heard { served, talk: None }
            }
            None => Heard::on(commands, reader, room),
        }
    }

    // After a read without a fault.
    fn on(commands: u64, reader: TermedReader, room: usize) -> Self
        requires live { IsTrue reader.live }
        requires cut { IsCutTermed (all_kept reader) }
        requires few { room ≤ most }
        ensures { result ≡ heard_by commands None (all_kept reader) room }
    {
        if room == 0 {
            let fault = Some(ServeFault::Long);
            let served = Served { commands, fault };
            return Heard { served, talk: None };
        }
        let talk = Some(Talk::of(reader, room));
        let fault = None;
        let served = Served { commands, fault };
        Heard { served, talk }
    }
}
