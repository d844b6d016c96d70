ghost use Rattle.std.specs.Prelude.{◌≡◌, ◌≤◌, None, IsTrue};
ghost use Rattle.switch_agent.specs.Serving.{heard_by};
ghost use Rattle.switch_agent.specs.ReadStates.{most};
ghost use Rattle.wan_edge.specs.Frames.{IsCutCommand};

use crate::{ReadState, ServeFault, Served};
use wire_frames::CommandReader;

/// What came of one read of a guest: what was carried out, and what is kept of the guest. Of one that isn't
/// read any further nothing is: it has come to its end, or there was a fault.
#[derive(Drop)]
pub struct GuestRead {
    pub served: Served,
    pub talk: Option<ReadState>,
}

impl GuestRead {
    /// Of a guest that isn't read any further, and of which no command was carried out.
    pub fn last(fault: Option<ServeFault>) -> Self
        ensures { result ≡ record { served = record { commands = 0; fault = fault }; talk = None } }
    {
        let served = Served { commands: 0, fault };
        GuestRead { served, talk: None }
    }

    /// After a read by which this was carried out: the guest is read further where there was no fault, and
    /// more may be read of it.
    pub fn behind(served: Served, reader: CommandReader, room: usize) -> Self
        requires live { served.fault ≡ None → IsTrue reader.live }
        requires cut { served.fault ≡ None → IsCutCommand reader.kept }
        requires few { room ≤ most }
        ensures { result ≡ heard_by served.commands served.fault reader.kept room }
    {
        let commands = served.commands;
        match served.fault {
            Some(fault) => {
                let fault = Some(fault);
                let served = Served { commands, fault };
                GuestRead { served, talk: None }
            }
            None => GuestRead::on(commands, reader, room),
        }
    }

    // After a read without a fault.
    fn on(commands: u64, reader: CommandReader, room: usize) -> Self
        requires live { IsTrue reader.live }
        requires cut { IsCutCommand reader.kept }
        requires few { room ≤ most }
        ensures { result ≡ heard_by commands None reader.kept room }
    {
        if room == 0 {
            let fault = Some(ServeFault::Long);
            let served = Served { commands, fault };
            return GuestRead { served, talk: None };
        }
        let talk = Some(ReadState::of(reader, room));
        let fault = None;
        let served = Served { commands, fault };
        GuestRead { served, talk }
    }
}
