ghost use Rattle.std.specs.Prelude.{◌≡◌, [], ◌++◌, IfNone, IfSome, OnErr, OnOk};
ghost use Rattle.lossy_link.specs.Incoming.{GivesNext, IsReadOut};

use crate::next_command::next_command;
use lists::Memory;
use std::alloc::Global;
use std::marker::Model;
use wan_edge::Nums8;
use wire_frames::{Command, CommandReader};

/// The bytes offered to a port, of which each whole command is taken once, in order.
#[derive(Debug, Drop)]
pub(crate) struct Incoming {
    offered: Nums8,
    taken: usize,
    reader: CommandReader,
}

impl Model for Incoming {
    ghost use Rattle.std.specs.Prelude.{◌≤◌, drop, length, take};
    ghost use Rattle.lossy_link.specs.Incoming.{IsReading, Stream};

    ghost Value = { Stream };

    ghost view = { λ i. record {
      taken = take i.taken i.offered;
      pending = drop i.taken i.offered;
    } };

    ghost invariant = { λ i. (i.taken ≤ length i.offered)
        × IsReading (take i.taken i.offered) i.reader };
}

impl Incoming {
    pub(crate) fn new(alloc: Global) -> Self
        ensures { result ≡ record { taken = []; pending = [] } }
    {
        Incoming {
            offered: Nums8::new(alloc),
            taken: 0,
            reader: CommandReader::new(),
        }
    }

    /// Adds bytes after those that came before. Lack of memory changes nothing.
    pub(crate) fn accept(&mut self, bytes: &[u8]) -> Result<(), Memory>
        ensures ok { OnOk result
            (self.new
            ≡ record { taken = self.old.taken; pending = self.old.pending ++ bytes.now }) }
        ensures err { OnErr result (self.new ≡ self.old) }
    {
        self.offered.extend_from_slice(bytes)
    }

    /// Takes the next whole command, with its migration. Where there is none, it takes all the bytes.
    pub(crate) fn next(&mut self) -> Option<(u32, Command)>
        ensures given { IfSome result (λ c. GivesNext self.old self.new c) }
        ensures none { IfNone result (IsReadOut self.old self.new) }
    {
        let pending = &self.offered.as_slice()[self.taken..];
        if pending.is_empty() {
            return None;
        }
        let (n, command) = next_command(&mut self.reader, pending);
        self.taken += n;
        command
    }
}
