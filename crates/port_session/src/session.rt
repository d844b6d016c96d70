ghost use Rattle.std.specs.Prelude.{◌≡◌, [], ◌++◌, List, All, length, Some, nat_lt, IfErr, IsErrOf, IsOk, IsTrue, OnErr, OnOk};
ghost use Rattle.wan_edge.specs.Frames.{Answer, IsCutAnswer};
ghost use Rattle.wan_edge.specs.Ports.{GoesOn};
ghost use Rattle.wan_edge.specs.Streams.{Appends, Rose};
ghost use Rattle.port_session.specs.Offers.{OffersUntil, frames_of};
ghost use Rattle.port_session.specs.Standing.{HasTold};
ghost use Rattle.port_session.specs.Sessions.{HearsAnswers, IsHeard, awaited_behind, awaiting, first_session, listening};

use crate::SessionFault;
use crate::frames::write_frames;
use crate::port_answers::PortAnswers;
use crate::stream::{AnswerList, AnswerStream};
use std::alloc::Global;
use std::marker::Model;
use wan_edge::Port;
use wire_frames::Command;

/// How many bytes one call hears at most.
const BUFFER: usize = 4_096;

/// A worker's talk with one switch. It lives through all rounds, so that an answer that is cut at the
/// end of a round is whole in the next.
#[derive(Drop)]
pub struct Session<T: Port> {
    switch: u32,
    port: T,
    stream: AnswerStream,
    frames: Vec<u8>,
}

impl<T: Port> Model for Session<T> {
    ghost use Rattle.std.specs.Prelude.{IsTrue};
    ghost use Rattle.wan_edge.specs.Frames.{IsCutAnswer};
    ghost use Rattle.port_session.specs.Standing.{EndsWith};
    ghost use Rattle.port_session.specs.Sessions.{SessionView};

    ghost Value = { SessionView T };

    ghost view = { λ s. record { switch = s.switch; port = s.port; stream = s.stream } };

    // What is kept is the end of what the port told, so that an answer which ends later stands whole there.
    ghost invariant = { λ s. (IsTrue s.stream.live → IsCutAnswer s.stream.kept)
        × (IsTrue s.stream.live → EndsWith s.stream.kept (T.told s.port).heard) };
}

impl<T: Port> Session<T> {
    /// A session that has offered and heard nothing.
    pub fn new(alloc: Global, switch: u32, port: T) -> Self
        ensures new { result ≡ first_session switch port }
        ensures cut { IsCutAnswer result.stream.kept }
    {
        Session {
            switch,
            port,
            stream: AnswerStream::new(),
            frames: Vec::new(alloc),
        }
    }

    /// The switch at the port's end.
    pub fn switch(&self) -> u32
        ensures { result ≡ self.now.switch }
    {
        self.switch
    }

    /// Whether all that was heard was read. It is not so after a fault of what came, or of memory for an
    /// answer; then nothing more may be heard.
    pub fn live(&self) -> bool
        ensures { result ≡ self.now.stream.live }
    {
        self.stream.live()
    }

    /// Whether the switch is late: it owes answers, and its time limit hasn't passed, as far as was heard.
    pub fn is_late(&self) -> bool
        ensures { result ≡ nat_lt 0 self.now.stream.awaited }
    {
        self.stream.count_awaited() > 0
    }

    /// Waits a moment, in which something may come.
    pub fn rest(&self) {
        self.port.rest();
    }

    /// Begins a round: the frames of all the commands, each of this migration, are offered in one call,
    /// and as many answers are awaited. Without a command nothing is done, and what is awaited is so still.
    ///
    /// # Errors
    ///
    /// `Port` where the port fails, which may have sent the first of the bytes; `Memory` for the bytes,
    /// and then nothing was sent. No answer is awaited then.
    #[tactic(auto, using(crate::proofs::Awaited::awaited_none, crate::proofs::Awaited::awaited_some))]
    pub fn offer_all(&mut self, commands: &[Command], migration: u32) -> Result<(), SessionFault>
        ensures all { OnOk result
            (Appends (T.told self.old.port).offered (frames_of migration commands.now)
            (T.told self.new.port).offered) }
        ensures until { IfErr result
            (λ fault. OffersUntil fault (T.told self.old.port).offered
            (frames_of migration commands.now) (T.told self.new.port).offered) }
        ensures awaits { OnOk result
            (self.new
            ≡ awaiting self.old self.new.port
            (awaited_behind self.old.stream.awaited (length commands.now))) }
        ensures awaits_none { OnErr result (self.new ≡ awaiting self.old self.new.port 0) }
        ensures idle { commands.now ≡ [] → IsOk result × (self.new.port ≡ self.old.port) }
        ensures no_memory { IsErrOf result SessionFault.Memory → self.new.port ≡ self.old.port }
        ensures cause { IsErrOf result SessionFault.Port
            → Rose (T.told self.old.port).faults (T.told self.new.port).faults }
        ensures port { GoesOn (T.told self.old.port) (T.told self.new.port) }
        ensures unheard { (T.told self.new.port).heard ≡ (T.told self.old.port).heard }
        ensures no_hear { (T.told self.new.port).quiet ≡ (T.told self.old.port).quiet }
    {
        if commands.is_empty() {
            return Ok(());
        }
        self.stream.expect(0);
        write_frames(commands, migration, &mut self.frames)?;
        self.port.offer(self.frames.as_slice())?;
        self.stream.expect(commands.len());
        Ok(())
    }

    /// Hears until as many answers were read as are awaited, the port is quiet, or isn't ready: it waits for
    /// nothing. Where the port is quiet, no answer is awaited any more. Every whole answer in what is heard is
    /// read; those of the migration are added, in order, and others tell nothing.
    ///
    /// # Errors
    ///
    /// `Port` where the port fails; `NoAnswer` exactly where that byte stands in an answer's first place;
    /// `Memory` for an answer that was to be added. What was read before is told all the same.
    pub fn hear_all(
        &mut self,
        migration: u32,
        heard: &mut PortAnswers<T>,
    ) -> Result<(), SessionFault>
        requires live { IsTrue self.old.stream.live }
        requires migration { heard.old.migration ≡ migration }
        ensures ok { OnOk result
            (IsHeard migration (T.told self.old.port) self.old.stream heard.old.answers
            (T.told self.new.port) self.new.stream heard.new.answers) }
        ensures err { IfErr result
            (λ fault. HearsAnswers migration
            (listening (T.told self.old.port).heard self.old.stream heard.old.answers) (Some fault)
            (listening (T.told self.new.port).heard self.new.stream heard.new.answers)) }
        ensures as_quiet { OnErr result
            ((T.told self.new.port).quiet ≡ (T.told self.old.port).quiet) }
        ensures live_port { IsErrOf result SessionFault.Port → IsTrue self.new.stream.live }
        ensures cause { IsErrOf result SessionFault.Port
            → Rose (T.told self.old.port).faults (T.told self.new.port).faults }
        ensures cut { IsTrue self.new.stream.live → IsCutAnswer self.new.stream.kept }
        ensures idle { self.old.stream.awaited ≡ 0
            → IsOk result × (self.new ≡ self.old) × (heard.new.answers ≡ heard.old.answers) }
        ensures switch { self.new.switch ≡ self.old.switch }
        ensures migration { heard.new.migration ≡ migration }
        ensures port { GoesOn (T.told self.old.port) (T.told self.new.port) }
        ensures unsent { (T.told self.new.port).offered ≡ (T.told self.old.port).offered }
    {
        self.read_all(migration, &mut heard.answers)
    }

    /// Gives the port back.
    pub fn into_port(self) -> T
        ensures { result ≡ self.port }
    {
        self.port
    }

    // Hears, and adds to a plain list. Each answer that was added stands whole in what the port told.
    fn read_all(&mut self, migration: u32, answers: &mut AnswerList) -> Result<(), SessionFault>
        requires live { IsTrue self.old.stream.live }
        ensures ok { OnOk result
            (IsHeard migration (T.told self.old.port) self.old.stream answers.old
            (T.told self.new.port) self.new.stream answers.new) }
        ensures err { IfErr result
            (λ fault. HearsAnswers migration
            (listening (T.told self.old.port).heard self.old.stream answers.old) (Some fault)
            (listening (T.told self.new.port).heard self.new.stream answers.new)) }
        ensures as_quiet { OnErr result
            ((T.told self.new.port).quiet ≡ (T.told self.old.port).quiet) }
        ensures live_port { IsErrOf result SessionFault.Port → IsTrue self.new.stream.live }
        ensures cause { IsErrOf result SessionFault.Port
            → Rose (T.told self.old.port).faults (T.told self.new.port).faults }
        ensures cut { IsTrue self.new.stream.live → IsCutAnswer self.new.stream.kept }
        ensures idle { self.old.stream.awaited ≡ 0
            → IsOk result × (self.new ≡ self.old) × (answers.new ≡ answers.old) }
        ensures stands { (told : List Answer)
            × (answers.new ≡ answers.old ++ told)
            × All (λ a. HasTold (T.told self.new.port) (migration, a)) told }
        ensures switch { self.new.switch ≡ self.old.switch }
        ensures port { GoesOn (T.told self.old.port) (T.told self.new.port) }
        ensures unsent { (T.told self.new.port).offered ≡ (T.told self.old.port).offered }
    {
        let mut buffer = [0; BUFFER];
        while self.stream.count_awaited() > 0 {
            if !self.port.is_ready() {
                return Ok(());
            }
            let n = self.port.hear(&mut buffer)?;
            if n == 0 {
                self.stream.expect(0);
                return Ok(());
            }
            self.stream.read(&buffer[..n], migration, answers)?;
        }
        Ok(())
    }
}
