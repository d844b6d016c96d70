ghost use Rattle.std.specs.Prelude.{◌≡◌, ◌⊎◌, ◌<◌, ◌≤◌, ◌++◌, [], List, ℕ, length, take, IfOk, OnErr, OnOk, false};
ghost use Rattle.std.specs.Bool.{OnTrue};
ghost use Rattle.std.specs.Io.KnownBytes.{Appends, Consumes, Keeps};
ghost use Rattle.host_edge.specs.Histories.{AddsFront, Carries};
ghost use Rattle.host_edge.specs.Inboxes.{GivesOn, HoldsBack, IsCutFronted, nothing_in};
ghost use Rattle.host_edge.specs.Outboxes.{Offers, SendsAllOrNone, nothing_sent};

use crate::front::FRONTED_LEN;
use crate::inbox::Inbox;
use crate::outbox::Outbox;
use crate::time_limit::TimeLimit;
use crate::unbroken::{write_noted, write_whole};
use byte_history::History;
use std::io::{self, ErrorKind, Read, Write};
use std::net::OpenStream;
use std::time::{Clock, Duration, Instant};

/// A connection to a switch, from when it was begun to be made. What was read off its stream and what was
/// written to it is noted.
#[derive(Drop)]
pub(crate) struct Connection<S> {
    stream: S,
    inbox: Inbox,
    came: History,
    outbox: Outbox,
    is_up: bool,
    waits: bool,
}

impl<S> Connection<S> {
    /// Over a stream that doesn't block, of which nothing was read, and to which nothing was written.
    pub(crate) fn new(stream: S) -> Self
        ensures stream { result.stream ≡ stream }
        ensures fresh { result.inbox ≡ nothing_in }
        ensures came { result.came ≡ [] }
        ensures sent { result.outbox ≡ nothing_sent }
    {
        Connection {
            stream,
            inbox: Inbox::new(),
            came: History::new(),
            outbox: Outbox::new(),
            is_up: false,
            waits: false,
        }
    }
}

impl<S: Read + Write + OpenStream> Connection<S> {
    /// Whether the other end has taken the connection.
    pub(crate) fn is_up(&mut self) -> bool
        ensures stream { self.new.stream ≡ self.old.stream }
        ensures inbox { self.new.inbox ≡ self.old.inbox }
        ensures came { self.new.came ≡ self.old.came }
        ensures outbox { self.new.outbox ≡ self.old.outbox }
    {
        if !self.is_up {
            self.is_up = self.stream.peer_addr().is_ok();
        }
        self.is_up
    }

    /// Sends all the bytes, or none where none can be sent within `patience`. Where a part alone goes out,
    /// or the connection has ended, nothing is sent on it any more.
    pub(crate) fn offer(&mut self, from: &[u8], patience: Duration, limit: TimeLimit)
        ensures whole { OnTrue self.new.outbox.is_whole
            (Keeps (S.contents self.old.stream) (S.contents self.new.stream)
            ⊎ Appends (S.contents self.old.stream) (S.contents self.new.stream) from.now) }
        ensures carried { Carries (S.contents self.old.stream) (S.contents self.new.stream)
            self.old.outbox.sent self.new.outbox.sent }
        ensures sent { Offers from.now self.old.outbox self.new.outbox }
        ensures over { self.old.outbox.is_whole ≡ false → self.new ≡ self.old }
        ensures inbox { self.new.inbox ≡ self.old.inbox }
        ensures came { self.new.came ≡ self.old.came }
    {
        if self.outbox.is_whole {
            self.outbox.is_whole = self.send(from, patience, limit).is_ok();
        }
    }

    // Sends all the bytes or none; or fails, and has sent a part.
    fn send(&mut self, from: &[u8], patience: Duration, limit: TimeLimit) -> io::Result<()>
        ensures sent { OnOk result
            (Keeps (S.contents self.old.stream) (S.contents self.new.stream)
            ⊎ Appends (S.contents self.old.stream) (S.contents self.new.stream) from.now) }
        ensures carried { Carries (S.contents self.old.stream) (S.contents self.new.stream)
            self.old.outbox.sent self.new.outbox.sent }
        ensures front { AddsFront self.old.outbox.sent from.now self.new.outbox.sent }
        ensures all { OnOk result (SendsAllOrNone from.now self.old.outbox self.new.outbox) }
        ensures inbox { self.new.inbox ≡ self.old.inbox }
        ensures came { self.new.came ≡ self.old.came }
    {
        self.wait_to_write(patience)?;
        match write_noted(&mut self.stream, from, &mut self.outbox.sent) {
            Ok(n) => self.send_rest(&from[n..], limit),
            Err(error) if is_late(&error) => {
                self.outbox.late.raise();
                Ok(())
            }
            Err(error) => Err(error),
        }
    }

    // Sends what is left of an offer; or fails, and has sent a part.
    fn send_rest(&mut self, rest: &[u8], limit: TimeLimit) -> io::Result<()>
        ensures sent { OnOk result
            (Appends (S.contents self.old.stream) (S.contents self.new.stream) rest.now) }
        ensures carried { Carries (S.contents self.old.stream) (S.contents self.new.stream)
            self.old.outbox.sent self.new.outbox.sent }
        ensures front { AddsFront self.old.outbox.sent rest.now self.new.outbox.sent }
        ensures all { OnOk result (self.new.outbox.sent ≡ self.old.outbox.sent ++ rest.now) }
        ensures late { self.new.outbox.late ≡ self.old.outbox.late }
        ensures inbox { self.new.inbox ≡ self.old.inbox }
        ensures came { self.new.came ≡ self.old.came }
    {
        if !rest.is_empty() {
            self.wait_to_write(limit.whole())?;
        }
        write_whole(&mut self.stream, rest, &mut self.outbox.sent)
    }

    /// Gives the next bytes of whole answers, as many as there are and `into` takes. Where there are none
    /// it reads until there are, as long as the limit lasts from a moment on.
    ///
    /// # Errors
    ///
    /// `WouldBlock` where no answer ended in time. Any other says that the connection has ended.
    pub(crate) fn hear<R: Clock>(
        &mut self,
        rt: &R,
        into: &mut [u8],
        limit: TimeLimit,
        since: Option<Instant>,
    ) -> io::Result<usize>
        ensures within { IfOk result (λ n. n ≤ length into.old) }
        ensures given { IfOk result
            (λ n. (piece : List ℕ)
            × Consumes (S.remaining self.old.stream) (S.remaining self.new.stream) piece
            × GivesOn self.old.inbox piece (take n into.new) self.new.inbox
            × (self.new.came ≡ self.old.came ++ piece)) }
        ensures none { OnErr result
            ((piece : List ℕ)
            × Consumes (S.remaining self.old.stream) (S.remaining self.new.stream) piece
            × GivesOn self.old.inbox piece [] self.new.inbox
            × (self.new.came ≡ self.old.came ++ piece)) }
        ensures outbox { self.new.outbox ≡ self.old.outbox }
    {
        self.refill(rt, limit, since)?;
        Ok(self.inbox.give(into))
    }

    /// Whether there are bytes of whole answers to give. It reads what came already, and waits for nothing.
    ///
    /// # Errors
    ///
    /// `WouldBlock` where no more came. Any other says that the connection has ended.
    pub(crate) fn look<R: Clock>(&mut self, rt: &R, limit: TimeLimit) -> io::Result<bool>
        ensures sorted { (piece : List ℕ)
            × Consumes (S.remaining self.old.stream) (S.remaining self.new.stream) piece
            × GivesOn self.old.inbox piece [] self.new.inbox
            × (self.new.came ≡ self.old.came ++ piece) }
        ensures outbox { self.new.outbox ≡ self.old.outbox }
    {
        self.refill(rt, limit, None)?;
        Ok(!self.inbox.is_empty())
    }

    // Where no byte is to be given on, reads until some are.
    fn refill<R: Clock>(
        &mut self,
        rt: &R,
        limit: TimeLimit,
        since: Option<Instant>,
    ) -> io::Result<()>
        ensures sorted { (piece : List ℕ)
            × Consumes (S.remaining self.old.stream) (S.remaining self.new.stream) piece
            × GivesOn self.old.inbox piece [] self.new.inbox
            × (self.new.came ≡ self.old.came ++ piece) }
        ensures outbox { self.new.outbox ≡ self.old.outbox }
    {
        if self.inbox.is_empty() {
            return self.await_answer(rt, limit, since);
        }
        Ok(())
    }

    // Reads until an answer is whole, which is after as many bytes as it has at the latest.
    fn await_answer<R: Clock>(
        &mut self,
        rt: &R,
        limit: TimeLimit,
        since: Option<Instant>,
    ) -> io::Result<()>
        requires empty { self.old.inbox.ready ≡ [] }
        requires begun { IsCutFronted self.old.inbox.cut }
        ensures sorted { (piece : List ℕ)
            × Consumes (S.remaining self.old.stream) (S.remaining self.new.stream) piece
            × HoldsBack (self.old.inbox.cut ++ piece) self.new.inbox
            × (self.new.came ≡ self.old.came ++ piece) }
        ensures outbox { self.new.outbox ≡ self.old.outbox }
    {
        for _ in 1..FRONTED_LEN {
            self.read(limit.left(rt, since))?;
            if !self.inbox.is_empty() {
                return Ok(());
            }
        }
        self.read(limit.left(rt, since))
    }

    // Reads once, and waits so long for the first byte.
    fn read(&mut self, left: Duration) -> io::Result<()>
        requires empty { self.old.inbox.ready ≡ [] }
        requires begun { IsCutFronted self.old.inbox.cut }
        ensures sorted { (piece : List ℕ)
            × (OnOk result (0 < length piece))
            × Consumes (S.remaining self.old.stream) (S.remaining self.new.stream) piece
            × HoldsBack (self.old.inbox.cut ++ piece) self.new.inbox
            × (self.new.came ≡ self.old.came ++ piece) }
        ensures outbox { self.new.outbox ≡ self.old.outbox }
    {
        if !self.outbox.is_whole {
            return Err(ErrorKind::BrokenPipe.into());
        }
        self.wait_to_read(left)?;
        match self.inbox.fill(&mut self.stream, &mut self.came) {
            Ok(0) => Err(ErrorKind::UnexpectedEof.into()),
            Ok(_) => Ok(()),
            Err(error) => Err(error),
        }
    }

    // Has a read wait so long, and no time at all where that is 0.
    fn wait_to_read(&mut self, left: Duration) -> io::Result<()>
        ensures stream { self.new.stream ≡ self.old.stream }
        ensures inbox { self.new.inbox ≡ self.old.inbox }
        ensures came { self.new.came ≡ self.old.came }
        ensures outbox { self.new.outbox ≡ self.old.outbox }
    {
        self.wait(!left.is_zero())?;
        if left.is_zero() {
            return Ok(());
        }
        self.stream.set_read_timeout(Some(left))
    }

    // Has a write wait so long, and no time at all where that is 0.
    fn wait_to_write(&mut self, left: Duration) -> io::Result<()>
        ensures stream { self.new.stream ≡ self.old.stream }
        ensures inbox { self.new.inbox ≡ self.old.inbox }
        ensures came { self.new.came ≡ self.old.came }
        ensures outbox { self.new.outbox ≡ self.old.outbox }
    {
        self.wait(!left.is_zero())?;
        if left.is_zero() {
            return Ok(());
        }
        self.stream.set_write_timeout(Some(left))
    }

    fn wait(&mut self, waits: bool) -> io::Result<()>
        ensures stream { self.new.stream ≡ self.old.stream }
        ensures inbox { self.new.inbox ≡ self.old.inbox }
        ensures came { self.new.came ≡ self.old.came }
        ensures outbox { self.new.outbox ≡ self.old.outbox }
    {
        if self.waits != waits {
            self.stream.set_nonblocking(!waits)?;
            self.waits = waits;
        }
        Ok(())
    }
}

/// Whether there was no time left to wait.
pub(crate) fn is_late(error: &io::Error) -> bool {
    error.kind() == ErrorKind::WouldBlock
}
