ghost use Rattle.std.specs.Prelude.{◌≡◌, ◌<◌, ◌≤◌, [], length, take, IfOk, IsOk, OnErr, OnOk};
ghost use Rattle.host_edge.specs.Connections.{HearsOver, IsFresh, OffersOver, StaysOrIsNew};
ghost use Rattle.host_edge.specs.Tellings.{told_with};
ghost use Rattle.wan_edge.specs.Ports.{IsOneMore, LooksAt};
ghost use Rattle.wan_edge.specs.Streams.{Appends};

use crate::connection::{Connection, is_late};
use crate::dialer::Dialer;
use crate::time_limit::rest_behind;
use byte_history::{Count, History};
use std::fs::File;
use std::io::{self, ErrorKind};
use std::net::{Net, TcpStream};
use std::rt::Files;
use std::thread;
use std::time::{Clock, Duration, Instant};
use wan_edge::{Failed, Port};

/// The way to a switch as a port, which never fails. It tells what was offered, what was heard, how often
/// nothing was, and how often it was looked at too early.
///
/// Where its connection couldn't be made, or ends, another one is begun, at most once in each time limit.
/// Meanwhile what is offered is lost, and nothing is heard. What comes back is given on in whole answers:
/// one that is cut when its connection ends is dropped.
///
/// A hear waits until the time limit has passed since the last offer. A look waits for nothing: it reads what
/// is there, and the port is ready where whole answers are to be given on, and where that limit has passed.
/// Where the connection has ended it isn't ready before: what was offered is lost, and may be offered again
/// when the limit has passed, over a connection that was begun meanwhile.
///
/// So what was offered is all that was handed over. The first of each offer was sent over the connection
/// that there was: all of it or none, but for the last one there, of which a part may have gone. What was
/// heard is what was given on, and came over that connection. What a connection carried is noted for as long
/// as it is there: a new one begins with nothing.
#[derive(Drop)]
pub struct TcpPort<R> {
    dialer: Dialer<R>,
    connection: Option<Connection<TcpStream>>,
    last: Option<Instant>,
    offered: History,
    heard: History,
    quiet: Count,
    waits: Count,
}

impl<R: Net + Files<File = File> + Clock> TcpPort<R> {
    /// A port to this address, to which a connection is begun.
    pub(crate) fn new(mut dialer: Dialer<R>, address: &str) -> Self
        ensures connection { IsFresh result.connection }
        ensures offered { result.offered ≡ [] }
        ensures heard { result.heard ≡ [] }
        ensures quiet { result.quiet ≡ 0 }
        ensures waits { result.waits ≡ 0 }
    {
        let connection = connection_of(dialer.dial(address));
        TcpPort {
            dialer,
            connection,
            last: None,
            offered: History::new(),
            heard: History::new(),
            quiet: Count::new(),
            waits: Count::new(),
        }
    }

    // Begins another connection where there is none, or the last one wasn't made in its time.
    fn look_after(&mut self)
        ensures connection { StaysOrIsNew self.old.connection self.new.connection }
        ensures offered { self.new.offered ≡ self.old.offered }
        ensures heard { self.new.heard ≡ self.old.heard }
        ensures quiet { self.new.quiet ≡ self.old.quiet }
        ensures waits { self.new.waits ≡ self.old.waits }
    {
        if let Some(connection) = &mut self.connection {
            if connection.is_up() {
                return;
            }
        }
        if self.dialer.is_due() {
            self.connection = connection_of(self.dialer.redial());
        }
    }

    // How long the bytes that are offered may wait for room, or for their connection.
    fn patience(&mut self) -> Duration
        ensures connection { StaysOrIsNew self.old.connection self.new.connection }
        ensures offered { self.new.offered ≡ self.old.offered }
        ensures heard { self.new.heard ≡ self.old.heard }
        ensures quiet { self.new.quiet ≡ self.old.quiet }
        ensures waits { self.new.waits ≡ self.old.waits }
    {
        if let Some(connection) = &mut self.connection {
            if connection.is_up() {
                return self.dialer.limit().whole();
            }
        }
        self.dialer.patience()
    }

    // Sends over the connection that there is.
    fn send(&mut self, from: &[u8], patience: Duration)
        ensures sent { OffersOver self.old.connection from.now self.new.connection }
        ensures offered { self.new.offered ≡ self.old.offered }
        ensures heard { self.new.heard ≡ self.old.heard }
        ensures quiet { self.new.quiet ≡ self.old.quiet }
        ensures waits { self.new.waits ≡ self.old.waits }
    {
        let limit = self.dialer.limit();
        match &mut self.connection {
            Some(connection) => connection.offer(from, patience, limit),
            None => {}
        }
    }

    // What comes over the connection within the rest of the time limit.
    fn listen(&mut self, into: &mut [u8]) -> io::Result<usize>
        ensures within { IfOk result (λ n. n ≤ length into.old) }
        ensures given { IfOk result
            (λ n. HearsOver self.old.connection (take n into.new) self.new.connection) }
        ensures none { OnErr result (HearsOver self.old.connection [] self.new.connection) }
        ensures offered { self.new.offered ≡ self.old.offered }
        ensures heard { self.new.heard ≡ self.old.heard }
        ensures quiet { self.new.quiet ≡ self.old.quiet }
        ensures waits { self.new.waits ≡ self.old.waits }
    {
        let limit = self.dialer.limit();
        match &mut self.connection {
            Some(connection) => connection.hear(self.dialer.rt(), into, limit, self.last),
            None => Err(ErrorKind::NotConnected.into()),
        }
    }

    // Gives the connection up. Where it is too soon for another one, waits for the rest of the time limit.
    fn hang_up(&mut self)
        ensures connection { IsFresh self.new.connection }
        ensures offered { self.new.offered ≡ self.old.offered }
        ensures heard { self.new.heard ≡ self.old.heard }
        ensures quiet { self.new.quiet ≡ self.old.quiet }
        ensures waits { self.new.waits ≡ self.old.waits }
    {
        self.connection = None;
        if !self.dialer.is_due() {
            let left = self.dialer.limit().left(self.dialer.rt(), self.last);
            thread::sleep(self.dialer.rt(), left);
        }
    }

    // What comes now, over the connection that there is or another one, which is given up where it has ended.
    fn next(&mut self, into: &mut [u8]) -> usize
        ensures within { result ≤ length into.old }
        ensures told { HearsOver self.old.connection (take result into.new) self.new.connection }
        ensures offered { self.new.offered ≡ self.old.offered }
        ensures heard { self.new.heard ≡ self.old.heard }
        ensures quiet { self.new.quiet ≡ self.old.quiet }
        ensures waits { self.new.waits ≡ self.old.waits }
    {
        self.look_after();
        match self.listen(into) {
            Ok(n) => n,
            Err(error) if is_late(&error) => 0,
            Err(_) => {
                self.hang_up();
                0
            }
        }
    }

    // Whether there is something to give on, over the connection that there is. It reads what came already.
    fn look(&mut self) -> io::Result<bool>
        ensures told { HearsOver self.old.connection [] self.new.connection }
        ensures offered { self.new.offered ≡ self.old.offered }
        ensures heard { self.new.heard ≡ self.old.heard }
        ensures quiet { self.new.quiet ≡ self.old.quiet }
        ensures waits { self.new.waits ≡ self.old.waits }
    {
        let limit = self.dialer.limit();
        match &mut self.connection {
            Some(connection) => connection.look(self.dialer.rt(), limit),
            None => Ok(false),
        }
    }

    // The same over that connection or another one, which is given up where it has ended.
    fn peek(&mut self) -> bool
        ensures told { HearsOver self.old.connection [] self.new.connection }
        ensures offered { self.new.offered ≡ self.old.offered }
        ensures heard { self.new.heard ≡ self.old.heard }
        ensures quiet { self.new.quiet ≡ self.old.quiet }
        ensures waits { self.new.waits ≡ self.old.waits }
    {
        self.look_after();
        match self.look() {
            Ok(is_there) => is_there,
            Err(error) if is_late(&error) => false,
            Err(_) => {
                self.connection = None;
                false
            }
        }
    }

    // Whether the time limit has passed since the last offer.
    fn has_waited(&self) -> bool {
        let limit = self.dialer.limit();
        limit.has_passed(self.dialer.rt(), self.last)
    }
}

impl<R: Net + Files<File = File> + Clock> Port for TcpPort<R> {
    ghost use Rattle.std.specs.Prelude.{Some};

    ghost told = { λ p. told_with p.offered p.heard p.quiet p.waits };

    fn offer(&mut self, from: &[u8]) -> Result<(), Failed>
        ensures goes_on { IsOk result }
        ensures all { OnOk result
            (Appends (Some self.old.offered) from.now (Some self.new.offered)) }
        ensures sent { OffersOver self.old.connection from.now self.new.connection }
        ensures unheard { Some self.new.heard ≡ Some self.old.heard }
        ensures no_hear { Some self.new.quiet ≡ Some self.old.quiet }
        ensures no_look { Some self.new.waits ≡ Some self.old.waits }
    {
        self.look_after();
        self.last = Instant::now(self.dialer.rt()).ok();
        let patience = self.patience();
        self.send(from, patience);
        self.offered.add(from);
        Ok(())
    }

    #[tactic(auto, using(crate::proofs::Noting::one_more))]
    fn hear(&mut self, into: &mut [u8]) -> Result<usize, Failed>
        ensures goes_on { IsOk result }
        ensures within { IfOk result (λ n. n ≤ length into.old) }
        ensures told { IfOk result
            (λ n. HearsOver self.old.connection (take n into.new) self.new.connection) }
        ensures given { IfOk result
            (λ n. Appends (Some self.old.heard) (take n into.new) (Some self.new.heard)) }
        ensures unsent { Some self.new.offered ≡ Some self.old.offered }
        ensures quieter { IfOk result
            (λ n. n ≡ 0 → IsOneMore (Some self.old.quiet) (Some self.new.quiet)) }
        ensures as_quiet { IfOk result (λ n. 0 < n → Some self.new.quiet ≡ Some self.old.quiet) }
        ensures no_look { Some self.new.waits ≡ Some self.old.waits }
    {
        let n = self.next(into);
        if n == 0 {
            self.quiet.raise();
            return Ok(n);
        }
        self.heard.add(&into[..n]);
        Ok(n)
    }

    fn is_ready(&mut self) -> bool
        ensures looks { LooksAt result
            (told_with self.old.offered self.old.heard self.old.quiet self.old.waits)
            (told_with self.new.offered self.new.heard self.new.quiet self.new.waits) }
        ensures told { HearsOver self.old.connection [] self.new.connection }
    {
        if self.peek() {
            return true;
        }
        if self.has_waited() {
            return true;
        }
        self.waits.raise();
        false
    }

    fn rest(&self) {
        let rt = self.dialer.rt();
        thread::sleep(rt, rest_behind(rt, self.last));
    }

    ghost prompt_is_honest = { λ _ prompt. prompt };
}

fn connection_of(stream: io::Result<TcpStream>) -> Option<Connection<TcpStream>>
    ensures { IsFresh result }
{
    match stream {
        Ok(stream) => Some(Connection::new(stream)),
        Err(_) => None,
    }
}
