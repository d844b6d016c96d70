//! Where controllers come in, and what an agent waits at.
ghost use Rattle.std.specs.Prelude.{◌<◌, None, length, IfOk, IfSome};
ghost use Rattle.wan_edge.specs.Fleets.{WaitsFor};

use crate::TcpGuest;
use mio::net::TcpListener;
use mio::unix::SourceFd;
use mio::{Events, Interest, Poll, Registry, Token};
use std::alloc::Global;
use std::io::{self, ErrorKind};
use std::net::{Net, SocketAddr, TcpStream, ToSocketAddrs};
use std::time::Duration;
use wan_edge::Waited;

/// How many sources one wait tells of at most.
const MOST_EVENTS: usize = 65;

/// The listener among the sources. The others go by the places of guests.
const DOOR: usize = usize::MAX;

/// A listener, and what is waited by, for a controller at the listener and for bytes of guests that sit. A
/// connection that came is kept until it is asked for.
#[derive(Drop)]
pub(crate) struct Entrance {
    listener: TcpListener,
    poll: Poll,
    events: Events,
    arrived: Option<TcpStream>,
    came_last: bool,
}

impl Entrance {
    /// Listens at an address.
    pub(crate) fn open<R: Net>(alloc: Global, rt: &R, address: &str) -> io::Result<Self> {
        let mut listener = listen(alloc, rt, address)?;
        let poll = Poll::new(rt)?;
        poll.registry()
            .register(&mut listener, Token(DOOR), Interest::READABLE)?;
        let events = Events::with_capacity(alloc, MOST_EVENTS)?;
        Ok(Entrance {
            listener,
            poll,
            events,
            arrived: None,
            came_last: true,
        })
    }

    /// The connection that came, or the next one that does.
    pub(crate) fn next(&mut self) -> io::Result<TcpStream> {
        for _ in 0..u64::MAX {
            if let Some(stream) = self.arrived.take() {
                return Ok(stream);
            }
            self.wait(&[])?;
        }
        Err(ErrorKind::Interrupted.into())
    }

    /// Waits until a connection has come, or something is there of one of these guests: bytes, the end, or a
    /// failure, so that a read of it doesn't wait. Of several guests it is the first. A connection and a
    /// guest take turns where both are there; after a connection, and at first, it is the guest's turn.
    #[tactic(auto, using(crate::proofs::Waiting::one_woken))]
    pub(crate) fn wait(&mut self, seated: &[TcpGuest<TcpStream>]) -> io::Result<Waited>
        ensures { IfOk result (λ woken. WaitsFor None seated.now woken) }
    {
        for _ in 0..u64::MAX {
            let found = self.look(seated)?;
            if let Some(woken) = found {
                return Ok(woken);
            }
        }
        Err(ErrorKind::Interrupted.into())
    }

    // Waits once. After a signal, and for a connection that has gone before it was taken, nothing is there.
    #[tactic(auto, using(crate::proofs::Waiting::one_below))]
    fn look(&mut self, seated: &[TcpGuest<TcpStream>]) -> io::Result<Option<Waited>>
        ensures { IfOk result (λ found. IfSome found (λ woken. WaitsFor None seated.now woken)) }
    {
        self.take_arrived()?;
        let is_there = self.arrived.is_some();
        if is_there && !self.came_last {
            self.came_last = true;
            return Ok(Some(Waited::Came));
        }
        let first = self.first_ready(seated, is_there)?;
        if let Some(place) = first {
            self.came_last = false;
            return Ok(Some(Waited::Seat(place)));
        }
        self.came_last = true;
        if is_there {
            return Ok(Some(Waited::Came));
        }
        Ok(None)
    }

    // Takes the next connection where none is kept, if one is there.
    fn take_arrived(&mut self) -> io::Result<()> {
        if self.arrived.is_some() {
            return Ok(());
        }
        match self.listener.accept() {
            Ok((stream, _)) => {
                self.arrived = Some(TcpStream::from(stream));
                Ok(())
            }
            Err(error) if is_passing(error.kind()) => Ok(()),
            Err(error) => Err(error),
        }
    }

    // The first of these guests of whom something is there, and None where nothing is, at once or after a
    // wait.
    fn first_ready(
        &mut self,
        seated: &[TcpGuest<TcpStream>],
        at_once: bool,
    ) -> io::Result<Option<usize>>
        ensures { IfOk result (λ first. IfSome first (λ place. place < length seated.now)) }
    {
        let limit = if at_once { Some(Duration::ZERO) } else { None };
        self.poll
            .registry()
            .reregister(&mut self.listener, Token(DOOR), Interest::READABLE)?;
        watch_all(self.poll.registry(), seated)?;
        self.poll.poll(&mut self.events, limit)?;
        Ok(first_among(&self.events, seated.len()))
    }
}

// Listens at the first of the address's places at which that can be done.
fn listen<R: Net>(alloc: Global, rt: &R, address: &str) -> io::Result<TcpListener> {
    let places = address
        .to_socket_addrs(rt)?
        .collect::<Vec<SocketAddr>>(alloc)?;
    let mut answer = Err(ErrorKind::AddrNotAvailable.into());
    for place in places.as_slice() {
        answer = TcpListener::bind(rt, *place);
        if answer.is_ok() {
            return answer;
        }
    }
    answer
}

// Has the next wait tell of these guests by their places, also of what is there already.
fn watch_all(registry: &Registry, seated: &[TcpGuest<TcpStream>]) -> io::Result<()> {
    for place in 0..seated.len() {
        watch(registry, &seated[place], place)?;
    }
    Ok(())
}

fn watch(registry: &Registry, guest: &TcpGuest<TcpStream>, place: usize) -> io::Result<()> {
    let number = guest.number();
    let mut source = SourceFd(&number);
    match registry.reregister(&mut source, Token(place), Interest::READABLE) {
        Err(error) if error.kind() == ErrorKind::NotFound => {
            registry.register(&mut source, Token(place), Interest::READABLE)
        }
        answer => answer,
    }
}

// The least number among the sources that were told of, below this one.
fn first_among(events: &Events, count: usize) -> Option<usize>
    ensures { IfSome result (λ place. place < count) }
{
    let mut first = count;
    for event in events.iter() {
        let token = event.token();
        if token.0 < first {
            first = token.0;
        }
    }
    if first < count { Some(first) } else { None }
}

// Whether nobody is there, though the listener is as it was. Linux tells here also what went wrong on the
// network for a connection that is gone then (accept(2)).
fn is_passing(kind: ErrorKind) -> bool {
    matches!(
        kind,
        ErrorKind::WouldBlock
            | ErrorKind::Interrupted
            | ErrorKind::ConnectionAborted
            | ErrorKind::NetworkDown
            | ErrorKind::NetworkUnreachable
            | ErrorKind::HostUnreachable
    )
}
