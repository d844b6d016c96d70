use crate::fleet_file::{address_in, read_fleet};
use crate::time_limit::TimeLimit;
use std::alloc::Global;
use std::fs::File;
use std::io::{self, ErrorKind};
use std::net::{Net, SocketAddr, TcpStream, ToSocketAddrs};
use std::rt::Files;
use std::time::{Clock, Duration, Instant};

/// What begins connections to one switch, and knows when the last one was begun.
#[derive(Drop)]
pub(crate) struct Dialer<R> {
    alloc: Global,
    rt: R,
    path: String,
    name: String,
    limit: TimeLimit,
    tried: Option<Instant>,
    place: usize,
    again: bool,
}

impl<R> Dialer<R> {
    /// For the switch of this name, whose address stands in the fleet file at a path.
    pub(crate) fn new(alloc: Global, rt: R, path: String, name: String, limit: TimeLimit) -> Self {
        Dialer {
            alloc,
            rt,
            path,
            name,
            limit,
            tried: None,
            place: 0,
            again: false,
        }
    }

    pub(crate) fn rt(&self) -> &R {
        &self.rt
    }

    pub(crate) fn limit(&self) -> TimeLimit {
        self.limit
    }
}

impl<R: Net + Files<File = File> + Clock> Dialer<R> {
    /// Whether the time limit has passed since the last connection was begun.
    pub(crate) fn is_due(&self) -> bool {
        self.limit.left(&self.rt, self.tried).is_zero()
    }

    /// How long the last connection may still take to be made before bytes that are to go over it are lost.
    /// The first one has its time limit; later ones hold nobody up.
    pub(crate) fn patience(&self) -> Duration {
        if self.again {
            return Duration::ZERO;
        }
        self.limit.left(&self.rt, self.tried)
    }

    /// Begins the first connection, to this address.
    pub(crate) fn dial(&mut self, address: &str) -> io::Result<TcpStream> {
        self.tried = Instant::now(&self.rt).ok();
        let places = address
            .to_socket_addrs(&self.rt)?
            .collect::<Vec<SocketAddr>>(self.alloc)?;
        self.begin(places.as_slice())
    }

    /// Begins another connection, to the address that the fleet file has now.
    pub(crate) fn redial(&mut self) -> io::Result<TcpStream> {
        self.again = true;
        self.tried = Instant::now(&self.rt).ok();
        let text = read_fleet(self.alloc, &self.rt, self.path.as_str())?;
        match address_in(text.as_str(), self.name.as_str()) {
            Some(address) => self.dial(address),
            None => Err(ErrorKind::NotFound.into()),
        }
    }

    // Tries the places in turn, beginning after the one to which the last connection was begun, until one
    // doesn't refuse at once.
    fn begin(&mut self, places: &[SocketAddr]) -> io::Result<TcpStream> {
        let mut answer = Err(ErrorKind::AddrNotAvailable.into());
        for _ in 0..places.len() {
            let place = places[self.place % places.len()];
            self.place = self.place.wrapping_add(1);
            answer = begin_at(&self.rt, place);
            if answer.is_ok() {
                return answer;
            }
        }
        answer
    }
}

// Begins to connect, and doesn't wait. A refusal that came at once is an error.
fn begin_at<R: Net>(rt: &R, place: SocketAddr) -> io::Result<TcpStream> {
    let stream = TcpStream::from(mio::net::TcpStream::connect(rt, place)?);
    if let Some(error) = stream.take_error()? {
        return Err(error);
    }
    stream.set_nodelay(true)?;
    Ok(stream)
}
