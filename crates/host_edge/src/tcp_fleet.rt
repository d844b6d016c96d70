ghost use Rattle.std.specs.Prelude.{◌≡◌, [], None, IfOk, IsSome, OnOk};
ghost use Rattle.wan_edge.specs.Fleets.{WaitsFor};
ghost use Rattle.host_edge.specs.Ledgers.{kept_in, lent_in, named_in, served_in, visiting_in};

use crate::dialer::Dialer;
use crate::entrance::Entrance;
use crate::faults::Faults;
use crate::fleet_file::is_address;
use crate::ledger::{Loans, Visits};
use crate::switchboard::Switchboard;
use crate::time_limit::TimeLimit;
use crate::{TcpGuest, TcpPort};
use std::alloc::Global;
use std::fs::File;
use std::io::{self, ErrorKind};
use std::net::{Net, TcpStream};
use std::rt::Files;
use std::time::{Clock, Duration};
use wan_edge::{Failed, Fleet, Waited};

/// Switches behind addresses, and the controllers that connect to an address. It tells nothing of what
/// waits or comes.
///
/// The file of addresses is read at the first use of a switch, and again where a connection is begun anew;
/// the address for controllers is bound at the first wait for one. A guest of which a wait has told is read
/// without a further wait, so that several can be served in turn. A line of the file is a switch's name and
/// its address, split at the last space. A switch that no line names, or more than one does, or whose
/// address is none, fails at each use. One that can't be reached has its port all the same.
#[derive(Drop)]
pub struct TcpFleet<R> {
    alloc: Global,
    rt: R,
    switches: Switchboard,
    listen: String,
    entrance: Option<Entrance>,
    limit: TimeLimit,
    loans: Loans<R>,
    visits: Visits<TcpStream>,
    faults: Faults,
}

impl<R> TcpFleet<R> {
    /// The switches of a file at a path and the controllers that come to an address, of which no call has
    /// failed. Where the one or the other is empty, each call that needs it fails. `milliseconds`, above 0,
    /// is how long connecting, hearing and writing may take; a guest may be read for ever.
    pub fn new(alloc: Global, rt: R, path: String, listen: String, milliseconds: u64) -> Self
        ensures { result.faults ≡ 0 }
    {
        TcpFleet {
            alloc,
            rt,
            switches: Switchboard::new(alloc, path),
            listen,
            entrance: None,
            limit: TimeLimit::of_millis(milliseconds),
            loans: Loans::Nothing,
            visits: Visits::Nobody,
            faults: Faults::new(),
        }
    }
}

impl<R: Net + Files<File = File> + Clock + Copy> Fleet for TcpFleet<R> {
    type Port = TcpPort<R>;

    type Guest = TcpGuest<TcpStream>;

    ghost told = { λ f. record {
      waiting = None;
      coming = None;
      kept = kept_in f.loans;
      served = served_in f.visits;
      lent = lent_in f.loans;
      named = named_in f.loans;
      visiting = visiting_in f.visits;
      faults = f.faults;
    } };

    fn port(&mut self, switch: u32, name: &str) -> Result<TcpPort<R>, Failed> {
        let answer = open_port(self.alloc, &self.rt, &mut self.switches, name, self.limit);
        let port = self.faults.count_failure(answer)?;
        self.loans = self.loans.given(switch, name);
        Ok(port)
    }

    fn keep(&mut self, switch: u32, port: TcpPort<R>) {
        self.loans = self.loans.back(switch, &port);
    }

    fn wait(&mut self, seated: &[TcpGuest<TcpStream>]) -> Result<Waited, Failed> {
        let answer = wait_at(
            self.alloc,
            &self.rt,
            self.listen.as_str(),
            &mut self.entrance,
            seated,
        );
        self.faults.count_failure(answer)
    }

    fn guest(&mut self) -> Result<Option<TcpGuest<TcpStream>>, Failed> {
        let answer = accept(
            self.alloc,
            &self.rt,
            self.listen.as_str(),
            &mut self.entrance,
            self.limit.whole(),
        );
        let stream = self.faults.count_failure(answer)?;
        self.visits = self.visits.given();
        Ok(Some(TcpGuest::new(stream)))
    }

    fn keep_guest(&mut self, mut guest: TcpGuest<TcpStream>) {
        self.visits = self.visits.back(&guest);
        guest.take_leave(&self.rt, self.limit);
    }
}

// A port to the switch of this name, where the file has one address for it.
fn open_port<R: Net + Files<File = File> + Clock + Copy>(
    alloc: Global,
    rt: &R,
    switches: &mut Switchboard,
    name: &str,
    limit: TimeLimit,
) -> io::Result<TcpPort<R>>
    ensures offered { IfOk result (λ port. port.offered ≡ []) }
    ensures heard { IfOk result (λ port. port.heard ≡ []) }
{
    let path = String::from_str(alloc, switches.path())?;
    let dialer = Dialer::new(alloc, *rt, path, String::from_str(alloc, name)?, limit);
    let address = switches.address(rt, name)?;
    if !is_address(address) {
        return Err(ErrorKind::InvalidInput.into());
    }
    Ok(TcpPort::new(dialer, address))
}

// Waits for a controller, or for something of one of these guests.
fn wait_at<R: Net>(
    alloc: Global,
    rt: &R,
    address: &str,
    entrance: &mut Option<Entrance>,
    seated: &[TcpGuest<TcpStream>],
) -> io::Result<Waited>
    ensures { IfOk result (λ woken. WaitsFor None seated.now woken) }
{
    open_once(alloc, rt, address, entrance)?;
    let door = entrance.as_mut().unwrap();
    door.wait(seated)
}

// The next connection from a controller, which waits, with its time limit: for writes, and for a read that
// finds nothing, though a wait told of something.
fn accept<R: Net>(
    alloc: Global,
    rt: &R,
    address: &str,
    entrance: &mut Option<Entrance>,
    limit: Duration,
) -> io::Result<TcpStream> {
    open_once(alloc, rt, address, entrance)?;
    let door = entrance.as_mut().unwrap();
    let stream = door.next()?;
    stream.set_nonblocking(false)?;
    stream.set_nodelay(true)?;
    stream.set_read_timeout(Some(limit))?;
    stream.set_write_timeout(Some(limit))?;
    Ok(stream)
}

fn open_once<R: Net>(
    alloc: Global,
    rt: &R,
    address: &str,
    entrance: &mut Option<Entrance>,
) -> io::Result<()>
    ensures { OnOk result (IsSome entrance.new) }
{
    if entrance.is_none() {
        *entrance = Some(Entrance::open(alloc, rt, address)?);
    }
    Ok(())
}
