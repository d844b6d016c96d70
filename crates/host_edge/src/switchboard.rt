use crate::fleet_file::read_fleet;
use indexmap::IndexMap;
use std::alloc::Global;
use std::fs::File;
use std::io::{self, ErrorKind};
use std::rt::Files;

/// The addresses of switches by their names, and None where more than one line names a switch.
type Addresses = IndexMap<String, Option<String>>;

/// The addresses of switches, read from a file by the first call that gets so far.
#[derive(Drop)]
pub(crate) struct Switchboard {
    alloc: Global,
    path: String,
    addresses: Option<Addresses>,
}

impl Switchboard {
    pub(crate) fn new(alloc: Global, path: String) -> Self {
        Switchboard {
            alloc,
            path,
            addresses: None,
        }
    }

    pub(crate) fn path(&self) -> &str {
        self.path.as_str()
    }

    /// The address of the switch of this name, where one line names it.
    pub(crate) fn address<R: Files<File = File>>(
        &mut self,
        rt: &R,
        name: &str,
    ) -> io::Result<&str> {
        if self.addresses.is_none() {
            let text = read_fleet(self.alloc, rt, self.path.as_str())?;
            self.addresses = Some(addresses_in(self.alloc, text.as_str())?);
        }
        match self.addresses.as_ref().and_then(|all| all.get(name)) {
            Some(Some(address)) => Ok(address.as_str()),
            _ => Err(ErrorKind::NotFound.into()),
        }
    }
}

// A line of another form names no switch.
fn addresses_in(alloc: Global, lines: &str) -> io::Result<Addresses> {
    let mut addresses = Addresses::new(alloc);
    for line in lines.lines() {
        if let Some((name, address)) = line.rsplit_once(' ') {
            let address = if addresses.contains_key(name) {
                None
            } else {
                Some(String::from_str(alloc, address)?)
            };
            let name = String::from_str(alloc, name)?;
            if addresses.insert(name, address).is_err() {
                return Err(ErrorKind::OutOfMemory.into());
            }
        }
    }
    Ok(addresses)
}
