//! The file that has the addresses of the switches: a line is a name, a space and an address.

use std::alloc::Global;
use std::fs::{self, File};
use std::io::{self, ErrorKind, Read};
use std::net::{IpAddr, SocketAddr};
use std::rt::Files;

/// The most bytes that a fleet file has.
const MOST_BYTES: usize = 1_048_576;

/// The text of a fleet file, which is a regular file and not too long.
pub(crate) fn read_fleet<R: Files<File = File>>(
    alloc: Global,
    rt: &R,
    path: &str,
) -> io::Result<String> {
    // To open a pipe would be to wait for its writer.
    if !fs::metadata(rt, path)?.is_file() {
        return Err(ErrorKind::Unsupported.into());
    }
    let file = File::open(rt, path)?;
    let text = io::read_to_string(alloc, file.take(MOST_BYTES as u64 + 1))?;
    if text.len() > MOST_BYTES {
        return Err(ErrorKind::FileTooLarge.into());
    }
    Ok(text)
}

/// The address of the switch of this name, where exactly one line of the text names it.
pub(crate) fn address_in<'t>(text: &'t str, name: &str) -> Option<&'t str> {
    let mut found = None;
    for line in text.lines() {
        match line.rsplit_once(' ') {
            Some((named, _)) if named == name && found.is_some() => return None,
            Some((named, address)) if named == name => found = Some(address),
            _ => {}
        }
    }
    found
}

/// Whether the text is an address: a number or a name, a colon and a port.
pub(crate) fn is_address(text: &str) -> bool {
    if let Ok(place) = text.parse::<SocketAddr>() {
        return place.port() > 0;
    }
    match text.rsplit_once(':') {
        Some((host, port)) => is_host(host) && port.parse::<u16>().is_ok_and(|port| port > 0),
        None => false,
    }
}

// The last part of a name isn't a number.
fn is_host(text: &str) -> bool {
    if text.is_empty() || text.contains(':') {
        return text.parse::<IpAddr>().is_ok();
    }
    let last = match text.rsplit_once('.') {
        Some((_, last)) => last,
        None => text,
    };
    text.parse::<IpAddr>().is_ok() || last.parse::<u64>().is_err()
}
