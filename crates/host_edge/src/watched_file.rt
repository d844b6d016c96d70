ghost use Rattle.std.specs.Prelude.{◌≡◌, ◌≤◌, ◌++◌, None, length, take, IfOk, IsSome, OnErr, OnOk};
ghost use Rattle.host_edge.specs.Looks.{taken_in};

use crate::faults::Faults;
use crate::tap::Tap;
use file_sight::Sight;
use std::fs::{self, File};
use std::io::{self, ErrorKind};
use std::rt::Files;
use std::time::Clock;
use wan_edge::{Failed, Source};

/// A file that another process may write meanwhile, as a source, which tells what was taken: the bytes that the
/// system says it gave, in order.
///
/// The file is opened by the first read, and by the first one after a rewinding, for reading alone: it isn't made
/// where it isn't there, its lock isn't asked for, and nothing is written or synced. At a path that names no
/// regular file each read fails.
#[derive(Drop)]
pub struct WatchedFile<R> {
    rt: R,
    path: String,
    tap: Option<Tap<File>>,
    faults: Faults,
}

impl<R> WatchedFile<R> {
    /// The file at a path, of which nothing was read, and of which no call has failed.
    pub fn new(rt: R, path: String) -> Self
        ensures taken { result.tap ≡ None }
        ensures faults { result.faults ≡ 0 }
    {
        WatchedFile {
            rt,
            path,
            tap: None,
            faults: Faults::new(),
        }
    }
}

impl<R: Files<File = File> + Clock> WatchedFile<R> {
    fn give(&mut self, into: &mut [u8]) -> io::Result<usize>
        ensures within { IfOk result (λ n. n ≤ length into.old) }
        ensures noted { IfOk result
            (λ n. taken_in self.new.tap ≡ taken_in self.old.tap ++ take n into.new) }
        ensures unnoted { OnErr result (taken_in self.new.tap ≡ taken_in self.old.tap) }
        ensures faults { self.new.faults ≡ self.old.faults }
    {
        self.open()?;
        let tap = self.tap.as_mut().unwrap();
        tap.read(&self.rt, into)
    }

    fn open(&mut self) -> io::Result<()>
        ensures there { OnOk result (IsSome self.new.tap) }
        ensures same { taken_in self.new.tap ≡ taken_in self.old.tap }
        ensures faults { self.new.faults ≡ self.old.faults }
    {
        if self.tap.is_none() {
            self.tap = Some(Tap::new(open_known(&self.rt, self.path.as_str())?));
        }
        Ok(())
    }
}

// A regular file alone: to open a pipe would be to wait for whoever writes to it.
fn open_known<R: Files<File = File>>(rt: &R, path: &str) -> io::Result<File> {
    if !fs::metadata(rt, path)?.is_file() {
        return Err(ErrorKind::Unsupported.into());
    }
    File::open(rt, path)
}

impl<R: Files<File = File> + Clock> Source for WatchedFile<R> {
    ghost use Rattle.std.specs.Prelude.{None, Some};
    ghost use Rattle.host_edge.specs.Looks.{taken_in};

    ghost told = { λ s. record { left = None; taken = Some (taken_in s.tap); faults = s.faults } };

    fn read(&mut self, into: &mut [u8]) -> Result<usize, Failed> {
        let answer = self.give(into);
        self.faults.count_failure(answer)
    }
}

impl<R: Files<File = File> + Clock> Sight for WatchedFile<R> {
    fn rewind(&mut self) {
        self.tap = None;
    }
}
