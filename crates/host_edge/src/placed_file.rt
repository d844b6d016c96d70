//! An open file as a trait: what is asked of one is proved over every file that tells what it holds. The
//! system's own tells nothing, and is the one that the program opens.
ghost use Rattle.std.specs.Prelude.{◌≡◌, ℕ, ◌<◌, ◌≤◌, Bool, List, Option, length, take, drop, true, IfOk, IfSome, OnOk};
ghost use Rattle.disk_model.specs.Writes.{Writes};

use std::fs::{File, OpenOptions};
use std::io::{self, ErrorKind};
use std::os::fd::AsRawFd;
use std::os::unix::fs::FileExt;
use std::rt::Files;

/// A file that is open, and is read and written at places.
pub trait PlacedFile: Drop {
    /// Its bytes, where it tells them.
    ghost bytes: { Self → Option (List ℕ) };

    /// Whether its lock is held, where it tells that.
    ghost locked: { Self → Option Bool };

    /// Opens the regular file at a path, or makes it.
    fn open_at<R: Files<File = File>>(rt: &R, path: &str) -> io::Result<Self>
    where
        Self: Sized;

    /// Takes the exclusive lock, where nobody else has it.
    fn take_lock(&mut self) -> io::Result<()>
        ensures { OnOk result (IfSome (locked self.new) (λ held. held ≡ true)) };

    /// How many bytes there are.
    fn size(&self) -> io::Result<u64>;

    /// Some of the bytes from a place on; none only at the end or past it.
    fn read_from(&self, at: u64, into: &mut [u8]) -> io::Result<usize>
        ensures within { IfOk result (λ n. n ≤ length into.old) }
        ensures given { IfOk result
            (λ n. IfSome (bytes self.now) (λ all. take n into.new ≡ take n (drop at all))) };

    /// All the bytes from a place on. A gap before it reads as zeros.
    fn write_from(&mut self, at: u64, from: &[u8]) -> io::Result<()>
        ensures { OnOk result
            (0 < length from.now → Writes at from.now (bytes self.old) (bytes self.new)) };

    /// Has it end at a place, with zeros up to there.
    fn end_at(&mut self, at: u64) -> io::Result<()>;

    /// To the device.
    fn sync(&self) -> io::Result<()>;
}

impl PlacedFile for File {
    ghost use Rattle.std.specs.Prelude.{None};

    ghost bytes = { λ _. None };

    ghost locked = { λ _. None };

    // A regular file alone: the length of a device isn't that of its bytes.
    fn open_at<R: Files<File = File>>(rt: &R, path: &str) -> io::Result<File> {
        let mut file = OpenOptions::new()
            .read(true)
            .write(true)
            .create(true)
            .open(rt, path)?;
        // What is meant for a standard stream that was closed must not land in the file.
        if file.as_raw_fd() <= 2 {
            file = file.try_clone()?;
        }
        if !file.metadata()?.is_file() {
            return Err(ErrorKind::Unsupported.into());
        }
        Ok(file)
    }

    fn take_lock(&mut self) -> io::Result<()> {
        self.try_lock()?;
        Ok(())
    }

    fn size(&self) -> io::Result<u64> {
        Ok(self.metadata()?.len())
    }

    fn read_from(&self, at: u64, into: &mut [u8]) -> io::Result<usize> {
        for _ in 0..u64::MAX {
            match self.read_at(into, at) {
                Ok(n) => return Ok(n),
                Err(error) if error.kind() == ErrorKind::Interrupted => {}
                Err(error) => return Err(error),
            }
        }
        Err(ErrorKind::Interrupted.into())
    }

    fn write_from(&mut self, at: u64, from: &[u8]) -> io::Result<()> {
        self.write_all_at(from, at)
    }

    fn end_at(&mut self, at: u64) -> io::Result<()> {
        self.set_len(at)
    }

    fn sync(&self) -> io::Result<()> {
        self.sync_data()
    }
}
