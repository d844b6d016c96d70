ghost use Rattle.std.specs.Prelude.{◌≡◌, ◌≤◌, ◌<◌, ◌++◌, None, length, take, IfOk, IsSome, OnErr, OnOk};
ghost use Rattle.host_edge.specs.Logs.{written_in};

use crate::faults::Faults;
use crate::pen::Pen;
use std::fs::{File, OpenOptions};
use std::io::{self, ErrorKind};
use std::os::fd::AsRawFd;
use std::rt::Files;
use std::time::Clock;
use wan_edge::{Failed, Sink};

/// A file that lines are added to, as a sink, which tells what was written: the bytes that the system says it
/// took, after what the file had.
///
/// The file is opened by the first write, and made if it isn't there. Its exclusive lock is taken then and kept.
/// At a path that names no regular file, as the empty one, or one whose lock another has, each write fails.
#[derive(Drop)]
pub struct FileLog<R> {
    rt: R,
    path: String,
    pen: Option<Pen<File>>,
    faults: Faults,
}

impl<R> FileLog<R> {
    /// The file at a path, to which nothing was written, and of which no call has failed.
    pub fn new(rt: R, path: String) -> Self
        ensures written { result.pen ≡ None }
        ensures faults { result.faults ≡ 0 }
    {
        FileLog {
            rt,
            path,
            pen: None,
            faults: Faults::new(),
        }
    }
}

impl<R: Files<File = File> + Clock> FileLog<R> {
    fn append(&mut self, from: &[u8]) -> io::Result<usize>
        ensures within { IfOk result (λ n. n ≤ length from.now) }
        ensures some { IfOk result (λ n. 0 < length from.now → 0 < n) }
        ensures noted { IfOk result
            (λ n. written_in self.new.pen ≡ written_in self.old.pen ++ take n from.now) }
        ensures unnoted { OnErr result (written_in self.new.pen ≡ written_in self.old.pen) }
        ensures faults { self.new.faults ≡ self.old.faults }
    {
        self.open()?;
        let pen = self.pen.as_mut().unwrap();
        pen.write(&self.rt, from)
    }

    fn open(&mut self) -> io::Result<()>
        ensures there { OnOk result (IsSome self.new.pen) }
        ensures same { written_in self.new.pen ≡ written_in self.old.pen }
        ensures faults { self.new.faults ≡ self.old.faults }
    {
        if self.pen.is_none() {
            self.pen = Some(Pen::new(open_log(&self.rt, self.path.as_str())?));
        }
        Ok(())
    }
}

// A regular file alone, since a pipe that nobody reads would hold up whoever writes; and one that nobody has
// locked: the log of another run, and this one's journal.
fn open_log<R: Files<File = File>>(rt: &R, path: &str) -> io::Result<File> {
    let mut file = OpenOptions::new()
        .read(true)
        .append(true)
        .create(true)
        .open(rt, path)?;
    // What is meant for a standard stream that was closed must not land in the file.
    if file.as_raw_fd() <= 2 {
        file = file.try_clone()?;
    }
    if !file.metadata()?.is_file() {
        return Err(ErrorKind::Unsupported.into());
    }
    file.try_lock()?;
    Ok(file)
}

impl<R: Files<File = File> + Clock> Sink for FileLog<R> {
    ghost use Rattle.std.specs.Prelude.{Some};
    ghost use Rattle.host_edge.specs.Logs.{written_in};

    ghost told = { λ l. record { written = Some (written_in l.pen); faults = l.faults } };

    fn write(&mut self, from: &[u8]) -> Result<usize, Failed> {
        let answer = self.append(from);
        self.faults.count_failure(answer)
    }
}
