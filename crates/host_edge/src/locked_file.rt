ghost use Rattle.std.specs.Prelude.{◌≡◌, ◌<◌, ◌≤◌, length, take, true, IfOk, IfSome, IsNone, IsSome, OnOk};
ghost use Rattle.host_edge.specs.Places.{StandsAt, WritesAt};

use crate::placed_file::PlacedFile;
use std::fs::{self, File};
use std::io::{self, ErrorKind};
use std::rt::Files;

/// A file that the first call opens, or makes, and locks. One that couldn't be opened is tried again by
/// the next call.
#[derive(Drop)]
pub(crate) struct LockedFile<R, F> {
    rt: R,
    path: String,
    file: Option<F>,
    folder_synced: bool,
    sync_failed: bool,
}

impl<R, F> LockedFile<R, F> {
    pub(crate) fn new(rt: R, path: String) -> Self {
        LockedFile {
            rt,
            path,
            file: None,
            folder_synced: false,
            sync_failed: false,
        }
    }
}

impl<R: Files<File = File> + Alloc, F: PlacedFile> LockedFile<R, F> {
    pub(crate) fn len(&mut self) -> io::Result<u64> {
        self.open()?;
        self.file.as_ref().unwrap().size()
    }

    /// Some of the bytes from a place on; none only at the end or past it.
    pub(crate) fn read_at(&mut self, at: u64, into: &mut [u8]) -> io::Result<usize>
        ensures within { IfOk result (λ n. n ≤ length into.old) }
        ensures given { IfOk result (λ n. StandsAt F.bytes self.new.file at n (take n into.new)) }
    {
        self.open()?;
        let file = self.file.as_ref().unwrap();
        file.read_from(at, into)
    }

    /// All the bytes from a place on. A gap before it reads as zeros.
    pub(crate) fn write_at(&mut self, at: u64, from: &[u8]) -> io::Result<()>
        ensures { OnOk result
            (0 < length from.now → WritesAt F.bytes self.old.file at from.now self.new.file) }
    {
        self.open()?;
        let file = self.file.as_mut().unwrap();
        if from.is_empty() && file.size()? < at {
            return file.end_at(at);
        }
        file.write_from(at, from)
    }

    /// To the device, with the folder where it wasn't synced since the file was opened. After a sync that
    /// failed each further one fails, since the system may have forgotten what it couldn't write.
    pub(crate) fn sync(&mut self) -> io::Result<()> {
        if self.sync_failed {
            return Err(ErrorKind::Other.into());
        }
        let answer = self.sync_both();
        self.sync_failed = answer.is_err();
        answer
    }

    fn sync_both(&mut self) -> io::Result<()> {
        self.open()?;
        self.file.as_ref().unwrap().sync()?;
        if !self.folder_synced {
            sync_folder(&self.rt, self.path.as_str())?;
            self.folder_synced = true;
        }
        Ok(())
    }

    fn open(&mut self) -> io::Result<()>
        ensures there { OnOk result (IsSome self.new.file) }
        ensures same { IsSome self.old.file → self.new.file ≡ self.old.file }
        ensures locked { IsNone self.old.file → IfSome self.new.file
            (λ file. IfSome (F.locked file) (λ held. held ≡ true)) }
    {
        if self.file.is_none() {
            self.file = Some(open_locked(&self.rt, self.path.as_str())?);
        }
        Ok(())
    }
}

fn open_locked<R: Files<File = File>, F: PlacedFile>(rt: &R, path: &str) -> io::Result<F>
    ensures { IfOk result (λ file. IfSome (F.locked file) (λ held. held ≡ true)) }
{
    let mut file = F::open_at(rt, path)?;
    file.take_lock()?;
    Ok(file)
}

// The folder in which the file lies, where a link leads too.
fn sync_folder<R: Files<File = File> + Alloc>(rt: &R, path: &str) -> io::Result<()> {
    let mut folder = fs::canonicalize(rt, path)?;
    folder.pop();
    File::open(rt, folder.as_str())?.sync_all()
}
