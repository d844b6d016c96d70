ghost use Rattle.std.specs.Prelude.{◌≡◌, ◌⊎◌, ◌-◌, ◌+◌, ◌≤◌, None, Some, false, true, length, take, drop, min, IfOk, IfSome, IsTrue, IsSome, OnErr, OnOk};
ghost use Rattle.disk_model.specs.Crashes.{IsDurable};
ghost use Rattle.disk_mirror.specs.Images.{IsLeftAlone};
ghost use Rattle.disk_mirror.specs.Mirrors.{IsWithin, bytes_in, counts_now, only_now, shows_one, synced_in, trace_of, written_in};

use crate::Openable;
use crate::both::{begin, sync_both, write_both};
use crate::course::Course;
use crate::failures::Failures;
use disk_model::Disk;
use std::alloc::Global;
use std::cmp::min;
use std::marker::Model;
use wan_edge::Failed;

/// A disk over another: it reads all the bytes behind it once, when it is opened, and from then on gives
/// them from memory, and writes and syncs both.
///
/// Before it is opened it tells nothing, and each other call fails and reaches nothing. It never has more
/// bytes than the opening says: a longer disk isn't opened, and a write past that fails and changes
/// nothing, also where all before it would be zeros. After a call of the disk behind that failed each
/// further one fails, since what is there may no longer be what is in memory. A call that finds no memory
/// fails, too, and changes nothing. Each failure is counted.
#[derive(Drop)]
pub struct Mirror<D: Disk> {
    alloc: Global,
    disk: D,
    course: Option<Course>,
    // How many bytes there may be; 0 before it is opened.
    most: u64,
    // Whether it was opened, and no call of the disk behind has failed since.
    live: bool,
    failures: Failures,
}

impl<D: Disk> Model for Mirror<D> {
    ghost use Rattle.disk_mirror.specs.Mirrors.{IsWithin, Mirrored, Mirrors};

    ghost Value = { Mirrored D };

    ghost view = { λ m. record {
      disk = m.disk;
      course = m.course;
      most = m.most;
      live = m.live;
      faults = m.failures;
    } };

    ghost invariant = { λ m. (Mirrors (D.told m.disk) m.course m.live)
        × (IsWithin m.most m.course) };
}

impl<D: Disk> Mirror<D> {
    /// Over a disk of which no byte is read before the opening.
    pub fn new(alloc: Global, disk: D) -> Self
        ensures { result ≡ record {
          disk = disk;
          course = None;
          most = 0;
          live = false;
          faults = 0;
        } }
    {
        Mirror {
            alloc,
            disk,
            course: None,
            most: 0,
            live: false,
            failures: Failures::new(),
        }
    }

    /// Gives the disk behind back.
    pub fn into_disk(self) -> D
        ensures { result ≡ self.disk }
    {
        self.disk
    }

    // Reads what is behind, if that wasn't done.
    fn begin(&mut self, most: u64) -> Result<(), Failed>
        ensures told { OnOk result (IsSome self.new.course) }
        ensures within { OnOk result (self.old.course ≡ None → IsWithin most self.new.course) }
        ensures most { OnOk result (self.old.course ≡ None → self.new.most ≡ most) }
        ensures kept { IfSome self.old.course (λ t. self.new.course ≡ Some t) }
        ensures alone { IsLeftAlone (D.told self.old.disk) (D.told self.new.disk) }
        ensures faults { self.new.faults ≡ self.old.faults }
    {
        if self.course.is_none() {
            let course = begin(self.alloc, &mut self.disk, most)?;
            self.course = Some(course);
            self.most = most;
            self.live = true;
        }
        if self.live { Ok(()) } else { Err(Failed) }
    }

    fn write(&mut self, at: u64, from: &[u8]) -> Result<(), Failed>
        ensures ok { OnOk result (self.new.course ≡ written_in at from.now self.old.course) }
        ensures either { (self.new.course ≡ self.old.course)
            ⊎ (self.new.course ≡ written_in at from.now self.old.course) }
        ensures live { OnOk result (IsTrue self.old.live) }
        ensures most { self.new.most ≡ self.old.most }
        ensures faults { self.new.faults ≡ self.old.faults }
    {
        if !self.live || !fits(at, from, self.most) {
            return Err(Failed);
        }
        match &mut self.course {
            Some(course) => write_both(&mut self.disk, course, &mut self.live, at, from),
            None => Err(Failed),
        }
    }

    fn flush(&mut self) -> Result<(), Failed>
        ensures ok { OnOk result (self.new.course ≡ synced_in self.old.course) }
        ensures either { (self.new.course ≡ self.old.course)
            ⊎ (self.new.course ≡ synced_in self.old.course) }
        ensures live { OnOk result (IsTrue self.old.live) }
        ensures synced { OnOk result
            (IsDurable (D.told self.new.disk).bytes (D.told self.new.disk).may_leave) }
        ensures most { self.new.most ≡ self.old.most }
        ensures faults { self.new.faults ≡ self.old.faults }
    {
        if !self.live {
            return Err(Failed);
        }
        match &mut self.course {
            Some(course) => sync_both(&mut self.disk, course, &mut self.live),
            None => Err(Failed),
        }
    }

    // The bytes in memory.
    pub(crate) fn bytes(&self) -> Result<&[u8], Failed>
        ensures told { IfOk result (λ bytes. bytes_in self.now.course ≡ Some bytes.now) }
        ensures live { OnOk result (IsTrue self.now.live) }
    {
        if !self.live {
            return Err(Failed);
        }
        match &self.course {
            Some(course) => Ok(course.bytes()),
            None => Err(Failed),
        }
    }
}

impl<D: Disk> Disk for Mirror<D> {
    ghost told = { trace_of };

    ghost shows_one = { λ m. shows_one m.course };

    ghost counts_now = { λ m. counts_now m.course };

    ghost only_now = { λ m. only_now m.course };

    fn len(&mut self) -> Result<u64, Failed> {
        let answer = match self.bytes() {
            Ok(bytes) => Ok(bytes.len() as u64),
            Err(fault) => Err(fault),
        };
        self.failures.count_failure(answer)
    }

    fn read_at(&mut self, at: u64, into: &mut [u8]) -> Result<usize, Failed> {
        let answer = match self.bytes() {
            Ok(bytes) => Ok(copy_from(bytes, at, into)),
            Err(fault) => Err(fault),
        };
        self.failures.count_failure(answer)
    }

    fn write_at(&mut self, at: u64, from: &[u8]) -> Result<(), Failed> {
        let answer = self.write(at, from);
        self.failures.count_failure(answer)
    }

    fn sync(&mut self) -> Result<(), Failed> {
        let answer = self.flush();
        self.failures.count_failure(answer)
    }
}

impl<D: Disk> Openable for Mirror<D> {
    fn open(&mut self, most: u64) -> Result<(), Failed> {
        let answer = self.begin(most);
        self.failures.count_failure(answer)
    }
}

// Whether a write ends within so many bytes.
fn fits(at: u64, from: &[u8], most: u64) -> bool
    ensures { result ≡ true → at + length from.now ≤ most }
{
    at <= most && from.len() as u64 <= most - at
}

// Copies the bytes from `at` on, as many as fit, and says how many.
fn copy_from(bytes: &[u8], at: u64, into: &mut [u8]) -> usize
    ensures answer { result ≡ min (length into.old) (length bytes.now - at) }
    ensures given { take result into.new ≡ take result (drop at bytes.now) }
{
    let rest = &bytes[min(at as usize, bytes.len())..];
    let n = min(into.len(), rest.len());
    into[..n].copy_from_slice(&rest[..n]);
    n
}
