ghost use Rattle.std.specs.Prelude.{◌≡◌, ◌<◌, ◌≤◌, length, take, drop, IfOk, IfSome, OnErr, OnOk};
ghost use Rattle.disk_model.specs.Effects.{HasFailed, WritesNothing, WritesSome};
ghost use Rattle.disk_model.specs.Writes.{Writes};
ghost use Rattle.host_edge.specs.Places.{StandsAt, WritesAt, told_with};

use crate::faults::Faults;
use crate::locked_file::LockedFile;
use crate::placed_file::PlacedFile;
use disk_model::Disk;
use std::fs::File;
use std::rt::Files;
use wan_edge::Failed;

/// A file as a disk, which tells nothing of its bytes.
///
/// The file is opened by the first call, and made if it isn't there. Its exclusive lock is taken then and
/// kept: where another process has it, each call fails. The folder is synced before the first sync is
/// answered, so that a file that was made outlives a crash.
#[derive(Drop)]
pub struct FileDisk<R, F = File> {
    file: LockedFile<R, F>,
    faults: Faults,
}

impl<R> FileDisk<R> {
    /// The file at a path, of which no call has failed. At a path that names no regular file, as the empty
    /// one, each call fails.
    pub fn new(rt: R, path: String) -> Self
        ensures { result.faults ≡ 0 }
    {
        FileDisk {
            file: LockedFile::new(rt, path),
            faults: Faults::new(),
        }
    }
}

impl<R: Files<File = File> + Alloc, F: PlacedFile> Disk for FileDisk<R, F> {
    ghost told = { λ disk. told_with disk.faults };

    fn len(&mut self) -> Result<u64, Failed> {
        let answer = self.file.len();
        self.faults.count_failure(answer)
    }

    fn read_at(&mut self, at: u64, into: &mut [u8]) -> Result<usize, Failed>
        ensures within { IfOk result (λ n. n ≤ length into.old) }
        ensures given { IfOk result (λ n. IfSome (told_with self.old.faults).bytes
            (λ all. take n into.new ≡ take n (drop at all))) }
        ensures end { IfOk result (λ n. n ≡ 0 → IfSome (told_with self.old.faults).bytes
            (λ all. length all ≤ at)) }
        ensures nothing { WritesNothing (told_with self.old.faults) (told_with self.new.faults) }
        ensures cause { OnErr result
            (HasFailed (told_with self.old.faults) (told_with self.new.faults)) }
        ensures there { IfOk result
            (λ n. StandsAt F.bytes self.new.file.file at n (take n into.new)) }
    {
        let answer = self.file.read_at(at, into);
        self.faults.count_failure(answer)
    }

    fn write_at(&mut self, at: u64, from: &[u8]) -> Result<(), Failed>
        ensures written { OnOk result (Writes at from.now
            (told_with self.old.faults).bytes (told_with self.new.faults).bytes) }
        ensures some { WritesSome at (length from.now)
            (told_with self.old.faults) (told_with self.new.faults) }
        ensures cause { OnErr result
            (HasFailed (told_with self.old.faults) (told_with self.new.faults)) }
        ensures there { OnOk result (0 < length from.now →
            WritesAt F.bytes self.old.file.file at from.now self.new.file.file) }
    {
        let answer = self.file.write_at(at, from);
        self.faults.count_failure(answer)
    }

    fn sync(&mut self) -> Result<(), Failed> {
        let answer = self.file.sync();
        self.faults.count_failure(answer)
    }

    ghost shows_one = { λ _. tt };

    ghost counts_now = { λ _ _ _ _ _. tt };

    ghost only_now = { λ _ _ _. tt };
}
