//! What is done of the bytes in memory and of the disk behind them together.
ghost use Rattle.std.specs.Prelude.{◌≡◌, ◌⊎◌, ◌≤◌, Some, false, true, length, IfOk, OnErr, OnOk};
ghost use Rattle.disk_model.specs.Crashes.{IsDurable};
ghost use Rattle.disk_model.specs.Memory.{after_write, at_rest, moves_to};
ghost use Rattle.disk_mirror.specs.Images.{IsLeftAlone};
ghost use Rattle.disk_mirror.specs.Mirrors.{Mirrors};

use crate::course::Course;
use crate::image::read_image;
use disk_model::Disk;
use std::alloc::Global;
use wan_edge::Failed;

#[tactic(auto, using(crate::proofs::Tying::begun))]
/// Reads the disk behind, which nothing was read of, after a sync. One with more bytes than `most` fails.
pub(crate) fn begin<D: Disk>(alloc: Global, disk: &mut D, most: u64) -> Result<Course, Failed>
    ensures mirrors { IfOk result (λ course. Mirrors (D.told disk.new) (Some course) true) }
    ensures within { IfOk result (λ course. length course.medium.bytes ≤ most) }
    ensures alone { IsLeftAlone (D.told disk.old) (D.told disk.new) }
{
    let image = read_image(alloc, disk, most)?;
    Ok(Course::new(image))
}

/// Writes in memory first, where lack of memory changes nothing, and then behind.
pub(crate) fn write_both<D: Disk>(
    disk: &mut D,
    course: &mut Course,
    live: &mut bool,
    at: u64,
    from: &[u8],
) -> Result<(), Failed>
    requires live { live.old ≡ true }
    requires mirrors { Mirrors (D.told disk.old) (Some course.old) true }
    ensures ok { OnOk result
        (course.new ≡ moves_to course.old (after_write at from.now course.old.medium)) }
    ensures either { (course.new ≡ course.old)
        ⊎ (course.new ≡ moves_to course.old (after_write at from.now course.old.medium)) }
    ensures mirrors { Mirrors (D.told disk.new) (Some course.new) live.new }
{
    if course.write(at, from).is_err() {
        return Err(Failed);
    }
    *live = false;
    disk.write_at(at, from)?;
    *live = true;
    Ok(())
}

/// Syncs the disk behind, and then in memory.
pub(crate) fn sync_both<D: Disk>(
    disk: &mut D,
    course: &mut Course,
    live: &mut bool,
) -> Result<(), Failed>
    requires live { live.old ≡ true }
    requires mirrors { Mirrors (D.told disk.old) (Some course.old) true }
    ensures ok { OnOk result (course.new ≡ moves_to course.old (at_rest course.old.medium.bytes)) }
    ensures err { OnErr result (course.new ≡ course.old) }
    ensures synced { OnOk result
        (IsDurable (D.told disk.new).bytes (D.told disk.new).may_leave) }
    ensures mirrors { Mirrors (D.told disk.new) (Some course.new) live.new }
{
    *live = false;
    disk.sync()?;
    course.sync();
    *live = true;
    Ok(())
}
