//! A disk in memory over another.

use disk_mirror::{Mirror, Openable};
use disk_model::{Disk, MemoryDisk};
use lists::Memory;
use std::alloc::Global;
use std::test::Fail;
use wan_edge::{Nums8, Turns};

// A disk over one with four bytes, whose call with this number fails.
fn over_four_bytes(alloc: Global, fails: u64) -> Result<Mirror<MemoryDisk>, Memory> {
    let mut bytes = Nums8::new(alloc);
    bytes.extend_from_slice(b"abcd")?;
    let mut turns = Turns::new(alloc);
    turns.push(fails)?;
    Ok(Mirror::new(alloc, MemoryDisk::new(alloc, bytes, turns)))
}

// A disk that may pass between threads.
fn may_pass<D: Disk + Drop + Send>(disk: D) -> D {
    disk
}

// The disk is read when it is opened and not before; it takes what fits and nothing else, and gives it.
fn gives_what_was_written<D: Openable>(disk: &mut D) -> bool {
    let shut = disk.len().is_err();
    let opened = disk.open(6).is_ok();
    let written = disk.write_at(3, b"xyz").is_ok();
    let past = disk.write_at(6, b"x").is_err();
    let beyond = disk.write_at(1 << 40, b"").is_err();
    let synced = disk.sync().is_ok();
    let mut back = [0; 8];
    let read = disk.read_at(2, &mut back) == Ok(4);
    shut && opened && written && past && beyond && synced && read && back == *b"cxyz\0\0\0\0"
}

// The write of a byte fails after it, and then each call does.
fn fails_for_good<D: Openable>(disk: &mut D) -> bool {
    let opened = disk.open(4).is_ok();
    let unwritten = disk.write_at(0, b"x").is_err();
    let unsynced = disk.sync().is_err();
    let unknown = disk.len().is_err();
    let shut = disk.open(4).is_err();
    opened && unwritten && unsynced && unknown && shut
}

// Whether the disk behind, which goes, has these bytes, or so many calls.
fn has_bytes(disk: MemoryDisk, bytes: &[u8]) -> bool {
    let has_bytes = disk.bytes() == bytes;
    drop(disk);
    has_bytes
}

fn has_calls(disk: MemoryDisk, calls: u64) -> bool {
    let has_calls = disk.calls() == calls;
    drop(disk);
    has_calls
}

fn writes_both(alloc: Global) -> Result<bool, Memory> {
    let mut mirror = may_pass(over_four_bytes(alloc, 99)?);
    let given = gives_what_was_written(&mut mirror);
    Ok(has_bytes(mirror.into_disk(), b"abcxyz") && given)
}

// A sync, the length and two reads open it.
fn ends_with_the_disk_behind(alloc: Global) -> Result<bool, Memory> {
    let mut mirror = over_four_bytes(alloc, 4)?;
    let failed = fails_for_good(&mut mirror);
    Ok(has_calls(mirror.into_disk(), 5) && failed)
}

// A disk that is too long isn't opened, and no byte of it is read.
fn leaves_what_is_too_long(alloc: Global) -> Result<bool, Memory> {
    let mut mirror = over_four_bytes(alloc, 99)?;
    let unopened = mirror.open(3).is_err();
    Ok(has_calls(mirror.into_disk(), 2) && unopened)
}

#[test]
fn a_mirror_gives_what_stands_in_memory_and_behind(rt: HostRuntime) -> Result<(), Fail> {
    assert!(rt; writes_both(rt.alloc())?);
    assert!(rt; ends_with_the_disk_behind(rt.alloc())?);
    assert!(rt; leaves_what_is_too_long(rt.alloc())?);
    Ok(())
}
