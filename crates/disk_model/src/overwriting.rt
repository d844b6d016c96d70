ghost use Rattle.std.specs.Prelude.{◌≡◌, ◌+◌, ◌-◌, ◌≤◌, ◌++◌, drop, length, replicate, take, OnErr, OnOk};
ghost use Rattle.disk_model.specs.Writes.{written};

use lists::Memory;
use std::alloc::AllocError;

/// Writes bytes from `at` on over what is there, with zeros in a gap. Lack of memory changes nothing.
pub fn overwrite(bytes: &mut Vec<u8>, at: u64, from: &[u8]) -> Result<(), Memory>
    ensures ok { OnOk result (bytes.new.items ≡ written at from.now bytes.old.items) }
    ensures err { OnErr result (bytes.new.items ≡ bytes.old.items) }
{
    let start = at as usize;
    let end = start.checked_add(from.len()).ok_or(AllocError)?;
    fill_up(bytes, end)?;
    put_over(bytes, start, from);
    Ok(())
}

// Zeros after bytes up to an end.
fn fill_up(bytes: &mut Vec<u8>, end: usize) -> Result<(), Memory>
    ensures ok { OnOk result
        (bytes.new.items ≡ bytes.old.items ++ replicate (end - length bytes.old.items) 0) }
    ensures err { OnErr result (bytes.new.items ≡ bytes.old.items) }
{
    if bytes.len() < end {
        bytes.resize(end, 0)?;
    }
    Ok(())
}

// Bytes over those of a range.
fn put_over(bytes: &mut [u8], start: usize, from: &[u8])
    requires { start + length from.now ≤ length bytes.old }
    ensures { bytes.new
        ≡ take start bytes.old ++ (from.now ++ drop (start + length from.now) bytes.old) }
{
    bytes[start..start + from.len()].copy_from_slice(from);
}
