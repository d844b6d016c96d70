//! Reads and writes that go on where a signal interrupts them, the same of streams that are waited for, and
//! the same with what they moved noted.
ghost use Rattle.std.specs.Prelude.{◌≡◌, ◌≢◌, ◌<◌, ◌≤◌, ◌++◌, length, take, IfErr, IfOk, OnErr, OnOk};
ghost use Rattle.std.specs.Io.KnownBytes.{Appends, Consumes, IsAtEnd, Keeps};
ghost use Rattle.std.specs.IoError.{error_kind};
ghost use Rattle.host_edge.specs.Histories.{AddsFront, Carries};

use byte_history::History;
use std::io::{self, ErrorKind, Read, Write};
use std::thread;
use std::time::{Clock, Duration};

/// How many milliseconds a stream that isn't ready is left alone.
const PAUSE: u64 = 1;

/// One read.
pub(crate) fn read_some<R: Read>(reader: &mut R, into: &mut [u8]) -> io::Result<usize>
    ensures within { IfOk result (λ n. n ≤ length into.old) }
    ensures taken { IfOk result
        (λ n. Consumes (R.remaining reader.old) (R.remaining reader.new) (take n into.new)) }
    ensures end { IfOk result
        (λ n. n ≡ 0 → 0 < length into.old → IsAtEnd (R.remaining reader.new)) }
    ensures unread { OnErr result (Keeps (R.remaining reader.old) (R.remaining reader.new)) }
{
    for _ in 0..u64::MAX {
        match reader.read(into) {
            Ok(n) => return Ok(n),
            Err(error) if error.kind() == ErrorKind::Interrupted => {}
            Err(error) => return Err(error),
        }
    }
    Err(ErrorKind::Interrupted.into())
}

/// The same of a stream that has no time limit: where it doesn't block and nothing is there yet, something is
/// waited for.
pub(crate) fn read_awaited<C: Clock, R: Read>(
    rt: &C,
    reader: &mut R,
    into: &mut [u8],
) -> io::Result<usize>
    ensures within { IfOk result (λ n. n ≤ length into.old) }
    ensures taken { IfOk result
        (λ n. Consumes (R.remaining reader.old) (R.remaining reader.new) (take n into.new)) }
    ensures end { IfOk result
        (λ n. n ≡ 0 → 0 < length into.old → IsAtEnd (R.remaining reader.new)) }
    ensures unread { OnErr result (Keeps (R.remaining reader.old) (R.remaining reader.new)) }
    ensures awaited { IfErr result (λ error. error_kind error ≢ ErrorKind.WouldBlock) }
{
    for _ in 0..u64::MAX {
        match read_some(reader, into) {
            Err(error) if error.kind() == ErrorKind::WouldBlock => pause(rt),
            answer => return answer,
        }
    }
    Err(ErrorKind::TimedOut.into())
}

/// One read. What came is noted, and nothing where it failed.
pub(crate) fn read_noted<R: Read>(
    reader: &mut R,
    into: &mut [u8],
    came: &mut History,
) -> io::Result<usize>
    ensures within { IfOk result (λ n. n ≤ length into.old) }
    ensures taken { IfOk result
        (λ n. Consumes (R.remaining reader.old) (R.remaining reader.new) (take n into.new)) }
    ensures end { IfOk result
        (λ n. n ≡ 0 → 0 < length into.old → IsAtEnd (R.remaining reader.new)) }
    ensures unread { OnErr result (Keeps (R.remaining reader.old) (R.remaining reader.new)) }
    ensures noted { IfOk result (λ n. came.new ≡ came.old ++ take n into.new) }
    ensures unnoted { OnErr result (came.new ≡ came.old) }
{
    let n = read_some(reader, into)?;
    came.add(&into[..n]);
    Ok(n)
}

/// One write, which fails where it takes nothing of what there is.
pub(crate) fn write_some<W: Write>(writer: &mut W, from: &[u8]) -> io::Result<usize>
    ensures within { IfOk result (λ n. n ≤ length from.now) }
    ensures some { IfOk result (λ n. 0 < length from.now → 0 < n) }
    ensures taken { IfOk result
        (λ n. Appends (W.contents writer.old) (W.contents writer.new) (take n from.now)) }
    ensures untaken { OnErr result (Keeps (W.contents writer.old) (W.contents writer.new)) }
{
    for _ in 0..u64::MAX {
        match writer.write(from) {
            Ok(0) if !from.is_empty() => return Err(ErrorKind::WriteZero.into()),
            Ok(taken) => return Ok(taken),
            Err(error) if error.kind() == ErrorKind::Interrupted => {}
            Err(error) => return Err(error),
        }
    }
    Err(ErrorKind::Interrupted.into())
}

/// The same of a stream that has no time limit: where it doesn't block and there is no room yet, room is
/// waited for.
pub(crate) fn write_awaited<C: Clock, W: Write>(
    rt: &C,
    writer: &mut W,
    from: &[u8],
) -> io::Result<usize>
    ensures within { IfOk result (λ n. n ≤ length from.now) }
    ensures some { IfOk result (λ n. 0 < length from.now → 0 < n) }
    ensures taken { IfOk result
        (λ n. Appends (W.contents writer.old) (W.contents writer.new) (take n from.now)) }
    ensures untaken { OnErr result (Keeps (W.contents writer.old) (W.contents writer.new)) }
    ensures awaited { IfErr result (λ error. error_kind error ≢ ErrorKind.WouldBlock) }
{
    for _ in 0..u64::MAX {
        match write_some(writer, from) {
            Err(error) if error.kind() == ErrorKind::WouldBlock => pause(rt),
            answer => return answer,
        }
    }
    Err(ErrorKind::TimedOut.into())
}

/// One write. What it took is noted, and nothing where it failed.
pub(crate) fn write_noted<W: Write>(
    writer: &mut W,
    from: &[u8],
    written: &mut History,
) -> io::Result<usize>
    ensures within { IfOk result (λ n. n ≤ length from.now) }
    ensures some { IfOk result (λ n. 0 < length from.now → 0 < n) }
    ensures taken { IfOk result
        (λ n. Appends (W.contents writer.old) (W.contents writer.new) (take n from.now)) }
    ensures untaken { OnErr result (Keeps (W.contents writer.old) (W.contents writer.new)) }
    ensures noted { IfOk result (λ n. written.new ≡ written.old ++ take n from.now) }
    ensures unnoted { OnErr result (written.new ≡ written.old) }
{
    let n = write_some(writer, from)?;
    written.add(&from[..n]);
    Ok(n)
}

/// All the bytes, by as many writes as it takes, or the first of them where one fails. What was taken is noted.
pub(crate) fn write_whole<W: Write>(
    writer: &mut W,
    from: &[u8],
    written: &mut History,
) -> io::Result<()>
    ensures all { OnOk result (Appends (W.contents writer.old) (W.contents writer.new) from.now) }
    ensures noted { OnOk result (written.new ≡ written.old ++ from.now) }
    ensures front { AddsFront written.old from.now written.new }
    ensures carried { Carries (W.contents writer.old) (W.contents writer.new) written.old
        written.new }
{
    let mut done = 0;
    while done < from.len() {
        done += write_noted(writer, &from[done..], written)?;
    }
    Ok(())
}

fn pause<C: Clock>(rt: &C) {
    thread::sleep(rt, Duration::from_millis(PAUSE));
}
