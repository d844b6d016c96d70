//! A switch that was asked is heard, a byte at a time.
ghost use Rattle.std.specs.Prelude.{◌≡◌, ◌<◌, ◌≤◌, ◌++◌, false, length, IfErr, IfOk, IsTrue, OnOk};
ghost use Rattle.wan_edge.specs.Frames.{IsCutAnswer};
ghost use Rattle.wan_edge.specs.Ports.{FailsToHear, Hears as HearsBytes, Steps};
ghost use Rattle.held_service.specs.Hearing.{HearsNext, HearsOut, IsAlien, IsOwn, StopsHearing, TakesByte, named_at};
ghost use Rattle.held_service.specs.Noting.{with_answer};
ghost use Rattle.held_service.specs.Questions.{is_asked};

use crate::NotTold;
use crate::alien::Alien;
use crate::homes::is_asked;
use crate::notes::{item_of, note, pair_of};
use rollout_rules::Held;
use wan_edge::Port;
use wire_frames::{Answer, AnswerReader};

/// Hears a port until so many answers were read, or nothing comes. Each is to be about an item that the switch
/// is asked about, and is noted.
pub(crate) fn hear_out<T: Port>(
    port: &mut T,
    reader: &mut AnswerReader,
    homes: &[Option<u32>],
    switch: u32,
    asked: usize,
    notes: &mut [Option<Held>],
) -> Result<(), NotTold>
    requires live { IsTrue reader.old.live }
    requires cut { IsCutAnswer reader.old.kept }
    requires rows { length notes.old ≡ length homes.now }
    ensures live { OnOk result (IsTrue reader.new.live) }
    ensures cut { OnOk result (IsCutAnswer reader.new.kept) }
    ensures ok { OnOk result
        (HearsOut homes.now switch asked reader.old.kept notes.old (T.told port.old)
        reader.new.kept notes.new (T.told port.new)) }
    ensures err { IfErr result
        (λ why. StopsHearing homes.now switch why reader.old.kept (T.told port.old)
        (T.told port.new)) }
{
    let mut left = asked;
    while left > 0 {
        let more = hear_next(port, reader, homes, switch, &mut left, notes)?;
        if !more {
            return Ok(());
        }
    }
    Ok(())
}

// Hears the next byte, and says whether one came.
fn hear_next<T: Port>(
    port: &mut T,
    reader: &mut AnswerReader,
    homes: &[Option<u32>],
    switch: u32,
    left: &mut usize,
    notes: &mut [Option<Held>],
) -> Result<bool, NotTold>
    requires live { IsTrue reader.old.live }
    requires cut { IsCutAnswer reader.old.kept }
    requires rows { length notes.old ≡ length homes.now }
    requires some { 0 < left.old }
    ensures live { OnOk result (IsTrue reader.new.live) }
    ensures cut { OnOk result (IsCutAnswer reader.new.kept) }
    ensures ok { IfOk result
        (λ more. HearsNext homes.now switch more left.old left.new reader.old.kept notes.old
        (T.told port.old) reader.new.kept notes.new (T.told port.new)) }
    ensures err { IfErr result
        (λ why. StopsHearing homes.now switch why reader.old.kept (T.told port.old)
        (T.told port.new)) }
{
    let mut byte = [0; 1];
    let n = hear_some(port, switch, &mut byte)?;
    if n == 0 {
        return Ok(false);
    }
    match take_byte(reader, &byte[..n], homes, switch, left, notes) {
        Ok(_) => Ok(true),
        Err(alien) => Err(named_at(switch, alien)),
    }
}

// Hears once.
fn hear_some<T: Port>(port: &mut T, switch: u32, byte: &mut [u8]) -> Result<usize, NotTold>
    requires { 0 < length byte.old }
    ensures within { IfOk result (λ n. n ≤ length byte.old) }
    ensures given { IfOk result (λ n. HearsBytes n byte.new (T.told port.old) (T.told port.new)) }
    ensures why { IfErr result (λ why. why ≡ NotTold.Port switch) }
    ensures nothing { IfErr result (λ _. FailsToHear (T.told port.old) (T.told port.new)) }
    ensures step { Steps (T.told port.old) (T.told port.new) }
{
    match port.hear(byte) {
        Ok(n) => Ok(n),
        Err(_) => Err(NotTold::Port(switch)),
    }
}

// Why a talk with this switch ends that told what can't be.
fn named_at(switch: u32, alien: Alien) -> NotTold
    ensures { result ≡ named_at switch alien }
{
    match alien {
        Alien::Byte(byte) => NotTold::NoAnswer { switch, byte },
        Alien::Item(item) => NotTold::NotAsked { switch, item },
    }
}

// Reads one byte more, and notes the answer that ends with it, if one does. Says how many bytes it took.
fn take_byte(
    reader: &mut AnswerReader,
    piece: &[u8],
    homes: &[Option<u32>],
    switch: u32,
    left: &mut usize,
    notes: &mut [Option<Held>],
) -> Result<usize, Alien>
    requires live { IsTrue reader.old.live }
    requires cut { IsCutAnswer reader.old.kept }
    requires rows { length notes.old ≡ length homes.now }
    requires some { 0 < left.old }
    requires one { length piece.now ≡ 1 }
    ensures live { OnOk result (IsTrue reader.new.live) }
    ensures cut { OnOk result (IsCutAnswer reader.new.kept) }
    ensures ok { OnOk result
        (TakesByte homes.now switch piece.now left.old left.new reader.old.kept notes.old
        reader.new.kept notes.new) }
    ensures err { IfErr result
        (λ alien. IsAlien homes.now switch alien (reader.old.kept ++ piece.now)) }
{
    let (n, found) = reader.feed(piece)?;
    if let Some(frame) = found {
        note_own(&frame, homes, switch, notes)?;
        *left -= 1;
    }
    Ok(n)
}

// Notes what an answer tells of an item that the switch is asked about.
fn note_own(
    frame: &(u32, Answer),
    homes: &[Option<u32>],
    switch: u32,
    notes: &mut [Option<Held>],
) -> Result<(), Alien>
    requires { length notes.old ≡ length homes.now }
    ensures noted { OnOk result (notes.new ≡ with_answer notes.old frame.now) }
    ensures own { OnOk result (IsOwn homes.now switch frame.now) }
    ensures why { IfErr result (λ alien. alien ≡ Alien.Item frame.now.1.item) }
    ensures other { IfErr result (λ _. is_asked homes.now switch frame.now.1.item ≡ false) }
{
    let item = item_of(&frame.1);
    if !is_asked(homes, switch, item) {
        return Err(Alien::Item(item));
    }
    note(notes, item, pair_of(frame));
    Ok(())
}
