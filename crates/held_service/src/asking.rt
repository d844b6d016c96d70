//! One switch is asked about its items, over its port.
ghost use Rattle.std.specs.Prelude.{◌≡◌, length, IfErr, IsTrue, OnErr, OnOk};
ghost use Rattle.wan_edge.specs.Frames.{IsCutAnswer};
ghost use Rattle.wan_edge.specs.Ports.{FailsToSend, Sends, Steps};
ghost use Rattle.held_service.specs.Talks.{AsksRound, EndsTalk, StopsRound};

use crate::NotTold;
use crate::hearing::hear_out;
use crate::notes::{first_untold, list_untold};
use crate::questions::{fit_frames, question_bytes};
use rollout_rules::Held;
use std::alloc::Global;
use wan_edge::Port;
use wire_frames::AnswerReader;

/// Asks a switch about these items by questions of a migration, in so many rounds at the most, until it has told
/// of all.
pub(crate) fn ask_port<T: Port>(
    alloc: Global,
    port: &mut T,
    homes: &[Option<u32>],
    switch: u32,
    items: &[u32],
    migration: u32,
    rounds: u32,
    notes: &mut [Option<Held>],
) -> Result<(), NotTold>
    requires { length notes.old ≡ length homes.now }
    ensures { EndsTalk result homes.now switch items.now notes.old migration rounds
        (T.told port.old) notes.new (T.told port.new) }
{
    fit_frames(migration, items);
    let mut reader = AnswerReader::new();
    let mut round = 0;
    while let Some(item) = first_untold(notes, items) {
        if round >= rounds {
            return Err(NotTold::Spent(item));
        }
        ask_round(
            alloc,
            port,
            &mut reader,
            migration,
            homes,
            switch,
            items,
            notes,
        )?;
        round += 1;
    }
    Ok(())
}

// Asks about those of the items that weren't told yet, all in one call, and hears the port out.
fn ask_round<T: Port>(
    alloc: Global,
    port: &mut T,
    reader: &mut AnswerReader,
    migration: u32,
    homes: &[Option<u32>],
    switch: u32,
    items: &[u32],
    notes: &mut [Option<Held>],
) -> Result<(), NotTold>
    requires live { IsTrue reader.old.live }
    requires cut { IsCutAnswer reader.old.kept }
    requires rows { length notes.old ≡ length homes.now }
    ensures live { OnOk result (IsTrue reader.new.live) }
    ensures cut { OnOk result (IsCutAnswer reader.new.kept) }
    ensures ok { OnOk result
        (AsksRound migration homes.now switch items.now reader.old.kept notes.old
        (T.told port.old) reader.new.kept notes.new (T.told port.new)) }
    ensures err { IfErr result
        (λ why. StopsRound migration homes.now switch items.now notes.old why reader.old.kept
        (T.told port.old) (T.told port.new)) }
{
    let left = list_untold(alloc, notes, items)?;
    let bytes = question_bytes(alloc, migration, left.as_slice())?;
    offer(port, switch, bytes.as_slice())?;
    hear_out(port, reader, homes, switch, left.as_slice().len(), notes)?;
    Ok(())
}

// Offers these bytes in one call.
fn offer<T: Port>(port: &mut T, switch: u32, bytes: &[u8]) -> Result<(), NotTold>
    ensures all { OnOk result (Sends bytes.now (T.told port.old) (T.told port.new)) }
    ensures part { OnErr result (FailsToSend bytes.now (T.told port.old) (T.told port.new)) }
    ensures why { IfErr result (λ why. why ≡ NotTold.Port switch) }
    ensures step { Steps (T.told port.old) (T.told port.new) }
{
    match port.offer(bytes) {
        Ok(()) => Ok(()),
        Err(_) => Err(NotTold::Port(switch)),
    }
}
