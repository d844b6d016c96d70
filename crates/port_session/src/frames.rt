ghost use Rattle.std.specs.Prelude.{◌≡◌, OnOk};
ghost use Rattle.port_session.specs.Offers.{frames_of};

use lists::Memory;
use wire_frames::{COMMAND_LEN, Command, write_command};

/// Puts the bytes of the commands, one after the other, in the place of what stood in `out`.
pub(crate) fn write_frames(
    commands: &[Command],
    migration: u32,
    out: &mut Vec<u8>,
) -> Result<(), Memory>
    ensures { OnOk result (out.new.items ≡ frames_of migration commands.now) }
{
    out.clear();
    for command in commands {
        let mut frame = [0; COMMAND_LEN];
        let len = write_command(command, migration, &mut frame);
        out.extend_from_slice(&frame[..len])?;
    }
    Ok(())
}
