ghost use Rattle.std.specs.Prelude.{◌≡◌, ◌≤◌, [], ◌∷◌, ◌++◌, drop, length};
ghost use Rattle.wan_edge.specs.Frames.{IsCommand, command_bytes, command_head};
ghost use Rattle.wire_frames.specs.Reading.{IsWhole};

use byteorder::{BigEndian, ByteOrder};
use std::marker::Model;

/// The first byte of a command.
pub(crate) const COMMAND: u8 = 0x4D;

/// How many bytes stand before a command's rates.
pub(crate) const HEAD_LEN: usize = 18;

/// How many bytes a command has at most.
pub const COMMAND_LEN: usize = 146;

/// What a switch is told of an item: an operation's number and the content that it brings. The content
/// is the first `count` rates, 1 to 16 of them, in units of 1/scale; the others are 0. The migration
/// whose operation it is stands beside it.
#[derive(Clone, Copy, Debug, PartialEq, Eq)]
pub struct Command {
    pub item: u32,
    pub number: u32,
    pub scale: u32,
    pub count: u8,
    pub rates: [u64; 16],
}

impl Model for Command {
    ghost use Rattle.wan_edge.specs.Frames.{Command};
    ghost use Rattle.std.specs.Prelude.{length};
    ghost use Rattle.wire_frames.specs.Contents.{IsFilled, content_of, rates_of};

    ghost Value = { Command };

    ghost view = { λ c. record {
      item = c.item;
      number = c.number;
      scale = c.scale;
      content = content_of c.count c.rates;
    } };

    ghost invariant = { λ c. IsFilled c.count c.rates };

    ghost inverse = { λ c. record {
      item = c.item;
      number = c.number;
      scale = c.scale;
      count = length c.content;
      rates = rates_of c.content;
    } };

    ghost use Rattle.std.proofs.Common.{ap₂};
    ghost use Rattle.wire_frames.specs.Contents.{length-content_of, rates_of-content_of};

    ghost inverse_ok = { λ a h. ap₂ (λ count rates. record a { count = count; rates = rates })
        (length-content_of a.count a.rates h) (rates_of-content_of a.count a.rates h) };
}

/// Writes the bytes of a command of this migration to the front of `out`, and says how many there are.
pub fn write_command(command: &Command, migration: u32, out: &mut [u8; COMMAND_LEN]) -> usize
    ensures written { out.new ≡ command_bytes (migration, command.now) ++ drop result out.old }
    ensures count { result ≡ length (command_bytes (migration, command.now)) }
    ensures within { result ≤ 146 }
{
    let count = usize::from(command.count);
    let len = HEAD_LEN + 8 * count;
    out[..HEAD_LEN].copy_from_slice(&head_of(command, migration));
    BigEndian::write_u64_into(&command.rates[..count], &mut out[HEAD_LEN..len]);
    len
}

// The bytes before the rates.
fn head_of(command: &Command, migration: u32) -> [u8; HEAD_LEN]
    ensures { result ≡ command_head (migration, command.now) ++ length command.now.content ∷ [] }
{
    let mut head = [0; HEAD_LEN];
    head[0] = COMMAND;
    BigEndian::write_u32(&mut head[1..], migration);
    BigEndian::write_u32(&mut head[5..], command.item);
    BigEndian::write_u32(&mut head[9..], command.number);
    BigEndian::write_u32(&mut head[13..], command.scale);
    head[HEAD_LEN - 1] = command.count;
    head
}

/// The migration and the command that these bytes spell.
pub(crate) fn command_of(bytes: &[u8]) -> (u32, Command)
    requires { IsWhole bytes.now }
    ensures fits { IsCommand result }
    ensures spelled { command_bytes result ≡ bytes.now }
{
    let count = bytes[HEAD_LEN - 1];
    let mut rates = [0; 16];
    BigEndian::read_u64_into(&bytes[HEAD_LEN..], &mut rates[..usize::from(count)]);
    let command = Command {
        item: BigEndian::read_u32(&bytes[5..]),
        number: BigEndian::read_u32(&bytes[9..]),
        scale: BigEndian::read_u32(&bytes[13..]),
        count,
        rates,
    };
    (BigEndian::read_u32(&bytes[1..]), command)
}
