ghost use Rattle.std.specs.Prelude.{◌≡◌, ◌<◌, IsTrue, length, true, false};
ghost use Rattle.fenced_wire.specs.Reading.{IsInBody, IsInHead, IsStanding, ReadsTermed, fresh, termed};

use crate::head::{Head, begins_head, term_in};
use crate::writing::FENCE_LEN;
use std::marker::Model;
use wire_frames::{Command, CommandReader, FrameFault};

/// A command as it came, with the term that it names, where it names one.
#[derive(Debug, Drop)]
pub struct TermedFrame {
    term: Option<u32>,
    frame: (u32, Command),
}

impl Model for TermedFrame {
    ghost use Rattle.fenced_agent.specs.Frames.{TermedCommand};

    ghost Value = { TermedCommand };

    ghost view = { λ f. record { term = f.term; command = f.frame } };
}

impl TermedFrame {
    /// The term, where the command names one.
    pub fn term(&self) -> Option<u32>
        ensures { result ≡ self.now.term }
    {
        self.term
    }

    /// The migration, and the command.
    pub fn frame(&self) -> &(u32, Command)
        ensures { result.now ≡ self.now.command }
    {
        &self.frame
    }
}

/// Reads commands, with a term or without one, from a stream that comes in pieces.
#[derive(Debug, Drop)]
pub struct TermedReader {
    head: Head,
    commands: CommandReader,
    begun: bool,
}

impl Model for TermedReader {
    ghost use Rattle.fenced_wire.specs.Reading.{IsStanding, Termed};

    ghost Value = { Termed };

    ghost view = { λ r. record {
      head = r.head;
      kept = r.commands.kept;
      begun = r.begun;
      live = r.commands.live;
    } };

    ghost invariant = { λ r. IsStanding (record {
      head = r.head;
      kept = r.commands.kept;
      begun = r.begun;
      live = r.commands.live;
    }) };
}

impl TermedReader {
    #[tactic(auto, using(crate::proofs::Heads::standing_fresh))]
    pub fn new() -> Self
        ensures { result ≡ fresh }
    {
        TermedReader {
            head: Head::new(),
            commands: CommandReader::new(),
            begun: false,
        }
    }

    /// Whether there was no fault.
    pub fn live(&self) -> bool
        ensures { result ≡ self.now.live }
    {
        self.commands.live()
    }

    /// Takes bytes of the piece, at least one, up to the end of one command or of what stands in front of one,
    /// and says how many, and which command it is. After a fault nothing more may be fed. A byte after a term
    /// that begins no command is a fault at that byte.
    pub fn feed(&mut self, piece: &[u8]) -> Result<(usize, Option<TermedFrame>), FrameFault>
        requires live { IsTrue self.old.live }
        requires some { 0 < length piece.now }
        ensures { ReadsTermed self.old piece.now result self.new }
    {
        feed_parts(&mut self.head, &mut self.commands, &mut self.begun, piece)
    }
}

// The reading of a command, on what has come before.
fn feed_parts(
    head: &mut Head,
    commands: &mut CommandReader,
    begun: &mut bool,
    piece: &[u8],
) -> Result<(usize, Option<TermedFrame>), FrameFault>
    requires standing { IsStanding (termed head.old commands.old begun.old) }
    requires live { IsTrue commands.old.live }
    requires some { 0 < length piece.now }
    ensures standing { IsStanding (termed head.new commands.new begun.new) }
    ensures reads { ReadsTermed (termed head.old commands.old begun.old) piece.now result
        (termed head.new commands.new begun.new) }
{
    if is_in_head(head.bytes(), *begun, piece) {
        let n = head.fill(piece);
        return Ok((n, None));
    }
    feed_body(head, commands, begun, piece)
}

// The reading of what stands after a head, or without one.
fn feed_body(
    head: &mut Head,
    commands: &mut CommandReader,
    begun: &mut bool,
    piece: &[u8],
) -> Result<(usize, Option<TermedFrame>), FrameFault>
    requires standing { IsStanding (termed head.old commands.old begun.old) }
    requires live { IsTrue commands.old.live }
    requires some { 0 < length piece.now }
    requires body { IsInBody head.old begun.old piece.now }
    ensures standing { IsStanding (termed head.new commands.new begun.new) }
    ensures reads { ReadsTermed (termed head.old commands.old begun.old) piece.now result
        (termed head.new commands.new begun.new) }
{
    let (n, found) = commands.feed(piece)?;
    match found {
        Some(frame) => {
            let term = term_in(head.bytes());
            head.clear();
            *begun = false;
            Ok((n, Some(TermedFrame { term, frame })))
        }
        None => {
            *begun = true;
            Ok((n, None))
        }
    }
}

// Whether the next byte stands in front of a command.
#[tactic(auto, using(crate::proofs::Heads::in_body_begun, crate::proofs::Heads::in_body_whole, crate::proofs::Heads::in_body_plain, crate::proofs::Heads::in_head_more, crate::proofs::Heads::in_head_first))]
fn is_in_head(head: &[u8], begun: bool, piece: &[u8]) -> bool
    requires { 0 < length piece.now }
    ensures yes { result ≡ true → IsInHead head.now begun piece.now }
    ensures no { result ≡ false → IsInBody head.now begun piece.now }
{
    if begun {
        return false;
    }
    let come = head.len();
    if come >= FENCE_LEN {
        return false;
    }
    if come > 0 {
        return true;
    }
    begins_head(piece)
}
