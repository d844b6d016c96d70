//! What is handed on of the bytes that are heard.
ghost use Rattle.std.specs.Prelude.{◌≡◌, ◌<◌, false};
ghost use Rattle.fenced_ports.specs.Parts as parts;
ghost use Rattle.fenced_ports.specs.Sieves.{after_byte, first_sifting, moved, noted};

use crate::part::Part;
use byte_history::{Count, History};
use std::marker::Model;

/// The first byte of a frame.
const FENCE: u8 = 0x46;

/// The first byte of an answer.
const ANSWER: u8 = 0x4E;

/// How many bytes stand in front of an answer.
const HEAD: u8 = 5;

/// The place of a frame's last byte.
const LAST: u8 = 17;

/// Where one stands in the answers with a floor in front, and, for contracts alone, what was handed on.
#[derive(Drop)]
pub(crate) struct Sieve {
    at: u8,
    floor: u32,
    plain: History,
    lows: Count,
    broken: bool,
}

impl Model for Sieve {
    ghost use Rattle.std.specs.Prelude.{◌<◌};
    ghost use Rattle.fenced_ports.specs.Sieves.{Sifting};

    ghost Value = { Sifting };

    ghost view = { λ s. record {
      at = s.at;
      floor = s.floor;
      plain = s.plain;
      lows = s.lows;
      broken = s.broken;
    } };

    ghost invariant = { λ s. s.at < 18 };
}

impl Sieve {
    pub(crate) fn new() -> Self
        ensures { result ≡ first_sifting }
    {
        Sieve {
            at: 0,
            floor: 0,
            plain: History::new(),
            lows: Count::new(),
            broken: false,
        }
    }

    /// The place of the next byte is one of a frame's.
    pub(crate) fn is_placed(&self)
        ensures { self.now.at < 18 }
    {
        let _at = self.at;
    }

    /// Takes a byte that was heard, and says what it is, for a controller of this term.
    #[tactic(auto, using(crate::proofs::Sifted::read_on))]
    pub(crate) fn take(&mut self, term: u32, byte: u8) -> Part
        requires { self.old.broken ≡ false }
        ensures part { result ≡ parts.part_of term self.old.at self.old.floor byte }
        ensures after { self.new ≡ after_byte term self.old byte }
        ensures place { self.new.at < 18 }
    {
        let part = self.part(term, byte);
        self.move_on(byte);
        self.note(part);
        part
    }

    fn part(&self, term: u32, byte: u8) -> Part
        ensures { result ≡ parts.part_of term self.now.at self.now.floor byte }
    {
        part_of(term, self.at, self.floor, byte)
    }

    fn move_on(&mut self, byte: u8)
        ensures { self.new ≡ moved self.old byte }
    {
        self.floor = next_floor(self.at, self.floor, byte);
        self.at = next_at(self.at);
    }

    fn note(&mut self, part: Part)
        ensures noted { self.new ≡ noted self.old part }
        ensures place { self.new.at < 18 }
    {
        match part {
            Part::Silent => {}
            Part::Plain(byte) => self.plain.push(byte),
            Part::Low => self.lows.raise(),
            Part::Alien => self.broken = true,
        }
    }
}

fn next_at(at: u8) -> u8
    ensures next { result ≡ parts.next_at at }
    ensures inside { result < 18 }
{
    if at < LAST { at + 1 } else { 0 }
}

fn next_floor(at: u8, floor: u32, byte: u8) -> u32
    ensures { result ≡ parts.next_floor at floor byte }
{
    if at < HEAD {
        shift_in(floor, byte)
    } else {
        floor
    }
}

// The last four bytes as a number, with this one.
fn shift_in(floor: u32, byte: u8) -> u32
    ensures { result ≡ parts.shifted floor byte }
{
    ((u64::from(floor) * 256 + u64::from(byte)) % 4_294_967_296) as u32
}

fn part_of(term: u32, at: u8, floor: u32, byte: u8) -> Part
    ensures { result ≡ parts.part_of term at floor byte }
{
    if at < HEAD {
        head_byte(term, at, floor, byte)
    } else {
        answer_byte(term, at, floor, byte)
    }
}

fn head_byte(term: u32, at: u8, floor: u32, byte: u8) -> Part
    ensures { result ≡ parts.head_byte term at floor byte }
{
    if at == 0 {
        first_byte(byte)
    } else if at == HEAD - 1 {
        last_of_floor(term, shift_in(floor, byte))
    } else {
        Part::Silent
    }
}

fn first_byte(byte: u8) -> Part
    ensures { result ≡ parts.first_byte byte }
{
    if byte == FENCE {
        Part::Silent
    } else {
        Part::Alien
    }
}

fn last_of_floor(term: u32, floor: u32) -> Part
    ensures { result ≡ parts.last_of_floor term floor }
{
    if term < floor {
        Part::Alien
    } else {
        Part::Silent
    }
}

fn answer_byte(term: u32, at: u8, floor: u32, byte: u8) -> Part
    ensures { result ≡ parts.answer_byte term at floor byte }
{
    if floor < term {
        lower_byte(at, byte)
    } else {
        Part::Plain(byte)
    }
}

fn lower_byte(at: u8, byte: u8) -> Part
    ensures { result ≡ parts.lower_byte at byte }
{
    if at == HEAD {
        begins_answer(byte)
    } else if at == LAST {
        Part::Low
    } else {
        Part::Silent
    }
}

fn begins_answer(byte: u8) -> Part
    ensures { result ≡ parts.in_answers_place byte }
{
    if byte == ANSWER {
        Part::Silent
    } else {
        Part::Plain(byte)
    }
}
