//! A value whose history is notes, and a turn that adds one.
ghost use Rattle.std.specs.Prelude.{◌≡◌, IfSome};
ghost use Rattle.turn_lock.specs.Histories.{GoesOn};
ghost use Rattle.turn_lock.specs.Passes.{IsPassOf, IsFirstPass, IsSamePass};

use crate::{Counted, Pass, TurnLock};
use std::alloc::Global;
use std::sync::Wait;

/// The seat that wrote it, and how many it had written before.
#[derive(Clone, Copy, Debug, PartialEq)]
pub struct Note {
    pub seat: u32,
    pub number: u64,
}

#[derive(Drop)]
pub struct Notes {
    pub list: Vec<Note>,
}

impl Counted for Notes {
    type Entry = Note;

    ghost history = { λ notes. notes.list.items };

    ghost seat_of = { λ note. note.seat };

    fn count(&self) -> u64 {
        self.list.len() as u64
    }
}

/// A lock round no notes. None where memory runs out.
pub fn new_lock(alloc: Global) -> Option<(TurnLock<Notes>, Pass<Notes>)>
    ensures { IfSome result (λ r. IsPassOf r.0 r.1 × IsFirstPass r.1) }
{
    TurnLock::new(
        alloc,
        Notes {
            list: Vec::new(alloc),
        },
    )
    .ok()
}

// Where memory runs out it adds nothing.
fn write(notes: &mut Notes, note: Note)
    ensures { GoesOn (λ n. n.seat) note.seat notes.old.list.items notes.new.list.items }
{
    let _ = notes.list.push(note);
}

/// Takes a turn, and writes a note with this number in it.
pub fn turn<R: Wait>(rt: &R, lock: &TurnLock<Notes>, pass: Pass<Notes>, number: u64) -> Pass<Notes>
    requires { IsPassOf lock.now pass }
    ensures lock { IsPassOf lock.now result }
    ensures pass { IsSamePass pass result }
{
    let seat = pass.seat();
    let mut held = lock.take(rt, pass);
    write(held.value(), Note { seat, number });
    lock.give(held)
}
