//! Threads at one book, of which all but one sleep.

use crate::books::tables;
use crate::rows::Row;
use crate::seats::{Call, SeatReply};
use crate::sharing::{ALIKE, Task, notes_over};
use crate::threads::Part;
use rollout_book::Turn;
use shared_book::{Note, RoundReply, What};
use std::test::Fail;
use wire_frames::Answer;

// After these rounds only the entry at the second switch is in flight, which the flow at the first waits for.
fn before() -> [Row; 6] {
    [
        Row {
            seat: 0,
            call: Call::Round(None),
            told: SeatReply::Round(RoundReply::Turned(Turn {
                dones: 0,
                begins: 4,
            })),
        },
        Row {
            seat: 0,
            call: Call::Round(Some(Answer { item: 4, held: 1 })),
            told: SeatReply::Round(RoundReply::Turned(Turn {
                dones: 1,
                begins: 1,
            })),
        },
        Row {
            seat: 0,
            call: Call::Round(Some(Answer { item: 6, held: 1 })),
            told: SeatReply::Round(RoundReply::Turned(Turn {
                dones: 1,
                begins: 1,
            })),
        },
        Row {
            seat: 0,
            call: Call::Round(Some(Answer { item: 5, held: 1 })),
            told: SeatReply::Round(RoundReply::Turned(Turn {
                dones: 1,
                begins: 0,
            })),
        },
        Row {
            seat: 0,
            call: Call::Round(Some(Answer { item: 8, held: 1 })),
            told: SeatReply::Round(RoundReply::Turned(Turn {
                dones: 1,
                begins: 0,
            })),
        },
        Row {
            seat: 0,
            call: Call::Round(Some(Answer { item: 7, held: 1 })),
            told: SeatReply::Round(RoundReply::Turned(Turn {
                dones: 1,
                begins: 0,
            })),
        },
    ]
}

// What lies after so many notes.
fn behind(notes: &[Note], count: usize) -> &[Note] {
    if count <= notes.len() {
        &notes[count..]
    } else {
        notes
    }
}

// What the round that begins the work is told.
const BEGUN: Note = Note {
    seat: 0,
    call: 6,
    what: What::Turned {
        dones: 1,
        begins: 1,
    },
};

// Whether each of the other seats was told of work, once.
fn are_woken(notes: &[Note]) -> bool {
    for seat in 1..4 {
        let woken = Note {
            seat,
            call: 0,
            what: What::Work,
        };
        if !notes.contains(&woken) {
            return false;
        }
    }
    notes.len() == 3
}

// Whether a waiting thread looks ahead of the first one's round, and sleeps, or after it: it is told of the work.
#[test]
fn all_that_wait_are_woken_by_the_round_of_another(rt: HostRuntime) -> Result<(), Fail> {
    let before = before();
    let task = Task::Threads(&before, Part::Begins, Part::Waits);
    let all = notes_over(&rt, rt.alloc(), tables(), ALIKE, &[], task)?;
    let notes = behind(all.as_slice(), before.len());
    assert!(rt; notes.first() == Some(&BEGUN));
    assert!(rt; are_woken(behind(notes, 1)));
    Ok(())
}
