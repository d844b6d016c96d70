//! What stops a shared history, and what comes after.
ghost use Rattle.std.specs.Prelude.{◌≡◌, Bool, true, false, [], ◌∷◌, None, Some};
ghost use Rattle.rollout_rules.specs.Worked.{begin_of};
ghost use Rattle.shared_book.specs.Legal.{is_legal_shared};
ghost use Rattle.shared_book.specs.Notes.{first_stop, is_stopped};
ghost use Rattle.shared_book.specs.Replies.{round_says, stop_reply};
ghost use Rattle.shared_book.specs.Worked.{of_one, halt, says, says_with};

use crate::note::{Cause, What};

/// Stopped is said after a stop alone, and nothing else is but the Stop of a seat.
pub fn behind_a_stop_all_are_stopped()
    ensures stopped { is_legal_shared of_one
        (says 1 0 (What.Stop (Cause.Port 0)) ∷ says 0 0 What.Stopped ∷ [])
        ≡ true }
    ensures no_stop { is_legal_shared of_one (says 0 0 What.Stopped ∷ []) ≡ false }
    ensures goes_on { is_legal_shared of_one
        (says 1 0 (What.Stop (Cause.Port 0)) ∷ says 0 0 What.Listed ∷ [])
        ≡ false }
    ensures turns { is_legal_shared of_one
        (says 1 0 (What.Stop (Cause.Port 0))
        ∷ says_with 0 0 (What.Turned 0 1) (begin_of 0 1 ∷ [])
        ∷ [])
        ≡ false }
    ensures holds { is_legal_shared of_one
        (says 1 0 (What.Stop (Cause.Port 0)) ∷ says 0 0 What.Held ∷ [])
        ≡ false }
{}

/// An Alien and a Disk are stops, as the Stop of a seat is.
pub fn aliens_and_failed_disks_stop_all()
    ensures alien { is_legal_shared of_one
        (says 1 0 (What.Alien 0 1 0) ∷ says 0 0 What.Stopped ∷ [])
        ≡ true }
    ensures behind_an_alien { is_legal_shared of_one
        (says 1 0 (What.Alien 0 1 0) ∷ says 0 0 What.Listed ∷ [])
        ≡ false }
    ensures disk { is_legal_shared of_one
        (says_with 1 0 What.Disk (begin_of 0 1 ∷ []) ∷ says 0 0 What.Stopped ∷ [])
        ≡ true }
    ensures behind_a_disk { is_legal_shared of_one
        (says_with 1 0 What.Disk (begin_of 0 1 ∷ [])
        ∷ says_with 0 0 (What.Turned 0 1) (begin_of 0 1 ∷ [])
        ∷ [])
        ≡ false }
    ensures twice { is_legal_shared of_one
        (says 1 0 (What.Alien 0 1 0) ∷ says 0 0 (What.Alien 0 1 0) ∷ [])
        ≡ false }
{}

/// Each seat may ask once that all stop, also where another one did.
pub fn a_seat_asks_once_to_stop()
    ensures two_seats { is_legal_shared of_one
        (says 1 0 (What.Stop (Cause.Port 0)) ∷ says 0 0 (What.Stop Cause.Memory) ∷ [])
        ≡ true }
    ensures later { is_legal_shared of_one
        (says 1 0 (What.Stop (Cause.Port 0))
        ∷ says 0 0 What.Stopped
        ∷ says 0 1 (What.Stop Cause.Memory)
        ∷ [])
        ≡ true }
    ensures twice { is_legal_shared of_one
        (says 1 0 (What.Stop (Cause.Port 0)) ∷ says 1 1 (What.Stop Cause.Memory) ∷ [])
        ≡ false }
{}

/// It has the seat, the call and the cause of its note; an Alien is above what was begun.
pub fn the_first_stop_stands()
    ensures none { first_stop (says 0 0 What.Listed
        ∷ says_with 0 1 (What.Turned 0 1) (begin_of 0 1 ∷ [])
        ∷ [])
        ≡ None }
    ensures stop { first_stop (says 0 0 What.Listed
        ∷ says 1 3 (What.Stop (Cause.Port 0))
        ∷ says 0 1 (What.Stop Cause.Memory)
        ∷ [])
        ≡ Some (halt 1 3 (Cause.Port 0)) }
    ensures alien { first_stop (says 0 0 (What.Alien 0 2 1)
        ∷ says 1 0 (What.Stop (Cause.Port 0))
        ∷ [])
        ≡ Some (halt 0 0 (Cause.Above 0 2 1)) }
    ensures disk { first_stop (says 2 5 What.Disk ∷ says 1 0 What.Stopped ∷ [])
        ≡ Some (halt 2 5 Cause.Disk) }
    ensures stopped_stops_nothing { is_stopped (says 0 0 What.Stopped ∷ []) ≡ false }
{}

/// The first seat makes a round, the second lists commands and stops for a port; the next round of the
/// first is told so.
pub fn a_stop_reaches_the_other_seat()
    ensures legal { is_legal_shared of_one
        (says_with 0 0 (What.Turned 0 1) (begin_of 0 1 ∷ [])
        ∷ says 1 0 What.Listed
        ∷ says 1 1 (What.Stop (Cause.Port 0))
        ∷ says 0 1 What.Stopped
        ∷ [])
        ≡ true }
    ensures round { round_says of_one
        (says_with 0 0 (What.Turned 0 1) (begin_of 0 1 ∷ [])
        ∷ says 1 0 What.Listed
        ∷ says 1 1 (What.Stop (Cause.Port 0))
        ∷ []) []
        ≡ What.Stopped }
    ensures first { first_stop (says_with 0 0 (What.Turned 0 1) (begin_of 0 1 ∷ [])
        ∷ says 1 0 What.Listed
        ∷ says 1 1 (What.Stop (Cause.Port 0))
        ∷ [])
        ≡ Some (halt 1 1 (Cause.Port 0)) }
    ensures stop { stop_reply (says_with 0 0 (What.Turned 0 1) (begin_of 0 1 ∷ [])
        ∷ says 1 0 What.Listed
        ∷ []) 1 (Cause.Port 0)
        ≡ halt 1 1 (Cause.Port 0) }
    ensures later_stop { stop_reply (says 1 0 (What.Stop (Cause.Port 0)) ∷ []) 0 Cause.Memory
        ≡ halt 1 0 (Cause.Port 0) }
{}
