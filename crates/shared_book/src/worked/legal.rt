//! Which shared histories are legal: for each clause one that is and one that isn't.
ghost use Rattle.std.specs.Prelude.{◌≡◌, Bool, true, false, [], ◌∷◌};
ghost use Rattle.rollout_rules.specs.Worked.{fresh, begin_of, done_of};
ghost use Rattle.shared_book.specs.Histories.{added, written, history_of};
ghost use Rattle.shared_book.specs.Legal.{is_legal_shared};
ghost use Rattle.shared_book.specs.Notes.{notes_of, calls_by};
ghost use Rattle.shared_book.specs.Worked.{of_one, of_ahead, found, says, says_with};

use crate::note::{Cause, What};

/// The list found is legal, whatever is noted.
pub fn what_was_found_has_to_be_legal()
    ensures empty { is_legal_shared of_one [] ≡ true }
    ensures begun { is_legal_shared (found (fresh (begin_of 0 1 ∷ []))) [] ≡ true }
    ensures skipped { is_legal_shared (found (fresh (begin_of 0 2 ∷ []))) [] ≡ false }
{}

/// A round adds the release of the list so far, and no other entries.
pub fn a_round_adds_its_batch()
    ensures release { is_legal_shared of_one
        (says_with 0 0 (What.Turned 0 1) (begin_of 0 1 ∷ []) ∷ [])
        ≡ true }
    ensures dropped { is_legal_shared of_one (says_with 0 0 (What.Turned 0 1) [] ∷ []) ≡ false }
    ensures less_than_the_release { is_legal_shared of_one (says_with 0 0 (What.Turned 0 0) [] ∷ [])
        ≡ false }
    ensures not_the_release { is_legal_shared of_one
        (says_with 0 0 (What.Turned 0 1) (begin_of 0 2 ∷ []) ∷ [])
        ≡ false }
    ensures nothing_to_do { is_legal_shared (found (fresh (begin_of 0 1 ∷ [])))
        (says_with 0 0 (What.Turned 0 0) [] ∷ [])
        ≡ true }
{}

/// The counts are those of the batch.
pub fn a_round_counts_its_batch()
    ensures ends { is_legal_shared (found (fresh (begin_of 0 1 ∷ [])))
        (says_with 0 0 (What.Turned 1 0) (done_of 0 1 ∷ []) ∷ [])
        ≡ true }
    ensures too_few { is_legal_shared (found (fresh (begin_of 0 1 ∷ [])))
        (says_with 0 0 (What.Turned 0 0) (done_of 0 1 ∷ []) ∷ [])
        ≡ false }
    ensures other_kind { is_legal_shared (found (fresh (begin_of 0 1 ∷ [])))
        (says_with 0 0 (What.Turned 0 1) (done_of 0 1 ∷ []) ∷ [])
        ≡ false }
    ensures too_many { is_legal_shared of_one
        (says_with 0 0 (What.Turned 0 2) (begin_of 0 1 ∷ []) ∷ [])
        ≡ false }
{}

/// Dones come first and by item, each of what is in flight, and what is held back isn't begun.
pub fn a_batch_ends_by_item_and_then_releases()
    ensures by_item { is_legal_shared of_ahead
        (says_with 0 0 (What.Turned 0 3) (begin_of 0 1 ∷ begin_of 1 1 ∷ begin_of 2 1 ∷ [])
        ∷ says_with 0 1 (What.Turned 2 0) (done_of 0 1 ∷ done_of 2 1 ∷ [])
        ∷ [])
        ≡ true }
    ensures turned_round { is_legal_shared of_ahead
        (says_with 0 0 (What.Turned 0 3) (begin_of 0 1 ∷ begin_of 1 1 ∷ begin_of 2 1 ∷ [])
        ∷ says_with 0 1 (What.Turned 2 0) (done_of 2 1 ∷ done_of 0 1 ∷ [])
        ∷ [])
        ≡ false }
    ensures not_in_flight { is_legal_shared of_one
        (says_with 0 0 (What.Turned 1 1) (done_of 0 1 ∷ begin_of 0 1 ∷ []) ∷ [])
        ≡ false }
    ensures held_back { is_legal_shared of_ahead
        (says_with 0 0 (What.Turned 0 3) (begin_of 0 1 ∷ begin_of 1 1 ∷ begin_of 2 1 ∷ [])
        ∷ says_with 0 1 (What.Turned 1 1) (done_of 2 1 ∷ begin_of 2 2 ∷ [])
        ∷ [])
        ≡ false }
{}

/// Notes of other kinds bring no entries.
pub fn entries_come_with_rounds_alone()
    ensures none { is_legal_shared of_one (says 0 0 What.Listed ∷ []) ≡ true }
    ensures some { is_legal_shared of_one (says_with 0 0 What.Listed (begin_of 0 1 ∷ []) ∷ [])
        ≡ false }
    ensures with_a_stop { is_legal_shared of_one
        (says_with 0 0 (What.Stop Cause.Memory) (begin_of 0 1 ∷ []) ∷ [])
        ≡ false }
{}

/// A Disk has the batch of which the append failed, which would have been legal, and adds nothing.
pub fn a_failed_append_has_its_batch()
    ensures batch { is_legal_shared of_one (says_with 0 0 What.Disk (begin_of 0 1 ∷ []) ∷ [])
        ≡ true }
    ensures another { is_legal_shared of_one (says_with 0 0 What.Disk (begin_of 0 2 ∷ []) ∷ [])
        ≡ false }
    ensures adds_nothing { added (says_with 0 0 What.Disk (begin_of 0 1 ∷ []) ∷ []) ≡ [] }
    ensures adds_its_batch { added (says_with 0 0 (What.Turned 0 1) (begin_of 0 1 ∷ []) ∷ [])
        ≡ begin_of 0 1 ∷ [] }
{}

/// An Alien tells of an item that doesn't exist, or of a number above what was begun, and how many were.
pub fn an_alien_is_above_what_was_begun()
    ensures above { is_legal_shared (found (fresh (begin_of 0 1 ∷ [])))
        (says 0 0 (What.Alien 0 2 1) ∷ [])
        ≡ true }
    ensures no_item { is_legal_shared of_one (says 0 0 (What.Alien 17 0 0) ∷ []) ≡ true }
    ensures begun { is_legal_shared (found (fresh (begin_of 0 1 ∷ [])))
        (says 0 0 (What.Alien 0 1 1) ∷ [])
        ≡ false }
    ensures other_count { is_legal_shared (found (fresh (begin_of 0 1 ∷ [])))
        (says 0 0 (What.Alien 0 2 0) ∷ [])
        ≡ false }
{}

/// Work while something is in flight, Finished once all is settled, and Held where neither is so.
pub fn waiting_ends_in_one_of_three()
    ensures work { is_legal_shared (found (fresh (begin_of 0 1 ∷ []))) (says 0 0 What.Work ∷ [])
        ≡ true }
    ensures no_work { is_legal_shared of_one (says 0 0 What.Work ∷ []) ≡ false }
    ensures finished { is_legal_shared (found (fresh (begin_of 0 1 ∷ done_of 0 1 ∷ [])))
        (says 0 0 What.Finished ∷ [])
        ≡ true }
    ensures in_flight { is_legal_shared (found (fresh (begin_of 0 1 ∷ [])))
        (says 0 0 What.Finished ∷ [])
        ≡ false }
    ensures not_finished { is_legal_shared of_one (says 0 0 What.Finished ∷ []) ≡ false }
    ensures held { is_legal_shared of_one (says 0 0 What.Held ∷ []) ≡ true }
    ensures not_held { is_legal_shared (found (fresh (begin_of 0 1 ∷ []))) (says 0 0 What.Held ∷ [])
        ≡ false }
    ensures past_the_end { is_legal_shared (found (fresh (begin_of 0 1 ∷ done_of 0 1 ∷ [])))
        (says 0 0 What.Held ∷ [])
        ≡ false }
{}

/// Each seat numbers its own calls from 0 on, whoever calls in between.
pub fn a_seat_numbers_its_calls()
    ensures two_seats { is_legal_shared of_one
        (says 0 0 What.Listed ∷ says 1 0 What.Listed ∷ says 0 1 What.Listed ∷ [])
        ≡ true }
    ensures not_raised { is_legal_shared of_one (says 0 0 What.Listed ∷ says 0 0 What.Listed ∷ [])
        ≡ false }
    ensures left_out { is_legal_shared of_one (says 0 0 What.Listed ∷ says 0 2 What.Listed ∷ [])
        ≡ false }
    ensures not_from_0 { is_legal_shared of_one (says 0 1 What.Listed ∷ []) ≡ false }
    ensures counted { calls_by 1
        (says 0 0 What.Listed ∷ says 1 0 What.Listed ∷ says 1 1 What.Stopped ∷ [])
        ≡ 2 }
{}

/// The entries in a row are those of each note, by its counts, and the rest is of a failed append.
pub fn notes_tell_which_entries_are_theirs()
    ensures { written (begin_of 0 1 ∷ begin_of 1 1 ∷ done_of 0 1 ∷ begin_of 0 2 ∷ done_of 1 1 ∷ [])
        (notes_of (says 0 0 (What.Turned 0 2)
        ∷ says 0 1 What.Listed
        ∷ says 0 2 (What.Turned 1 1)
        ∷ says 1 0 What.Disk
        ∷ says 0 3 What.Stopped
        ∷ []))
        ≡ says_with 0 0 (What.Turned 0 2) (begin_of 0 1 ∷ begin_of 1 1 ∷ [])
        ∷ says 0 1 What.Listed
        ∷ says_with 0 2 (What.Turned 1 1) (done_of 0 1 ∷ begin_of 0 2 ∷ [])
        ∷ says_with 1 0 What.Disk (done_of 1 1 ∷ [])
        ∷ says 0 3 What.Stopped
        ∷ [] }
{}

/// The list is what was found, and then the segments.
pub fn the_list_goes_on_from_what_was_found()
    ensures { history_of (found (fresh (begin_of 0 1 ∷ [])))
        (says 0 0 What.Listed ∷ says_with 0 1 (What.Turned 1 0) (done_of 0 1 ∷ []) ∷ [])
        ≡ fresh (begin_of 0 1 ∷ done_of 0 1 ∷ []) }
{}
