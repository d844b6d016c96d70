//! What each call is told.
ghost use Rattle.std.specs.Prelude.{◌≡◌, Bool, true, false, [], ◌∷◌, None, Some};
ghost use Rattle.rollout_rules.specs.Named.{one};
ghost use Rattle.rollout_rules.specs.Worked.{fresh, op_of, begin_of, done_of};
ghost use Rattle.shared_book.specs.Replies.{round_says, batch_at, list_says, list_reply, asked_at, wake_reply, wake_says, first_alien};
ghost use Rattle.shared_book.specs.Notes.{first_stop};
ghost use Rattle.shared_book.specs.Worked.{of_one, of_ahead, found, halt, says, says_with};

use crate::call_reply::{ListReply, Wake};
use crate::note::{Cause, What};

/// Its counts, or the first alien answer, or that there was a stop.
pub fn a_round_is_told_what_it_did()
    ensures release { round_says of_one [] [] ≡ What.Turned 0 1 }
    ensures batch { batch_at of_one (fresh []) [] ≡ begin_of 0 1 ∷ [] }
    ensures answered { round_says of_one (says_with 0 0 (What.Turned 0 1) (begin_of 0 1 ∷ []) ∷ [])
        (op_of 0 1 ∷ [])
        ≡ What.Turned 1 0 }
    ensures nothing_new { round_says of_one
        (says_with 0 0 (What.Turned 0 1) (begin_of 0 1 ∷ []) ∷ []) (op_of 0 0 ∷ [])
        ≡ What.Turned 0 0 }
    ensures alien { round_says of_one [] (op_of 0 1 ∷ []) ≡ What.Alien 0 1 0 }
    ensures first_of_two { first_alien one (fresh (begin_of 0 1 ∷ []))
        (op_of 0 1 ∷ op_of 0 3 ∷ op_of 17 0 ∷ [])
        ≡ Some (What.Alien 0 3 1) }
    ensures no_alien { first_alien one (fresh (begin_of 0 1 ∷ [])) (op_of 0 1 ∷ op_of 0 0 ∷ [])
        ≡ None }
    ensures stopped { round_says of_one (says 1 0 (What.Stop Cause.Memory) ∷ []) (op_of 0 1 ∷ [])
        ≡ What.Stopped }
{}

/// The operations in flight whose homes are asked for.
pub fn commands_are_listed_by_their_homes()
    ensures home { asked_at one (fresh (begin_of 0 1 ∷ [])) (0 ∷ []) ≡ op_of 0 1 ∷ [] }
    ensures another { asked_at one (fresh (begin_of 0 1 ∷ [])) (1 ∷ 2 ∷ []) ≡ [] }
    ensures not_in_flight { asked_at one (fresh []) (0 ∷ 1 ∷ 2 ∷ []) ≡ [] }
    ensures noted { list_says (says 1 0 What.Listed ∷ []) ≡ What.Listed }
    ensures stopped { list_reply (first_stop (says 1 0 (What.Stop Cause.Memory) ∷ []))
        ≡ ListReply.Stopped (halt 1 0 Cause.Memory) }
    ensures listed { list_reply (first_stop (says 1 0 What.Work ∷ [])) ≡ ListReply.Listed }
{}

/// The first operation of its switches, the end, a hold or a stop; and it waits on where others fly.
pub fn waiting_ends_with_what_there_is_to_do()
    ensures work { wake_reply (found (fresh (begin_of 0 1 ∷ []))) [] (0 ∷ [])
        ≡ Some (Wake.Work (op_of 0 1)) }
    ensures waits { wake_reply (found (fresh (begin_of 0 1 ∷ []))) [] (1 ∷ []) ≡ None }
    ensures finished { wake_reply (found (fresh (begin_of 0 1 ∷ done_of 0 1 ∷ []))) [] (0 ∷ [])
        ≡ Some Wake.Finished }
    ensures held { wake_reply of_one [] (0 ∷ []) ≡ Some Wake.Held }
    ensures stopped { wake_reply of_one (says 1 0 (What.Stop Cause.Memory) ∷ []) (0 ∷ [])
        ≡ Some (Wake.Stopped (halt 1 0 Cause.Memory)) }
    ensures noted { wake_says (Wake.Work (op_of 0 1)) ≡ Some What.Work }
    ensures not_noted { wake_says Wake.Memory ≡ None }
{}

/// Three flows leave together, and the least of them is named, whichever answers came.
pub fn the_least_operation_is_named()
    ensures all { wake_reply of_ahead
        (says_with 0 0 (What.Turned 0 3) (begin_of 0 1 ∷ begin_of 1 1 ∷ begin_of 2 1 ∷ []) ∷ [])
        (0 ∷ 1 ∷ 2 ∷ 3 ∷ [])
        ≡ Some (Wake.Work (op_of 0 1)) }
    ensures two { wake_reply of_ahead
        (says_with 0 0 (What.Turned 0 3) (begin_of 0 1 ∷ begin_of 1 1 ∷ begin_of 2 1 ∷ [])
        ∷ says_with 0 1 (What.Turned 1 0) (done_of 0 1 ∷ [])
        ∷ []) (0 ∷ 1 ∷ 2 ∷ 3 ∷ [])
        ≡ Some (Wake.Work (op_of 1 1)) }
    ensures held { wake_reply of_ahead
        (says_with 0 0 (What.Turned 0 3) (begin_of 0 1 ∷ begin_of 1 1 ∷ begin_of 2 1 ∷ [])
        ∷ says_with 0 1 (What.Turned 3 0) (done_of 0 1 ∷ done_of 1 1 ∷ done_of 2 1 ∷ [])
        ∷ []) (0 ∷ [])
        ≡ Some Wake.Held }
{}
