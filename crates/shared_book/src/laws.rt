//! The laws of a shared history, each a function with an empty body.
ghost use Rattle.std.specs.Prelude.{◌≡◌, ℕ, List, [], ◌∷◌, ◌++◌, Some, None, IsTrue};
ghost use Rattle.rollout_rules.specs.History.{History, with_entries};
ghost use Rattle.rollout_rules.specs.Legal.{is_legal};
ghost use Rattle.rollout_rules.specs.declared.op.Op.{Op};
ghost use Rattle.rollout_rules.specs.declared.op.Entry.{Entry};
ghost use Rattle.shared_book.specs.Batches.{is_batch};
ghost use Rattle.shared_book.specs.Histories.{Opening, history_of, all_entries, written};
ghost use Rattle.shared_book.specs.Knows.{next_note};
ghost use Rattle.shared_book.specs.Legal.{is_legal_shared, may_note, may_say};
ghost use Rattle.shared_book.specs.Replies.{batch_at, first_alien, list_says, wake_reply, wake_says};
ghost use Rattle.shared_book.specs.Notes.{notes_of, first_stop, is_stopped, calls_by};
ghost use Rattle.shared_book.specs.declared.note.What.{What};
ghost use Rattle.shared_book.specs.declared.note.What.TheVariants as what;
ghost use Rattle.shared_book.specs.declared.note.Written.{Written};
ghost use Rattle.shared_book.specs.declared.call_reply.Halt.{Halt};
ghost use Rattle.shared_book.specs.declared.call_reply.Wake.{Wake};

/// A legal history stays legal with one note more, of a seat's next call, exactly where that note may say
/// what it says.
pub fn a_history_goes_on_by_one_note()
    ensures goes_on { (o : Opening) (ws : List Written) (seat : ℕ) (said : What) (es : List Entry)
        → IsTrue (is_legal_shared o ws)
        → IsTrue (may_say o ws seat es said)
        → IsTrue (is_legal_shared o (ws ++ next_note seat ws said es ∷ [])) }
    ensures only { (o : Opening) (ws : List Written) (w : Written)
        → IsTrue (is_legal_shared o (ws ++ w ∷ []))
        → IsTrue (may_note o ws w) }
{}

/// What a legal history begins with is legal.
pub fn every_prefix_is_legal()
    ensures { (o : Opening) (ws later : List Written)
        → IsTrue (is_legal_shared o (ws ++ later))
        → IsTrue (is_legal_shared o ws) }
{}

/// The list of all entries is legal, and so it is with the batch of which an append failed.
pub fn the_list_is_legal()
    ensures list { (o : Opening) (ws : List Written)
        → IsTrue (is_legal_shared o ws)
        → IsTrue (is_legal o.rollout.problem o.rollout.plan (history_of o ws)) }
    ensures lost { (o : Opening) (ws : List Written) (w : Written)
        → IsTrue (is_legal_shared o (ws ++ w ∷ []))
        → w.note.what ≡ what.Disk
        → IsTrue (is_legal o.rollout.problem o.rollout.plan
        (with_entries (history_of o ws) w.entries)) }
{}

/// The first stop never changes.
pub fn a_first_stop_stays()
    ensures { (ws later : List Written) (halt : Halt)
        → first_stop ws ≡ Some halt
        → first_stop (ws ++ later) ≡ Some halt }
{}

/// The number of a note is how many notes its seat had before.
pub fn seats_number_their_calls()
    ensures { (o : Opening) (ws later : List Written) (w : Written)
        → IsTrue (is_legal_shared o (ws ++ w ∷ later))
        → w.note.call ≡ calls_by w.note.seat ws }
{}

/// After a stop, as a Disk, no entry is added.
pub fn nothing_is_added_behind_a_stop()
    ensures { (o : Opening) (ws later : List Written)
        → IsTrue (is_legal_shared o (ws ++ later))
        → IsTrue (is_stopped ws)
        → history_of o (ws ++ later) ≡ history_of o ws }
{}

/// The notes and all entries in a row tell which entries came with which note.
pub fn the_pair_tells_all()
    ensures { (o : Opening) (ws : List Written)
        → IsTrue (is_legal_shared o ws)
        → written (all_entries ws) (notes_of ws) ≡ ws }
{}

/// What a call is told at a history may be noted after it: that it was listed or stopped, the first alien
/// answer of a round, and what waiting ended with.
pub fn what_is_told_may_be_noted()
    ensures list { (o : Opening) (ws : List Written) (seat : ℕ)
        → IsTrue (may_say o ws seat [] (list_says ws)) }
    ensures alien { (o : Opening) (ws : List Written) (seat : ℕ) (answers : List Op) (said : What)
        → first_stop ws ≡ None
        → first_alien o.rollout.problem (history_of o ws) answers ≡ Some said
        → IsTrue (may_say o ws seat [] said) }
    ensures wake { (o : Opening) (ws : List Written) (seat : ℕ) (switches : List ℕ) (woken : Wake)
        (said : What)
        → wake_reply o ws switches ≡ Some woken
        → wake_says woken ≡ Some said
        → IsTrue (may_say o ws seat [] said) }
{}

/// The batch of a round has the form of one, whatever the policy and whichever answers have come.
pub fn a_round_makes_a_batch()
    ensures { (o : Opening) (h : History) (answers : List Op)
        → IsTrue (is_batch o.rollout.problem o.rollout.plan o.policy h (batch_at o h answers)) }
{}
