//! What the rounds of a worker come to in the end, drawn from the row of rounds that its clause is.
ghost use Rattle.std.specs.Prelude.{◌≡◌, ◌≢◌, ℕ, [], ◌∷◌, ◌++◌, All, List, Option, Some, IsTrue};
ghost use Rattle.std.specs.List.{Contains};
ghost use Rattle.rollout_rules.specs.Wan.{Problem};
ghost use Rattle.rollout_rules.specs.History.{History};
ghost use Rattle.rollout_rules.specs.declared.op.Entry.{Entry};
ghost use Rattle.rollout_book.specs.declared.turn.Turn.{Turn};
ghost use Rattle.wan_edge.specs.Frames.{Command};
ghost use Rattle.shared_book.specs.declared.note.Written.{Written};
ghost use Rattle.shared_book.specs.declared.call_reply.Halt.{Halt};
ghost use Rattle.shared_book.specs.declared.call_reply.Wake.{Wake};
ghost use Rattle.shared_book.specs.declared.call_reply.Wake.TheVariants as wake;
ghost use Rattle.shared_book.specs.Histories.{Opening, history_of};
ghost use Rattle.shared_book.specs.Legal.{is_legal_shared};
ghost use Rattle.shared_book.specs.Notes.{calls_by};
ghost use Rattle.shared_book.specs.Replies.{batch_at};
ghost use Rattle.shared_book.specs.Calls.{IsRoundCall};
ghost use Rattle.shared_book.specs.Homes.{home_if_any, homes_of};
ghost use Rattle.shared_book.specs.declared.reply.RoundReply.{RoundReply};
ghost use Rattle.shared_book.specs.declared.reply.RoundReply.TheVariants as round;
ghost use Rattle.switch_ports.specs.Outboxes.{home_at, own};
ghost use Rattle.controller_run.specs.Promises.{AreListed, BeginsAlone, EndNothing, IsListedIn, IsOfBegun, Promises, StopsNothing};
ghost use Rattle.controller_run.specs.Reasons.{IsReason};
ghost use Rattle.controller_run.specs.Serving.{Served};
ghost use Rattle.controller_run.specs.Working.{Standing};

use wan_edge::Port;

/// A worker that began with live ports and had stopped nothing keeps its promises.
pub fn a_worker_keeps_its_promises<T: Port>()
    ensures { (o : Opening) (seat : ℕ) (joined : List ℕ) (migration : ℕ) (homes : List (Option ℕ))
        (rounds : ℕ) (before : Standing T) (end : Wake) (now : Standing T)
        → All (λ t. IsTrue t.stream.live) before.ports
        → StopsNothing seat before.seen
        → Served T.told o (seat ∷ joined) seat migration homes rounds before end now
        → Promises T.told o seat migration homes rounds before end now }
{}

/// Each command that a seat had listed stands at the history before one of its notes, and is that of an
/// operation which the whole history begins, at home at one of the switches. Notes of others after it
/// list nothing for the seat.
pub fn listed_commands_are_begun()
    ensures listed { (o : Opening) (seat : ℕ) (switches : List ℕ) (log more : List Written)
        (listed : List Command) (rounds : ℕ) (c : Command)
        → AreListed o seat switches log more listed rounds
        → Contains listed c
        → IsListedIn o seat switches (log ++ more) c }
    ensures begun { (o : Opening) (seat : ℕ) (switches : List ℕ) (log more : List Written)
        (listed : List Command) (rounds : ℕ) (c : Command)
        → IsTrue (is_legal_shared o (log ++ more))
        → AreListed o seat switches log more listed rounds
        → Contains listed c
        → IsOfBegun o switches (history_of o (log ++ more)) c }
    ensures stays { (o : Opening) (log later : List Written) (e : Entry)
        → Contains (history_of o log).entries e
        → Contains (history_of o (log ++ later)).entries e }
    ensures others { (o : Opening) (seat : ℕ) (switches : List ℕ) (log more past : List Written)
        (listed : List Command) (rounds : ℕ)
        → All (λ w. seat ≢ w.note.seat) past
        → AreListed o seat switches log more listed rounds
        → AreListed o seat switches log (more ++ past) listed rounds }
{}

/// The batch of a round to which no answer is handed says of no operation that it is done; nor does a note
/// of the seat that a call of such a round leaves.
pub fn a_round_without_answers_ends_nothing()
    ensures batch { (o : Opening) (h : History) → EndNothing (batch_at o h []) }
    ensures call { (o : Opening) (seat : ℕ) (joined : List ℕ) (seen after : List Written)
        (reply : RoundReply)
        → IsRoundCall o (seat ∷ joined) seat seen [] reply after
        → BeginsAlone seat seen after }
{}

/// A seat has stopped nothing where it has made no call, as long as others make calls, and after a round
/// that turned.
pub fn a_seat_stops_nothing_at_first()
    ensures uncalled { (seat : ℕ) (ws : List Written)
        → calls_by seat ws ≡ 0
        → StopsNothing seat ws }
    ensures others { (seat : ℕ) (ws past : List Written)
        → StopsNothing seat ws
        → All (λ w. seat ≢ w.note.seat) past
        → StopsNothing seat (ws ++ past) }
    ensures turned { (o : Opening) (seat : ℕ) (joined : List ℕ) (seen after : List Written)
        (turn : Turn)
        → StopsNothing seat seen
        → IsRoundCall o (seat ∷ joined) seat seen [] (round.Turned turn) after
        → StopsNothing seat after }
{}

/// Where the first stop that a worker is told is its own, what it names holds.
pub fn a_worker_stops_for_a_reason<T: Port>()
    ensures { (o : Opening) (seat : ℕ) (joined : List ℕ) (migration : ℕ) (homes : List (Option ℕ))
        (rounds : ℕ) (before : Standing T) (halt : Halt) (now : Standing T)
        → All (λ t. IsTrue t.stream.live) before.ports
        → StopsNothing seat before.seen
        → Served T.told o (seat ∷ joined) seat migration homes rounds before (wake.Stopped halt) now
        → halt.seat ≡ seat
        → IsReason T.told o seat migration homes rounds before halt.cause now }
{}

/// Where the homes are those of the problem, what is a switch's own among commands is at home there, and so
/// is what an answer's home is said to be.
pub fn own_commands_are_at_home()
    ensures commands { (p : Problem) (homes : List (Option ℕ)) (switch : ℕ)
        (commands : List Command) (c : Command)
        → homes ≡ homes_of p
        → Contains (own homes switch commands) c
        → Contains commands c × (home_if_any p c.item ≡ Some switch) }
    ensures items { (p : Problem) (homes : List (Option ℕ)) (switch n : ℕ)
        → homes ≡ homes_of p
        → home_at homes n ≡ Some switch
        → home_if_any p n ≡ Some switch }
{}
