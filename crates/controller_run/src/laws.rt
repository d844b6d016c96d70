//! What rounds between the ports come to, one after the other.
ghost use Rattle.std.specs.Prelude.{◌≡◌, ℕ, [], ◌++◌, All, List, Option, Some, IsTrue};
ghost use Rattle.std.specs.List.{Contains};
ghost use Rattle.wan_edge.specs.Frames.{Answer, Command};
ghost use Rattle.port_session.specs.Sessions.{SessionView};
ghost use Rattle.switch_ports.specs.Outboxes.{home_at};
ghost use Rattle.switch_ports.specs.Stories.{IsTold, LastStoryEach, StoryEach};
ghost use Rattle.controller_run.specs.Exchanging.{Exchanges, StopsInHear, StopsInOffer};
ghost use Rattle.shared_book.specs.declared.note.Cause.{Cause};

use wan_edge::Port;

/// Before the first round each port's story has no command; a round adds its commands to all stories; and
/// one that stops in the middle is the last.
pub fn rounds_make_a_story<T: Port>()
    ensures begins { (migration : ℕ) (homes : List (Option ℕ)) (ports : List (SessionView T))
        → All (λ t. IsTrue t.stream.live) ports
        → StoryEach T.told migration homes [] ports ports }
    ensures goes_on { (migration : ℕ) (homes : List (Option ℕ)) (earlier commands : List Command)
        (told : List Answer) (first before now : List (SessionView T))
        → StoryEach T.told migration homes earlier first before
        → Exchanges T.told migration homes before commands told now
        → StoryEach T.told migration homes (earlier ++ commands) first now }
    ensures ends_in_offer { (migration : ℕ) (homes : List (Option ℕ))
        (earlier commands : List Command) (why : Cause) (first before now : List (SessionView T))
        → StoryEach T.told migration homes earlier first before
        → StopsInOffer T.told migration homes why before commands now
        → LastStoryEach T.told migration homes (earlier ++ commands) first now }
    ensures ends_in_hear { (migration : ℕ) (homes : List (Option ℕ))
        (earlier commands : List Command) (why : Cause) (first before now : List (SessionView T))
        → StoryEach T.told migration homes earlier first before
        → StopsInHear T.told migration homes why before commands now
        → LastStoryEach T.told migration homes (earlier ++ commands) first now }
{}

/// Each answer that a round tells was told by the port of its item's home, and stays told in later rounds.
pub fn answers_are_told_by_their_homes<T: Port>()
    ensures home { (migration : ℕ) (homes : List (Option ℕ)) (earlier commands : List Command)
        (told : List Answer) (answer : Answer) (first before now : List (SessionView T))
        → StoryEach T.told migration homes earlier first before
        → Exchanges T.told migration homes before commands told now
        → Contains told answer
        → (switch : ℕ)
        × (home_at homes answer.item ≡ Some switch)
        × IsTold T.told migration switch answer first now }
    ensures stays { (migration : ℕ) (homes : List (Option ℕ)) (switch : ℕ) (commands : List Command)
        (told : List Answer) (answer : Answer) (first before now : List (SessionView T))
        → IsTold T.told migration switch answer first before
        → Exchanges T.told migration homes before commands told now
        → IsTold T.told migration switch answer first now }
{}
