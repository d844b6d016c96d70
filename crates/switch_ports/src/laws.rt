//! What rounds, one after the other, come to at a port.
ghost use Rattle.std.specs.Prelude.{ℕ, List, [], ◌++◌, Option, IsTrue};
ghost use Rattle.std.specs.List.{Contains};
ghost use Rattle.wan_edge.specs.Frames.{Answer, Command};
ghost use Rattle.wan_edge.specs.Ports.{GoesOn, PortTrace};
ghost use Rattle.switch_ports.specs.Hearing.{HearsOut, Listens};
ghost use Rattle.switch_ports.specs.Outboxes.{own};
ghost use Rattle.switch_ports.specs.Offering.{Offers, OffersAll};
ghost use Rattle.switch_ports.specs.Stories.{LastStory, Story, ToldAt};
ghost use Rattle.switch_ports.specs.Views.{SessionTrace};

/// A port that goes on, and goes on again, goes on.
pub fn a_port_goes_on_and_on()
    ensures { (a b c : PortTrace) → GoesOn a b → GoesOn b c → GoesOn a c }
{}

/// Before the first round a port's story has no command, and each round adds its own.
pub fn a_round_is_one_more()
    ensures begins { (migration : ℕ) (homes : List (Option ℕ)) (port : SessionTrace)
        → IsTrue port.stream.live
        → Story migration homes [] port port }
    ensures goes_on { (migration : ℕ) (homes : List (Option ℕ)) (earlier commands : List Command)
        (told : List Answer) (first before offered heard : SessionTrace)
        → Story migration homes earlier first before
        → OffersAll migration (own homes before.switch commands) before offered
        → HearsOut migration homes offered told heard
        → Story migration homes (earlier ++ commands) first heard }
{}

/// A round that ends while it offers, or while it hears, is the last.
pub fn a_round_that_ends_is_the_last()
    ensures in_offer { (migration : ℕ) (homes : List (Option ℕ)) (earlier commands : List Command)
        (first before offered : SessionTrace)
        → Story migration homes earlier first before
        → Offers migration (own homes before.switch commands) before offered
        → LastStory migration homes (earlier ++ commands) first offered }
    ensures in_hear { (migration : ℕ) (homes : List (Option ℕ)) (earlier commands : List Command)
        (first before offered heard : SessionTrace)
        → Story migration homes earlier first before
        → OffersAll migration (own homes before.switch commands) before offered
        → Listens offered heard
        → LastStory migration homes (earlier ++ commands) first heard }
{}

/// An answer that was told in a round was told since the first, and stays so in later rounds.
pub fn what_is_told_stays_told()
    ensures now { (migration : ℕ) (homes : List (Option ℕ)) (earlier commands : List Command)
        (told : List Answer) (answer : Answer) (first before offered heard : SessionTrace)
        → Story migration homes earlier first before
        → OffersAll migration commands before offered
        → HearsOut migration homes offered told heard
        → Contains told answer
        → ToldAt migration first.switch answer first heard }
    ensures later { (migration switch : ℕ) (homes : List (Option ℕ)) (commands : List Command)
        (told : List Answer) (answer : Answer) (first before offered heard : SessionTrace)
        → ToldAt migration switch answer first before
        → OffersAll migration commands before offered
        → HearsOut migration homes offered told heard
        → ToldAt migration switch answer first heard }
{}
