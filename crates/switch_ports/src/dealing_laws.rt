//! What is known of ports that were opened, dealt or given back.
ghost use Rattle.std.specs.Prelude.{◌≡◌, ◌==◌, ℕ, Bool, List, Option, Some, nat_eq, false};
ghost use Rattle.std.specs.List.{AllByRecursion, IsDistinct};
ghost use Rattle.rollout_rules.specs.Wan.{Plan, Problem};
ghost use Rattle.switch_ports.specs.declared.ports.Berth.{Berth};
ghost use Rattle.switch_ports.specs.Berths.{AreApart, AreLent, marked_each, switches_of, with_each};
ghost use Rattle.switch_ports.specs.Hands.{all_berths, hands};
ghost use Rattle.switch_ports.specs.Homes.{working_homes};

use wan_edge::Port;

/// No switch at which there is work stands there twice.
pub fn working_homes_are_distinct()
    ensures { (p : Problem) (plan : Plan) → IsDistinct nat_eq (working_homes p plan) }
{}

/// Marks that were not set stay as they were where they are cleared.
pub fn marks_that_were_not_set_stay()
    ensures { (marks : ℕ → Bool) (ns : List ℕ)
        → AllByRecursion (λ n. marks n ≡ false) ns
        → marked_each marks ns false ≡ marks }
{}

/// What is known of berths is known of those that were dealt.
pub fn dealt_berths_are_those_that_were_opened<T: Port>()
    ensures lent { (lent : ℕ → Bool) (n : ℕ) (berths : List (Berth T))
        → AreLent lent berths
        → AreLent lent (all_berths (hands n berths)) }
    ensures apart { (n : ℕ) (berths : List (Berth T))
        → AreApart berths
        → AreApart (all_berths (hands n berths)) }
{}

/// Whether berths are apart, and whether their ports are lent, depends on their switches alone.
pub fn ports_that_moved_are_given_back_alike<T: Port>()
    ensures apart { (before now : List (Berth T))
        → switches_of now ≡ switches_of before
        → AreApart before
        → AreApart now }
    ensures lent { (lent : ℕ → Bool) (before now : List (Berth T))
        → switches_of now ≡ switches_of before
        → AreLent lent before
        → AreLent lent now }
{}

/// Each port that is given back stands at its switch, and at others what stood there.
pub fn each_port_stands_at_its_switch<T: Port>()
    ensures own { (places : ℕ → Option T) (berths : List (Berth T))
        → AreApart berths
        → AllByRecursion (λ b. with_each places berths b.switch ≡ Some b.port) berths }
    ensures others { (places : ℕ → Option T) (berths : List (Berth T)) (n : ℕ)
        → AllByRecursion (λ b. (n == b.switch) ≡ false) berths
        → with_each places berths n ≡ places n }
{}
