//! The laws of a problem that goes on from where a rollout stands.
ghost use Rattle.std.specs.Prelude.{◌≡◌, ℕ, ◌<◌, List, Ok, length, IsTrue};
ghost use Rattle.std.specs.Int.{◌∣◌};
ghost use Rattle.rollout_rules.specs.Wan.{Problem, Plan, tunnel_at, crosses, new_rate};
ghost use Rattle.rollout_rules.specs.Network.{IsNetwork};
ghost use Rattle.rollout_rules.specs.Valid.{is_valid_plan};
ghost use Rattle.rollout_rules.specs.Items.{item_at, item_count};
ghost use Rattle.rollout_rules.specs.Operations.{content_after};
ghost use Rattle.rollout_rules.specs.History.{History, Places, no_start, places_of, settled};
ghost use Rattle.rollout_rules.specs.Legal.{is_legal};
ghost use Rattle.rollout_rules.specs.World.{World, are_first_pairs, first_world, held_of};
ghost use Rattle.rollout_rules.specs.declared.event.Event.{Event};
ghost use Rattle.rollout_rules.specs.declared.held.Held.{Held};
ghost use Rattle.rollout_laws.specs.SafeWorlds.{EveryWorldIsSafe, IsSafeWorld};
ghost use Rattle.rollout_laws.specs.Waiting.{NothingFlies};
ghost use Rattle.retarget_plan.specs.Aiming.{IsAimed};
ghost use Rattle.retarget_plan.specs.Units.{divisor_below};
ghost use Rattle.retarget_plan.specs.Standing.{BeginsWithSettled, GoesOnFrom, OldSideFits};
ghost use Rattle.retarget_plan.specs.Shedding.{OnlyGivesWay, one_step, shed};
ghost use Rattle.retarget_plan.specs.declared.aim.Aim.TheVariants.{Shed};

/// The greatest common divisor of several numbers divides each, and so does no greater one.
pub fn a_unit_is_the_largest_in_which_all_are_whole()
    ensures top { (n top : ℕ) (f : ℕ → ℕ) → divisor_below n top f ∣ top }
    ensures each { (n top : ℕ) (f : ℕ → ℕ) (k : ℕ) → k < n → divisor_below n top f ∣ f k }
    ensures greatest { (n top : ℕ) (f : ℕ → ℕ) (d : ℕ)
        → d ∣ top
        → ((k : ℕ) → k < n → d ∣ f k)
        → d ∣ divisor_below n top f }
{}

/// The old side of a problem that goes on from where a rollout stands is never refused: no link is over its
/// capacity there, and no table is too full.
pub fn what_is_settled_fits_as_an_old_split()
    ensures { (p : Problem) (plan : Plan) (h : History) (divisor : ℕ) (q : Problem)
        → IsNetwork p
        → IsTrue (is_valid_plan p plan)
        → IsTrue (is_legal p plan h)
        → GoesOnFrom p plan (places_of p h) divisor q
        → OldSideFits q }
{}

/// Every valid plan of such a problem begins with what is settled, rate by rate and entry by entry.
pub fn a_plan_begins_with_what_is_settled()
    ensures { (p : Problem) (plan : Plan) (at : Places) (divisor : ℕ) (q : Problem) (on : Plan)
        → GoesOnFrom p plan at divisor q
        → IsTrue (is_valid_plan q on)
        → BeginsWithSettled p plan at divisor on }
{}

/// In a safe world in which nothing flies each switch holds of its item the content of what is settled, and no other.
pub fn what_is_settled_is_what_the_switches_hold()
    ensures { (p : Problem) (plan : Plan) (w : World) (n : ℕ)
        → IsSafeWorld p plan w
        → NothingFlies p w.durable
        → n < item_count p
        → (held_of w n).content
        ≡ content_after p plan (item_at p n) (settled w.durable n) }
{}

/// Whatever the controller, the network and the switches do, each world of its rollout is safe, which begins with
/// pairs of earlier migrations and with nothing settled.
pub fn a_rollout_may_go_on_elsewhere()
    ensures { (q : Problem) (on : Plan) (migration : ℕ) (first : List Held) (es : List Event)
        → IsNetwork q
        → IsTrue (is_valid_plan q on)
        → IsTrue (are_first_pairs q (no_start q) migration first)
        → EveryWorldIsSafe q on (first_world q on (no_start q) migration first) es }
{}

/// Where each tunnel keeps its rate or gives some of it up, and none comes or goes, one step leads there. So all
/// that crosses a link can be shed in one step, and then nothing crosses it.
pub fn shedding_takes_one_step()
    ensures gives_way { (q : Problem)
        → IsNetwork q
        → OnlyGivesWay q
        → OldSideFits q
        → IsTrue (is_valid_plan q (one_step q)) }
    ensures planned { (q : Problem) (l : ℕ)
        → IsNetwork q
        → OldSideFits q
        → IsTrue (is_valid_plan (shed q l) (one_step (shed q l))) }
    ensures network { (q : Problem) (l : ℕ) → IsNetwork q → IsNetwork (shed q l) }
    ensures empty { (q : Problem) (l t : ℕ)
        → t < length q.tunnels
        → IsTrue (crosses q t l)
        → new_rate (tunnel_at (shed q l) t) ≡ 0 }
{}

/// The problem that sheds a link from where a rollout stands has a plan of one step, where its old side fits, and
/// then nothing crosses the link.
pub fn shedding_from_a_stand_takes_one_step()
    ensures planned { (p : Problem) (plan : Plan) (h : History) (link : ℕ) (q : Problem)
        → IsAimed p plan h (Shed link) (Ok q)
        → IsNetwork q
        → OldSideFits q
        → IsTrue (is_valid_plan q (one_step q)) }
    ensures empty { (p : Problem) (plan : Plan) (h : History) (link : ℕ) (q : Problem) (t : ℕ)
        → IsAimed p plan h (Shed link) (Ok q)
        → t < length q.tunnels
        → IsTrue (crosses q t link)
        → new_rate (tunnel_at q t) ≡ 0 }
{}
