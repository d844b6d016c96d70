ghost use Rattle.std.specs.Prelude.{ℕ, ◌<◌, List, IsTrue, IsFalse};
ghost use Rattle.rollout_rules.specs.Wan.{Problem, Plan};
ghost use Rattle.rollout_rules.specs.Network.{IsNetwork};
ghost use Rattle.rollout_rules.specs.Valid.{is_valid_plan};
ghost use Rattle.rollout_rules.specs.Items.{item_count};
ghost use Rattle.rollout_rules.specs.Legal.{is_sound};
ghost use Rattle.rollout_rules.specs.Agent.{is_at_most};
ghost use Rattle.rollout_rules.specs.World.{are_first_pairs, held_of};
ghost use Rattle.rollout_rules.specs.declared.held.Held.{Held};
ghost use Rattle.rollout_rules.specs.declared.event.Event.{Event};
ghost use Rattle.takeover_rules.specs.Takeovers.{first_takeover, is_fenced, is_all_fenced, after_two_event, after_two_events};
ghost use Rattle.takeover_rules.specs.declared.event.TwoEvent.{TwoEvent};
ghost use Rattle.takeover_rules.specs.declared.event.TwoEvent.TheVariants as two;
ghost use Rattle.takeover_laws.specs.SafeTakeovers.{EveryTakeoverIsSafe, WaitsForNewer, LeavesAll, EndsAtTarget};

/// Whatever both controllers do and whenever they crash, whatever the network loses, repeats or reorders,
/// and in whichever order the switches are fenced: each takeover on the way is safe. Until the last fence
/// the network is safe by the older world, and from then on by the newer one, which is one of a rollout
/// from a sound start.
pub fn a_takeover_is_safe()
    ensures { (p : Problem) (plan : Plan) (start : List ℕ) (migration : ℕ)
        (first : List Held) (es : List TwoEvent)
        → IsNetwork p → IsTrue (is_valid_plan p plan) → IsTrue (is_sound p plan start)
        → IsTrue (are_first_pairs p start migration first)
        → EveryTakeoverIsSafe p plan migration (first_takeover p plan start migration first) es }
{}

/// Whatever the schedule, from the fence of its switch on an item is held as it was then until the newer
/// world has begun, which begins the item with just that: so what a fenced switch answers is the start.
pub fn a_fenced_switch_waits()
    ensures { (p : Problem) (plan : Plan) (start : List ℕ) (migration : ℕ)
        (first : List Held) (es : List TwoEvent)
        → IsNetwork p → IsTrue (is_sound p plan start)
        → IsTrue (are_first_pairs p start migration first)
        → let t = after_two_events p plan (first_takeover p plan start migration first) es in
        IsFalse (is_all_fenced p plan t.fenced) → (n : ℕ) → n < item_count p
        → IsTrue (is_fenced p t.fenced n) → (more : List TwoEvent)
        → let u = after_two_events p plan t more in
        WaitsForNewer t.older n u.older u.newer }
{}

/// Whatever the schedule, once all is fenced no step of the older controller changes what a switch holds,
/// a fence or the newer world, whichever of its commands come.
pub fn the_older_controller_changes_nothing()
    ensures { (p : Problem) (plan : Plan) (start : List ℕ) (migration : ℕ)
        (first : List Held) (es : List TwoEvent)
        → IsNetwork p → IsTrue (is_sound p plan start)
        → IsTrue (are_first_pairs p start migration first)
        → let t = after_two_events p plan (first_takeover p plan start migration first) es in
        IsTrue (is_all_fenced p plan t.fenced) → (e : Event)
        → LeavesAll t (after_two_event p plan t (two.Old e)) }
{}

/// Whatever the schedule, no switch goes back, over the takeover too: the pair that it holds of an item is
/// at most the one that it holds later.
pub fn no_switch_goes_back()
    ensures { (p : Problem) (plan : Plan) (start : List ℕ) (migration : ℕ)
        (first : List Held) (es more : List TwoEvent)
        → IsNetwork p → IsTrue (is_sound p plan start)
        → IsTrue (are_first_pairs p start migration first)
        → let t = after_two_events p plan (first_takeover p plan start migration first) es in
        let u = after_two_events p plan t more in
        (n : ℕ) → IsTrue (is_at_most (held_of t.older n).held (held_of u.older n).held) }
{}

/// Whatever the schedule, once every operation is settled in the newer world the network is at the new
/// split.
pub fn a_taken_over_rollout_ends_at_target()
    ensures { (p : Problem) (plan : Plan) (start : List ℕ) (migration : ℕ)
        (first : List Held) (es : List TwoEvent)
        → IsNetwork p → IsTrue (is_valid_plan p plan) → IsTrue (is_sound p plan start)
        → IsTrue (are_first_pairs p start migration first)
        → let t = after_two_events p plan (first_takeover p plan start migration first) es in
        EndsAtTarget p plan t.newer }
{}
