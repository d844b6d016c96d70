ghost use Rattle.std.specs.Prelude.{◌≡◌, ℕ, ◌<◌, ◌≤◌, ◌↔◌, List, ◌∷◌, length, slice_index, slice_index_or, IsTrue, IsFalse};
ghost use Rattle.rollout_rules.specs.Wan.{Problem, Plan};
ghost use Rattle.rollout_rules.specs.Network.{IsNetwork};
ghost use Rattle.rollout_rules.specs.Valid.{is_valid_plan};
ghost use Rattle.rollout_rules.specs.Items.{item_count, item_at};
ghost use Rattle.rollout_rules.specs.Operations.{content_after};
ghost use Rattle.rollout_rules.specs.History.{with_entries};
ghost use Rattle.rollout_rules.specs.Legal.{is_sound, is_finished};
ghost use Rattle.rollout_rules.specs.Agent.{pair_of, first_pair, is_at_most};
ghost use Rattle.rollout_rules.specs.World.{World, no_op, first_world, are_first_pairs, new_world, held_of, now, is_writing, may_come_late, received, after_event, after_events};
ghost use Rattle.rollout_rules.specs.declared.held.Held.{Held};
ghost use Rattle.rollout_rules.specs.declared.event.Event.{Event};
ghost use Rattle.rollout_rules.specs.declared.event.Event.TheVariants as event;
ghost use Rattle.rollout_laws.specs.SafeWorlds.{MayBeHeldAtFirst, EveryWorldIsSafe, IsBeginningOf, HasFrom, with_answer, IsApplied, applied, pairs_held, IsHeldAtTarget, NetworkAtTarget};

/// At first each item is held with its pair, of this migration or of an earlier one, and with the
/// content of the start.
pub fn a_rollout_begins_with_what_is_held()
    ensures may { (p : Problem) (start : List ℕ) (migration : ℕ) (first : List Held) → MayBeHeldAtFirst p start migration first ↔ IsTrue (are_first_pairs p start migration first) }
    ensures pairs { (p : Problem) (plan : Plan) (start : List ℕ) (migration : ℕ) (first : List Held) (n : ℕ) → n < item_count p → (held_of (first_world p plan start migration first) n).held ≡ slice_index_or first n first_pair }
    ensures contents { (p : Problem) (plan : Plan) (start : List ℕ) (migration : ℕ) (first : List Held) → IsTrue (are_first_pairs p start migration first) → (n : ℕ) → n < item_count p → (held_of (first_world p plan start migration first) n).content ≡ content_after p plan (item_at p n) (slice_index start n) }
{}

/// Whatever the controller, the network and the switches do, whatever late commands come, and whenever
/// the controller crashes: from every sound start, and whichever pairs were held at first, each world on
/// the way is safe. So it is in a network's first migration, where nothing was ever applied.
pub fn safe_over_every_schedule()
    ensures safe { (p : Problem) (plan : Plan) (start : List ℕ) (migration : ℕ) (first : List Held) (es : List Event) → IsNetwork p → IsTrue (is_valid_plan p plan) → IsTrue (is_sound p plan start) → IsTrue (are_first_pairs p start migration first) → EveryWorldIsSafe p plan (first_world p plan start migration first) es }
    ensures new { (p : Problem) (plan : Plan) (es : List Event) → IsNetwork p → IsTrue (is_valid_plan p plan) → EveryWorldIsSafe p plan (new_world p plan) es }
{}

/// Whatever the schedule, a command that comes to its switch is applied and answered where it is past
/// what was applied, and it is then the next; any other is answered with what is held, and nothing else
/// changes. So each operation is applied once, in order.
pub fn a_command_is_applied_once()
    ensures next { (p : Problem) (plan : Plan) (start : List ℕ) (migration : ℕ) (first : List Held) (es : List Event) → IsTrue (is_sound p plan start) → IsTrue (are_first_pairs p start migration first) → let w = after_events p plan (first_world p plan start migration first) es in (n : ℕ) → n < length w.sent → let op = slice_index_or w.sent n no_op in now w op.item < op.number → IsApplied p plan w op (after_event p plan w (event.Deliver n)) }
    ensures repeated { (p : Problem) (plan : Plan) (start : List ℕ) (migration : ℕ) (first : List Held) (es : List Event) → IsTrue (is_sound p plan start) → IsTrue (are_first_pairs p start migration first) → let w = after_events p plan (first_world p plan start migration first) es in (n : ℕ) → n < length w.sent → let op = slice_index_or w.sent n no_op in op.number ≤ now w op.item → after_event p plan w (event.Deliver n) ≡ with_answer w op.item }
{}

/// Whatever the schedule, a command of an earlier migration, at most the pair that its item's switch held
/// at first, may come, and is answered with what is held; nothing else changes, whatever content it has.
/// No other command comes late.
pub fn late_commands_change_nothing()
    ensures received { (p : Problem) (plan : Plan) (start : List ℕ) (migration : ℕ) (first : List Held) (es : List Event) → IsTrue (is_sound p plan start) → IsTrue (are_first_pairs p start migration first) → let w = after_events p plan (first_world p plan start migration first) es in (n : ℕ) (late : Held) (content : List ℕ) → IsTrue (may_come_late p w n late) → received w n late content ≡ with_answer w n }
    ensures comes { (p : Problem) (plan : Plan) (start : List ℕ) (migration : ℕ) (first : List Held) (es : List Event) → IsTrue (is_sound p plan start) → IsTrue (are_first_pairs p start migration first) → let w = after_events p plan (first_world p plan start migration first) es in (n m j : ℕ) → n < item_count p → m < migration → IsTrue (is_at_most (pair_of m j) (slice_index_or first n first_pair)) → after_event p plan w (event.Old n m j) ≡ with_answer w n }
    ensures other { (p : Problem) (plan : Plan) (w : World) (n m j : ℕ) → (n < item_count p → m < w.migration → IsFalse (is_at_most (pair_of m j) (slice_index_or w.first n first_pair))) → after_event p plan w (event.Old n m j) ≡ w }
{}

/// Whatever the schedule, once every operation is settled each item is held at its target, and so the
/// network is at the new split.
pub fn finished_holds_targets()
    ensures held { (p : Problem) (plan : Plan) (start : List ℕ) (migration : ℕ) (first : List Held) (es : List Event) → IsTrue (is_sound p plan start) → IsTrue (are_first_pairs p start migration first) → let w = after_events p plan (first_world p plan start migration first) es in IsTrue (is_finished p plan w.durable) → (n : ℕ) → n < item_count p → IsHeldAtTarget p plan (first_world p plan start migration first) w n }
    ensures network { (p : Problem) (plan : Plan) (start : List ℕ) (migration : ℕ) (first : List Held) (es : List Event) → IsNetwork p → IsTrue (is_valid_plan p plan) → IsTrue (is_sound p plan start) → IsTrue (are_first_pairs p start migration first) → let w = after_events p plan (first_world p plan start migration first) es in IsTrue (is_finished p plan w.durable) → NetworkAtTarget p plan w }
{}

/// Whatever the schedule, nothing durable is lost, nor anything of a batch whose write has ended; the
/// migration, the start and the pairs held at first stay as they were.
pub fn durable_stays()
    ensures stays { (p : Problem) (plan : Plan) (w : World) (es : List Event) → IsBeginningOf w.durable (after_events p plan w es).durable }
    ensures ended { (p : Problem) (plan : Plan) (w : World) (es : List Event) → IsTrue (is_writing w) → IsBeginningOf (with_entries w.durable w.writing) (after_events p plan w (event.EndWrite ∷ es)).durable }
    ensures from { (p : Problem) (plan : Plan) (w : World) (es : List Event) → HasFrom w (after_events p plan w es) }
{}

/// Whatever the schedule, no switch goes back: the pair that it holds of an item is at most the one that
/// it holds later.
pub fn held_never_falls()
    ensures { (p : Problem) (plan : Plan) (w : World) (es : List Event) (n : ℕ) → IsTrue (is_at_most (held_of w n).held (held_of (after_events p plan w es) n).held) }
{}

/// Whatever the schedule, what the switches hold is a sound start from which the same migration may begin
/// again and then holds the same; and their pairs may be held at first in every later migration.
pub fn a_rollout_may_begin_again()
    ensures sound { (p : Problem) (plan : Plan) (start : List ℕ) (migration : ℕ) (first : List Held) (es : List Event) → IsTrue (is_sound p plan start) → IsTrue (are_first_pairs p start migration first) → let w = after_events p plan (first_world p plan start migration first) es in IsNetwork p → IsTrue (is_sound p plan (applied p w)) }
    ensures pairs { (p : Problem) (plan : Plan) (start : List ℕ) (migration : ℕ) (first : List Held) (es : List Event) → IsTrue (is_sound p plan start) → IsTrue (are_first_pairs p start migration first) → let w = after_events p plan (first_world p plan start migration first) es in IsTrue (are_first_pairs p (applied p w) migration (pairs_held w)) }
    ensures held { (p : Problem) (plan : Plan) (start : List ℕ) (migration : ℕ) (first : List Held) (es : List Event) → IsTrue (is_sound p plan start) → IsTrue (are_first_pairs p start migration first) → let w = after_events p plan (first_world p plan start migration first) es in (first_world p plan (applied p w) migration (pairs_held w)).held ≡ w.held }
    ensures later { (p : Problem) (plan : Plan) (start : List ℕ) (migration : ℕ) (first : List Held) (es : List Event) → IsTrue (is_sound p plan start) → IsTrue (are_first_pairs p start migration first) → let w = after_events p plan (first_world p plan start migration first) es in (next_start : List ℕ) (later : ℕ) → migration < later → IsTrue (are_first_pairs p next_start later (pairs_held w)) }
{}
