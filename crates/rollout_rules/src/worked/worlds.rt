//! Worlds: what events do, and which are passed over.
ghost use Rattle.std.specs.Prelude.{◌≡◌, Bool, true, false, [], ◌∷◌, ◌++◌};
ghost use Rattle.rollout_rules.specs.World.{new_world, first_world, are_first_pairs, now, held_of, in_flight, is_answered, all_answered, answers_of, allows, after_event, after_events};
ghost use Rattle.rollout_rules.specs.Agent.{pair_of};
ghost use Rattle.rollout_rules.specs.Named.{one, late, ahead, one_plan, late_plan, ahead_plan};
ghost use Rattle.rollout_rules.specs.Worked.{fresh, given_of, op_of, begin_of, done_of, world_after, begun_first, sent_first, applied_first, answered_first, stopped_while_writing, second_world};

use crate::event::Event;

/// The begin is durable though the controller stopped while it wrote, so its command is sent once it is up again.
pub fn a_rollout_goes_on_after_a_crash()
    ensures durable { (world_after one one_plan stopped_while_writing).durable.entries
        ≡ begin_of 0 1 ∷ done_of 0 1 ∷ [] }
    ensures held { held_of (world_after one one_plan stopped_while_writing) 0
        ≡ record { held = pair_of 0 1; content = 1 ∷ 3 ∷ [] } }
{}

/// The controller is up, and each switch carries the old split.
pub fn at_first_nothing_is_written_or_applied()
    ensures durable { (new_world one one_plan).durable.entries ≡ [] }
    ensures up { (new_world one one_plan).up ≡ true }
    ensures held { held_of (new_world one one_plan) 0 ≡ record { held = pair_of 0 0; content = 4 ∷ 0 ∷ [] } }
{}

/// A crash keeps the first entries of the batch being written, and loses the others and what was handed over.
pub fn a_crash_keeps_a_part_of_the_batch()
    ensures lost { (world_after one one_plan (Event.Write (begin_of 0 1 ∷ []) ∷ Event.Crash 0 ∷ [])).durable.entries ≡ [] }
    ensures kept { (world_after one one_plan (Event.Write (begin_of 0 1 ∷ []) ∷ Event.Crash 1 ∷ [])).durable.entries ≡ begin_of 0 1 ∷ [] }
    ensures in_part { (world_after ahead ahead_plan (Event.Write (begin_of 0 1 ∷ begin_of 1 1 ∷ begin_of 2 1 ∷ []) ∷ Event.Crash 2 ∷ [])).durable.entries ≡ begin_of 0 1 ∷ begin_of 1 1 ∷ [] }
    ensures down { (world_after one one_plan (Event.Crash 0 ∷ [])).up ≡ false }
    ensures no_batch { (world_after one one_plan (Event.Write (begin_of 0 1 ∷ []) ∷ Event.Crash 1 ∷ [])).writing ≡ [] }
    ensures handed { (world_after one one_plan (answered_first ++ Event.Crash 0 ∷ [])).handed ≡ [] }
    ensures given { (world_after one one_plan (answered_first ++ Event.Crash 0 ∷ [])).given ≡ given_of 0 0 1 ∷ [] }
{}

/// The world stays as it was.
pub fn an_event_that_is_not_allowed_is_passed_over()
    ensures { after_event one one_plan (new_world one one_plan) Event.Restart ≡ new_world one one_plan }
{}

/// Neither while the controller is down, nor over a batch being written; a batch isn't empty and stays legal.
pub fn a_batch_is_written_one_at_a_time()
    ensures allowed { allows one one_plan (new_world one one_plan) (Event.Write (begin_of 0 1 ∷ [])) ≡ true }
    ensures down { allows one one_plan (world_after one one_plan (Event.Crash 0 ∷ [])) (Event.Write (begin_of 0 1 ∷ [])) ≡ false }
    ensures writing { allows one one_plan (world_after one one_plan (Event.Write (begin_of 0 1 ∷ []) ∷ [])) (Event.Write (begin_of 0 1 ∷ [])) ≡ false }
    ensures empty { allows one one_plan (new_world one one_plan) (Event.Write []) ≡ false }
    ensures illegal { allows one one_plan (new_world one one_plan) (Event.Write (begin_of 0 2 ∷ [])) ≡ false }
{}

/// An operation ends once an answer that covers it was handed over since the controller started.
pub fn an_end_is_written_once_it_is_answered()
    ensures allowed { allows one one_plan (world_after one one_plan answered_first) (Event.Write (done_of 0 1 ∷ [])) ≡ true }
    ensures unanswered { allows one one_plan (world_after one one_plan begun_first) (Event.Write (done_of 0 1 ∷ [])) ≡ false }
    ensures not_handed { allows one one_plan (world_after one one_plan applied_first) (Event.Write (done_of 0 1 ∷ [])) ≡ false }
    ensures handed_before_a_crash { allows one one_plan (world_after one one_plan (answered_first ++ Event.Crash 0 ∷ Event.Restart ∷ [])) (Event.Write (done_of 0 1 ∷ [])) ≡ false }
    ensures in_one_batch { allows one one_plan (new_world one one_plan) (Event.Write (begin_of 0 1 ∷ done_of 0 1 ∷ [])) ≡ false }
{}

/// By its own number or a higher one; a begin waits for no answer.
pub fn an_end_is_answered_by_its_item()
    ensures own_number { is_answered 0 (given_of 0 0 1 ∷ []) (done_of 0 1) ≡ true }
    ensures higher_number { is_answered 0 (given_of 0 0 2 ∷ []) (done_of 0 1) ≡ true }
    ensures lower_number { is_answered 0 (given_of 0 0 1 ∷ []) (done_of 0 2) ≡ false }
    ensures another_item { is_answered 0 (given_of 0 1 1 ∷ []) (done_of 0 1) ≡ false }
    ensures begin { is_answered 0 [] (begin_of 0 1) ≡ true }
    ensures whole_batch { all_answered 0 (given_of 0 0 1 ∷ []) (done_of 0 1 ∷ begin_of 0 2 ∷ []) ≡ true }
    ensures cut_batch { all_answered 0 (given_of 0 0 1 ∷ []) (done_of 0 1 ∷ done_of 1 1 ∷ []) ≡ false }
{}

/// Before that it may be lost.
pub fn a_batch_is_durable_once_it_was_being_written()
    ensures allowed { allows one one_plan (world_after one one_plan (Event.Write (begin_of 0 1 ∷ []) ∷ [])) Event.EndWrite ≡ true }
    ensures not_yet { (world_after one one_plan (Event.Write (begin_of 0 1 ∷ []) ∷ [])).durable.entries ≡ [] }
    ensures then { (world_after one one_plan begun_first).durable.entries ≡ begin_of 0 1 ∷ [] }
    ensures none { allows one one_plan (new_world one one_plan) Event.EndWrite ≡ false }
    ensures cut { allows one one_plan (world_after one one_plan (Event.Write (begin_of 0 1 ∷ []) ∷ Event.Crash 0 ∷ [])) Event.EndWrite ≡ false }
{}

/// The begin is durable before its command is sent; a command may be sent again.
pub fn commands_in_flight_are_sent()
    ensures in_flight { in_flight late (fresh (begin_of 0 1 ∷ done_of 0 1 ∷ begin_of 0 2 ∷ [])) ≡ op_of 0 2 ∷ [] }
    ensures by_item { in_flight ahead (fresh (begin_of 2 1 ∷ begin_of 0 1 ∷ [])) ≡ op_of 0 1 ∷ op_of 2 1 ∷ [] }
    ensures second { (world_after ahead ahead_plan (Event.Write (begin_of 2 1 ∷ begin_of 0 1 ∷ []) ∷ Event.EndWrite ∷ Event.Send 1 ∷ [])).sent ≡ op_of 2 1 ∷ [] }
    ensures again { (world_after one one_plan (sent_first ++ Event.Send 0 ∷ [])).sent ≡ op_of 0 1 ∷ op_of 0 1 ∷ [] }
    ensures writing { allows ahead ahead_plan (world_after ahead ahead_plan (begun_first ++ Event.Write (begin_of 2 1 ∷ []) ∷ [])) (Event.Send 0) ≡ false }
    ensures written { allows ahead ahead_plan (world_after ahead ahead_plan begun_first) (Event.Send 0) ≡ true }
    ensures too_high { allows one one_plan (world_after one one_plan begun_first) (Event.Send 1) ≡ false }
    ensures none { allows one one_plan (new_world one one_plan) (Event.Send 0) ≡ false }
    ensures down { allows one one_plan (world_after one one_plan (begun_first ++ Event.Crash 0 ∷ [])) (Event.Send 0) ≡ false }
{}

/// Only what was sent reaches a switch, though the controller be down.
pub fn sent_commands_are_delivered()
    ensures not_sent { allows one one_plan (world_after one one_plan begun_first) (Event.Deliver 0) ≡ false }
    ensures down { allows one one_plan (world_after one one_plan (sent_first ++ Event.Crash 0 ∷ [])) (Event.Deliver 0) ≡ true }
{}

/// A command that comes again after a later one changes nothing, and is answered with what is held.
pub fn an_old_command_is_answered_with_what_is_held()
    ensures given { (world_after late late_plan (answered_first
        ++ Event.Write (done_of 0 1 ∷ begin_of 0 2 ∷ []) ∷ Event.EndWrite ∷ Event.Send 0 ∷ Event.Deliver 1 ∷ Event.Deliver 0 ∷ [])).given
        ≡ given_of 0 0 1 ∷ given_of 0 0 2 ∷ given_of 0 0 2 ∷ [] }
    ensures held { held_of (world_after late late_plan (answered_first
        ++ Event.Write (done_of 0 1 ∷ begin_of 0 2 ∷ []) ∷ Event.EndWrite ∷ Event.Send 0 ∷ Event.Deliver 1 ∷ Event.Deliver 0 ∷ [])) 0
        ≡ record { held = pair_of 0 2; content = 0 ∷ 2 ∷ 0 ∷ [] } }
{}

/// Only what was given reaches the controller, and only while it is up.
pub fn given_answers_are_handed_over()
    ensures allowed { allows one one_plan (world_after one one_plan applied_first) (Event.Hand 0) ≡ true }
    ensures not_given { allows one one_plan (new_world one one_plan) (Event.Hand 0) ≡ false }
    ensures down { allows one one_plan (world_after one one_plan (applied_first ++ Event.Crash 0 ∷ [])) (Event.Hand 0) ≡ false }
{}

/// Without a batch nothing of it can be kept.
pub fn a_controller_that_is_up_may_crash()
    ensures allowed { allows one one_plan (new_world one one_plan) (Event.Crash 0) ≡ true }
    ensures down { allows one one_plan (world_after one one_plan (Event.Crash 0 ∷ [])) (Event.Crash 0) ≡ false }
    ensures past_the_batch { allows one one_plan (world_after one one_plan (Event.Write (begin_of 0 1 ∷ []) ∷ [])) (Event.Crash 2) ≡ false }
    ensures without_a_batch { allows one one_plan (new_world one one_plan) (Event.Crash 1) ≡ false }
{}

/// What was durable, sent, given and held stays.
pub fn a_controller_that_is_down_may_start_again()
    ensures allowed { allows one one_plan (world_after one one_plan (Event.Crash 0 ∷ [])) Event.Restart ≡ true }
    ensures again { (world_after one one_plan (Event.Crash 0 ∷ Event.Restart ∷ [])).up ≡ true }
    ensures durable { (world_after one one_plan (applied_first ++ Event.Crash 0 ∷ Event.Restart ∷ [])).durable.entries ≡ begin_of 0 1 ∷ [] }
    ensures sent { (world_after one one_plan (applied_first ++ Event.Crash 0 ∷ Event.Restart ∷ [])).sent ≡ op_of 0 1 ∷ [] }
    ensures given { (world_after one one_plan (applied_first ++ Event.Crash 0 ∷ Event.Restart ∷ [])).given ≡ given_of 0 0 1 ∷ [] }
    ensures held { held_of (world_after one one_plan (applied_first ++ Event.Crash 0 ∷ Event.Restart ∷ [])) 0 ≡ record { held = pair_of 0 1; content = 1 ∷ 3 ∷ [] } }
    ensures up { allows one one_plan (new_world one one_plan) Event.Restart ≡ false }
{}

/// An item begins with the start's number of this migration, or with any pair of an earlier one.
pub fn items_begin_with_their_start_or_with_an_earlier_migration()
    ensures mixed { are_first_pairs one (0 ∷ []) 2 (pair_of 1 5 ∷ pair_of 2 0 ∷ []) ≡ true }
    ensures started { are_first_pairs one (1 ∷ []) 2 (pair_of 2 1 ∷ []) ≡ true }
    ensures past_the_start { are_first_pairs one (0 ∷ []) 2 (pair_of 2 1 ∷ []) ≡ false }
    ensures behind_the_start { are_first_pairs one (1 ∷ []) 2 (pair_of 2 0 ∷ []) ≡ false }
    ensures later { are_first_pairs one (0 ∷ []) 2 (pair_of 3 0 ∷ []) ≡ false }
    ensures at { now (first_world one one_plan (1 ∷ []) 2 (pair_of 2 1 ∷ [])) 0 ≡ 1 }
    ensures at_the_start { now (first_world one one_plan (1 ∷ []) 2 (pair_of 1 5 ∷ [])) 0 ≡ 1 }
    ensures carried { (held_of (first_world one one_plan (1 ∷ []) 2 (pair_of 1 5 ∷ [])) 0).content ≡ 1 ∷ 3 ∷ [] }
{}

/// Up to the pair that the item's switch held at first; what is held stays.
pub fn late_commands_of_earlier_migrations_may_come()
    ensures held_last { allows one one_plan second_world (Event.Old 0 1 5) ≡ true }
    ensures before { allows one one_plan second_world (Event.Old 0 0 9) ≡ true }
    ensures above { allows one one_plan second_world (Event.Old 0 1 6) ≡ false }
    ensures of_this_migration { allows one one_plan second_world (Event.Old 0 2 0) ≡ false }
    ensures of_this_migration_though_held { allows one one_plan second_world (Event.Old 1 2 0) ≡ false }
    ensures another_item { allows one one_plan second_world (Event.Old 2 1 1) ≡ false }
    ensures before_this_one { allows one one_plan second_world (Event.Old 1 1 1) ≡ true }
    ensures no_item { allows one one_plan second_world (Event.Old 6 0 0) ≡ false }
    ensures held { held_of (after_event one one_plan second_world (Event.Old 0 1 5)) 0 ≡ held_of second_world 0 }
    ensures given { (after_event one one_plan second_world (Event.Old 0 1 5)).given ≡ given_of 1 0 5 ∷ [] }
{}

/// Then a late command of the one before is answered with what this one has applied.
pub fn a_migration_takes_over_what_the_one_before_left()
    ensures taken { held_of (after_events one one_plan second_world applied_first) 0 ≡ record { held = pair_of 2 1; content = 1 ∷ 3 ∷ [] } }
    ensures late { held_of (after_events one one_plan second_world (applied_first ++ Event.Old 0 1 5 ∷ [])) 0 ≡ record { held = pair_of 2 1; content = 1 ∷ 3 ∷ [] } }
    ensures given { (after_events one one_plan second_world (applied_first ++ Event.Old 0 1 5 ∷ [])).given ≡ given_of 2 0 1 ∷ given_of 2 0 1 ∷ [] }
    ensures at { now (after_events one one_plan second_world applied_first) 0 ≡ 1 }
{}

/// However high its number.
pub fn an_answer_of_an_earlier_migration_ends_nothing()
    ensures earlier { is_answered 2 (given_of 1 0 5 ∷ []) (done_of 0 1) ≡ false }
    ensures own { is_answered 2 (given_of 1 0 5 ∷ given_of 2 0 1 ∷ []) (done_of 0 1) ≡ true }
    ensures told { answers_of 2 (given_of 1 0 5 ∷ given_of 2 0 1 ∷ given_of 0 2 3 ∷ []) ≡ op_of 0 1 ∷ [] }
    ensures in_the_world { allows one one_plan (after_events one one_plan second_world (begun_first ++ Event.Old 0 1 5 ∷ Event.Hand 0 ∷ [])) (Event.Write (done_of 0 1 ∷ [])) ≡ false }
{}
