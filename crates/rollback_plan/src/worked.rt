//! Worked examples of the way back: each function states a fact of a small network, and proving it is
//! computing it.
ghost use Rattle.std.specs.Prelude.{◌≡◌, true, false, [], ◌∷◌, ◌++◌, Some, replicate};
ghost use Rattle.rollout_rules.specs.Valid.{is_valid_plan};
ghost use Rattle.rollout_rules.specs.History.{started};
ghost use Rattle.rollout_rules.specs.Legal.{is_sound};
ghost use Rattle.rollout_rules.specs.Release.{release};
ghost use Rattle.rollout_rules.specs.Named.{one, ahead, late, table_network, wide_network, replaced, one_plan, ahead_plan, late_plan, table_plan, replaced_plan, tunnel_along, all_installed, stage_with};
ghost use Rattle.rollout_rules.specs.Worked.{fresh, begin_of, done_of, op_of};
ghost use Rattle.rollback_plan.specs.Turning.{back_problem, back_plan};
ghost use Rattle.rollback_plan.specs.Turns.{comes_to, may_turn, turn_start};
ghost use Rattle.rollback_plan.specs.Undoing.{goes_back, may_go_back, without};
ghost use Rattle.rollback_plan.specs.Passing.{passing, passing_plan};
ghost use Rattle.rollback_plan.specs.Levels.{stage_start, back_start, leads_to, ceiling, is_levelled, levelling};

/// The first network's way back: 1 and 3 become 4 and 0.
pub fn a_way_back_exchanges_the_splits()
    ensures network { back_problem one
        ≡ record one {
          tunnels = tunnel_along 0 (0 ∷ 1 ∷ []) (0 ∷ []) (Some 1) (Some 4)
              ∷ tunnel_along 0 (0 ∷ 2 ∷ 1 ∷ []) (1 ∷ 2 ∷ []) (Some 3) (Some 0) ∷ [];
        } }
    ensures plan { back_plan one_plan ≡ all_installed 2 1 ((1 ∷ 3 ∷ []) ∷ (4 ∷ 0 ∷ []) ∷ []) }
    ensures valid { is_valid_plan (back_problem one) (back_plan one_plan) ≡ true }
    ensures not_there { is_valid_plan one (back_plan one_plan) ≡ false }
    ensures not_turned { is_valid_plan (back_problem one) one_plan ≡ false }
{}

/// An entry that was installed is removed on the way back, once its flow has left it.
pub fn entries_come_and_go_the_other_way_round()
    ensures plan { back_plan replaced_plan
        ≡ record {
          scale = 1;
          stages = stage_with (0 ∷ 4 ∷ []) (false ∷ true ∷ [])
              ∷ stage_with (0 ∷ 4 ∷ []) (true ∷ true ∷ [])
              ∷ stage_with (4 ∷ 0 ∷ []) (true ∷ true ∷ [])
              ∷ stage_with (4 ∷ 0 ∷ []) (true ∷ false ∷ []) ∷ [];
        } }
    ensures of_replaced { is_valid_plan (back_problem replaced) (back_plan replaced_plan) ≡ true }
    ensures of_table { is_valid_plan (back_problem table_network) (back_plan table_plan) ≡ true }
    ensures of_wide { is_valid_plan (back_problem wide_network) (back_plan table_plan) ≡ true }
    ensures of_late { is_valid_plan (back_problem late) (back_plan late_plan) ≡ true }
{}

/// It is the greatest stage to which an operation leads that is begun, in flight or settled.
pub fn a_ceiling_is_where_what_is_begun_leads()
    ensures begun { ceiling ahead ahead_plan (fresh (begin_of 0 1 ∷ [])) ≡ 1 }
    ensures settled { ceiling ahead ahead_plan (fresh (begin_of 0 1 ∷ done_of 0 1 ∷ [])) ≡ 1 }
    ensures furthest { ceiling ahead ahead_plan
        (fresh (begin_of 0 1 ∷ begin_of 2 1 ∷ done_of 2 1 ∷ begin_of 2 2 ∷ [])) ≡ 2 }
    ensures nothing { ceiling ahead ahead_plan (fresh []) ≡ 0 }
    ensures by_change { leads_to late late_plan (fresh (begin_of 1 1 ∷ [])) 1 ≡ 4 }
{}

/// Those of the start are begun, too.
pub fn a_ceiling_counts_the_start()
    ensures alone { ceiling ahead ahead_plan (started (1 ∷ 0 ∷ 0 ∷ [])) ≡ 1 }
    ensures further { ceiling ahead ahead_plan (started (0 ∷ 0 ∷ 2 ∷ [])) ≡ 2 }
    ensures behind { ceiling ahead ahead_plan
        (record { start = 0 ∷ 0 ∷ 2 ∷ []; entries = begin_of 0 1 ∷ [] }) ≡ 2 }
{}

/// All operations to the stage are settled, and no other is begun.
pub fn a_history_is_levelled_at_one_stage()
    ensures at_first { is_levelled ahead ahead_plan (fresh []) 0 ≡ true }
    ensures one_flies { is_levelled ahead ahead_plan
        (fresh (begin_of 0 1 ∷ begin_of 1 1 ∷ done_of 1 1 ∷ begin_of 2 1 ∷ done_of 2 1 ∷ [])) 1
        ≡ false }
    ensures one_waits { is_levelled ahead ahead_plan
        (fresh (begin_of 0 1 ∷ done_of 0 1 ∷ begin_of 2 1 ∷ done_of 2 1 ∷ [])) 1 ≡ false }
    ensures levelled { is_levelled ahead ahead_plan
        (fresh (begin_of 0 1 ∷ begin_of 1 1 ∷ begin_of 2 1
        ∷ done_of 0 1 ∷ done_of 1 1 ∷ done_of 2 1 ∷ [])) 1
        ≡ true }
    ensures one_past { is_levelled ahead ahead_plan
        (fresh (begin_of 0 1 ∷ begin_of 1 1 ∷ begin_of 2 1
        ∷ done_of 0 1 ∷ done_of 1 1 ∷ done_of 2 1 ∷ begin_of 2 2 ∷ [])) 1
        ≡ false }
    ensures by_the_start { is_levelled ahead ahead_plan (started (1 ∷ 1 ∷ 1 ∷ [])) 1 ≡ true }
    ensures other_stage { is_levelled ahead ahead_plan (started (1 ∷ 1 ∷ 1 ∷ [])) 2 ≡ false }
{}

/// The policy that levels at stage 1 begins each flow's first operation, and holds its second back.
pub fn levelling_begins_what_stands_before_the_stage()
    ensures begins { release ahead ahead_plan (levelling 1) (fresh (begin_of 0 1 ∷ []))
        ≡ begin_of 1 1 ∷ begin_of 2 1 ∷ [] }
    ensures held { release ahead ahead_plan (levelling 1) (started (1 ∷ 1 ∷ 1 ∷ [])) ≡ [] }
    ensures nothing { release ahead ahead_plan (levelling 0) (fresh []) ≡ [] }
{}

/// From stage 1 of two the way back has one operation of each flow after it, and one before it.
pub fn a_way_back_begins_where_the_stage_left_it()
    ensures middle { back_start ahead ahead_plan 1 ≡ (1 ∷ 1 ∷ 1 ∷ []) ++ replicate 18 0 }
    ensures from_the_end { back_start ahead ahead_plan 2 ≡ replicate 21 0 }
    ensures from_the_start { back_start ahead ahead_plan 0 ≡ (2 ∷ 2 ∷ 2 ∷ []) ++ replicate 18 0 }
    ensures other_way { stage_start late late_plan 1 ≡ (1 ∷ 0 ∷ []) ++ replicate 15 0 }
    ensures not_mirrored { back_start late late_plan 1 ≡ (2 ∷ 1 ∷ []) ++ replicate 15 0 }
    ensures sound { is_sound (back_problem late) (back_plan late_plan)
        (back_start late late_plan 1) ≡ true }
    ensures not_sound { is_sound (back_problem late) (back_plan late_plan) (1 ∷ 0 ∷ []) ≡ false }
{}

/// The way back begins with what is left once all that was begun is settled: here with the first operations of
/// two flows, where that of the third one was begun. At a stage it comes as far as that for all, too.
pub fn a_way_back_begins_with_what_is_left()
    ensures none { turn_start passing passing_plan (fresh []) 0
        ≡ (1 ∷ 1 ∷ 1 ∷ []) ++ replicate 15 0 }
    ensures begun { turn_start passing passing_plan (fresh (begin_of 1 1 ∷ [])) 0
        ≡ (1 ∷ 0 ∷ 1 ∷ []) ++ replicate 15 0 }
    ensures settled { turn_start passing passing_plan
        (fresh (begin_of 1 1 ∷ done_of 1 1 ∷ [])) 0
        ≡ (1 ∷ 0 ∷ 1 ∷ []) ++ replicate 15 0 }
    ensures stage { turn_start passing passing_plan (fresh (begin_of 1 1 ∷ [])) 1
        ≡ (0 ∷ 0 ∷ 1 ∷ []) ++ replicate 15 0 }
    ensures past { comes_to passing passing_plan (fresh (begin_of 1 1 ∷ [])) 1 1 ≡ 1 }
    ensures up_to { comes_to passing passing_plan (fresh (begin_of 1 1 ∷ [])) 1 0 ≡ 1 }
    ensures at_the_ceiling { turn_start ahead ahead_plan (fresh (begin_of 0 1 ∷ [])) 1
        ≡ back_start ahead ahead_plan 1 }
{}

/// Where the second flow has left the link, and the third has come, going back at once would bring the second one
/// there beside both others. Levelled at stage 1, below the ceiling, the first has left it, too.
pub fn a_rollout_turns_where_its_way_back_is_sound()
    ensures valid { is_valid_plan passing passing_plan ≡ true }
    ensures at_once { may_turn passing passing_plan (fresh (begin_of 1 1 ∷ done_of 1 1 ∷ [])) 0
        ≡ true }
    ensures not_here { may_turn passing passing_plan
        (fresh (begin_of 1 1 ∷ done_of 1 1 ∷ begin_of 2 1 ∷ [])) 0
        ≡ false }
    ensures levelled { may_turn passing passing_plan
        (fresh (begin_of 1 1 ∷ done_of 1 1 ∷ begin_of 2 1 ∷ [])) 1
        ≡ true }
    ensures reached { ceiling passing passing_plan
        (fresh (begin_of 1 1 ∷ done_of 1 1 ∷ begin_of 2 1 ∷ []))
        ≡ 2 }
{}

/// What was begun after another one's Done has to be back before that may go; what was in flight together may go
/// together.
pub fn an_operation_waits_for_those_begun_behind_it()
    ensures last { may_go_back (λ n. 1)
        (begin_of 1 1 ∷ done_of 1 1 ∷ begin_of 2 1 ∷ done_of 2 1 ∷ []) (op_of 2 1)
        ≡ true }
    ensures first { may_go_back (λ n. 1)
        (begin_of 1 1 ∷ done_of 1 1 ∷ begin_of 2 1 ∷ done_of 2 1 ∷ []) (op_of 1 1)
        ≡ false }
    ensures then_first { may_go_back (without (op_of 2 1) (λ n. 1))
        (begin_of 1 1 ∷ done_of 1 1 ∷ begin_of 2 1 ∷ done_of 2 1 ∷ []) (op_of 1 1)
        ≡ true }
    ensures in_turn { goes_back (λ n. 0) (without (op_of 2 1) (λ n. 1))
        (begin_of 1 1 ∷ done_of 1 1 ∷ begin_of 2 1 ∷ done_of 2 1 ∷ [])
        ≡ true }
    ensures not_at_once { goes_back (λ n. 0) (λ n. 1)
        (begin_of 1 1 ∷ done_of 1 1 ∷ begin_of 2 1 ∷ done_of 2 1 ∷ [])
        ≡ false }
    ensures together { goes_back (λ n. 0) (λ n. 1)
        (begin_of 0 1 ∷ begin_of 1 1 ∷ done_of 0 1 ∷ done_of 1 1 ∷ [])
        ≡ true }
{}
