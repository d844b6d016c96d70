//! Worked examples of reports, in numbers.
ghost use Rattle.std.specs.Prelude.{◌≡◌, [], ◌∷◌};
ghost use Rattle.rollout_rules.specs.History.{started};
ghost use Rattle.rollout_rules.specs.Named.{one, late, wide_network, one_plan, late_plan, table_plan};
ghost use Rattle.rollout_rules.specs.Worked.{fresh, begin_of, done_of};
ghost use Rattle.rollout_report.specs.Report.{flying_of_all, operations_of_all, operations_to, settled_of_all, settled_to};

/// Its only operation is to stage 1.
pub fn a_finished_rollout_has_settled_each_stage()
    ensures operations { operations_of_all one one_plan ≡ 1 }
    ensures settled { settled_of_all one (fresh (begin_of 0 1 ∷ done_of 0 1 ∷ [])) ≡ 1 }
    ensures to_stage { operations_to one one_plan 0 ≡ 1 }
    ensures settled_to_stage { settled_to one one_plan (fresh (begin_of 0 1 ∷ done_of 0 1 ∷ [])) 0
        ≡ 1 }
{}

pub fn an_operation_in_flight_is_not_settled()
    ensures flying { flying_of_all one (fresh (begin_of 0 1 ∷ [])) ≡ 1 }
    ensures settled { settled_of_all one (fresh (begin_of 0 1 ∷ [])) ≡ 0 }
    ensures settled_to_stage { settled_to one one_plan (fresh (begin_of 0 1 ∷ [])) 0 ≡ 0 }
{}

pub fn operations_of_the_start_are_settled()
    ensures settled { settled_of_all one (started (1 ∷ [])) ≡ 1 }
    ensures settled_to_stage { settled_to one one_plan (started (1 ∷ [])) 0 ≡ 1 }
{}

/// The first flow has an operation to each of stages 1 to 3, the second one to stage 4.
pub fn stages_are_told_one_by_one()
    ensures operations { operations_of_all late late_plan ≡ 4 }
    ensures first { settled_to late late_plan
        (record { start = 1 ∷ []; entries = begin_of 0 2 ∷ [] }) 0
        ≡ 1 }
    ensures second { settled_to late late_plan
        (record { start = 1 ∷ []; entries = begin_of 0 2 ∷ [] }) 1
        ≡ 0 }
    ensures last { operations_to late late_plan 3 ≡ 1 }
{}

/// Three entries go at stage 1, three come at stage 2, and the flow moves at stage 3.
pub fn entries_are_operations_too()
    ensures operations { operations_of_all wide_network table_plan ≡ 7 }
    ensures first { operations_to wide_network table_plan 0 ≡ 3 }
    ensures third { operations_to wide_network table_plan 2 ≡ 1 }
    ensures settled { settled_to wide_network table_plan
        (fresh (begin_of 4 1 ∷ begin_of 5 1 ∷ done_of 4 1 ∷ begin_of 7 1 ∷ [])) 0
        ≡ 1 }
    ensures flying { flying_of_all wide_network
        (fresh (begin_of 4 1 ∷ begin_of 5 1 ∷ done_of 4 1 ∷ begin_of 7 1 ∷ []))
        ≡ 2 }
{}
