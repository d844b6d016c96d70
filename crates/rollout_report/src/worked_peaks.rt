//! Worked examples of peaks: which values count, and at which moments.
ghost use Rattle.std.specs.Prelude.{◌≡◌, [], ◌∷◌};
ghost use Rattle.rollout_rules.specs.History.{started};
ghost use Rattle.rollout_rules.specs.Named.{one, late, table_network, wide_network, one_plan, late_plan, table_plan};
ghost use Rattle.rollout_rules.specs.Worked.{fresh, begin_of, done_of};
ghost use Rattle.rollout_rules.specs.Legal.{unsettled};
ghost use Rattle.rollout_report.specs.Peaks.{link_sum, table_sum, link_peak, table_peak};

/// The second tunnel has no rate at the start and 3 once the flow's operation is applied.
pub fn an_operation_in_flight_counts()
    ensures before { link_peak one one_plan (fresh []) 1 ≡ 0 }
    ensures in_flight { link_peak one one_plan (fresh (begin_of 0 1 ∷ [])) 1 ≡ 3 }
    ensures settled { link_peak one one_plan (fresh (begin_of 0 1 ∷ done_of 0 1 ∷ [])) 1 ≡ 3 }
{}

/// The first tunnel falls from 4 to 1.
pub fn a_peak_stays_when_its_sum_falls()
    ensures now { link_sum one one_plan (fresh (begin_of 0 1 ∷ done_of 0 1 ∷ [])) 0 ≡ 1 }
    ensures peak { link_peak one one_plan (fresh (begin_of 0 1 ∷ done_of 0 1 ∷ [])) 0 ≡ 4 }
{}

/// What was settled before the first entry was never begun here.
pub fn peaks_begin_at_the_start()
    ensures link { link_peak one one_plan (started (1 ∷ [])) 0 ≡ 1 }
    ensures on_the_way { link_peak late late_plan
        (record { start = 1 ∷ []; entries = begin_of 0 2 ∷ [] }) 0
        ≡ 0 }
    ensures left { unsettled late late_plan (record { start = 1 ∷ []; entries = begin_of 0 2 ∷ [] })
        ≡ 3 }
{}

/// An entry that goes and one that comes: 2 and 1 are there at the start, and then 2 and 3.
pub fn tables_are_filled_by_widths()
    ensures start { table_peak wide_network table_plan (fresh []) 0 ≡ 3 }
    ensures left { table_sum wide_network table_plan (fresh (begin_of 4 1 ∷ done_of 4 1 ∷ [])) 0
        ≡ 2 }
    ensures full { table_peak wide_network table_plan
        (fresh (begin_of 4 1 ∷ done_of 4 1 ∷ begin_of 7 1 ∷ [])) 0
        ≡ 5 }
    ensures plain { table_peak table_network table_plan
        (fresh (begin_of 4 1 ∷ done_of 4 1 ∷ begin_of 7 1 ∷ [])) 0
        ≡ 2 }
{}
