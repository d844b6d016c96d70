//! Worked examples: each function states the text of a small trial as an independent reference gives it, and
//! proving it is computing it.
ghost use Rattle.std.specs.Prelude.{◌≡◌, codes};
ghost use Rattle.case_gen.specs.Cases.{after_case};
ghost use Rattle.case_gen.specs.Draws.{seeded};
ghost use Rattle.case_gen.specs.Named.{five_switches, three_switches};
ghost use Rattle.sim_run.specs.Named.{as_they_come, direct_plan, still_plan, trial_shape};
ghost use Rattle.sim_run.specs.TrialText.{trial_text};

/// Without a flow nothing flies, so most events are skipped, and there is nothing to drain.
pub fn a_trial_without_flows()
    ensures { trial_text three_switches still_plan 0 as_they_come (trial_shape 3 0 12)
        (after_case 0 (seeded 7))
        ≡ codes
        "trial: switches 3, links 6, flows 0, tunnels 0, k 4, seed 7\nplan: steps 0, rate steps 0, scale 1\nevents: 12, skipped 9, drain 0\noperations: 0, entries 0\nfullest link: none\nfinished\n" }
{}

/// One flow that moves in one step: of its links the first is as full as the others, and is told.
pub fn a_trial_of_one_flow()
    ensures { trial_text five_switches direct_plan 1 as_they_come (trial_shape 5 1 12)
        (after_case 1 (seeded 7))
        ≡ codes
        "trial: switches 5, links 10, flows 1, tunnels 2, k 4, seed 7\nplan: steps 1, rate steps 1, scale 1\nevents: 12, skipped 6, drain 1\noperations: 1, entries 2\nfullest link: \"s2\">\"s3\" 789 of 1052\nfinished\n" }
{}
