//! Worked examples: each function states a fact of one seed, and proving it is computing it.
ghost use Rattle.std.specs.Prelude.{◌≡◌, [], ◌∷◌};
ghost use Rattle.rollout_rules.specs.Sums.{list_below};
ghost use Rattle.case_gen.specs.Draws.{drawn, seeded};
ghost use Rattle.case_gen.specs.Cases.{case};
ghost use Rattle.case_gen.specs.Named.{five_switches, three_switches};

/// The generator's words for the seed 7.
pub fn the_first_words_of_seed_7()
    ensures first { drawn (seeded 7) 0 4294967296 ≡ 2442223337 }
    ensures second { drawn (seeded 7) 1 4294967296 ≡ 414063806 }
    ensures third { drawn (seeded 7) 2 4294967296 ≡ 2743600285 }
{}

/// Without a flow nothing is drawn, nothing is carried, and tables are empty.
pub fn three_switches_and_no_flow()
    ensures { case 4 3 0 (seeded 7) ≡ three_switches }
{}

/// One flow over two tunnels, with a quarter of each link free.
pub fn five_switches_and_one_flow()
    ensures { case 4 5 1 (seeded 7) ≡ five_switches }
{}
