//! Worked examples of command lines, where proving each is computing it.

ghost use Rattle.std.specs.Prelude.{◌≡◌, [], ◌∷◌, codes, Some, None};
ghost use Rattle.text_commands.specs.Words.{a_plan, a_check, a_rehearsal, a_script, text_asked_in, the_explanation, the_least, the_loads, the_way_back};
ghost use Rattle.text_commands.specs.Worked.{by_item, chain_first, two_policies};
ghost use Rattle.text_commands.specs.declared.words.Planner.TheVariants.{Slack, Fewest};

/// A command that makes a text is asked for by its word, and a value by its name.
pub fn lines_that_ask_for_a_text()
    ensures plan { text_asked_in two_policies (codes "plan" ∷ []) ≡ Some (a_plan Slack) }
    ensures fewest { text_asked_in two_policies
        (codes "plan" ∷ codes "--planner" ∷ codes "fewest" ∷ [])
        ≡ Some (a_plan Fewest) }
    ensures check { text_asked_in two_policies (codes "check" ∷ []) ≡ Some a_check }
    ensures loads { text_asked_in two_policies (codes "loads" ∷ []) ≡ Some the_loads }
    ensures back { text_asked_in two_policies (codes "back" ∷ []) ≡ Some the_way_back }
    ensures explain { text_asked_in two_policies (codes "explain" ∷ []) ≡ Some the_explanation }
    ensures least { text_asked_in two_policies (codes "least" ∷ []) ≡ Some the_least }
    ensures sim { text_asked_in two_policies (codes "sim" ∷ codes "--policy" ∷ codes "order" ∷ [])
        ≡ Some (a_rehearsal by_item) }
    ensures rehearse { text_asked_in two_policies
        (codes "rehearse" ∷ codes "--seed" ∷ codes "7" ∷ [])
        ≡ Some (a_script (record { seed = 7; events = 1000 }) chain_first) }
{}

/// No other command is asked for here, nor one of these with a name that it doesn't take, or twice by one name.
pub fn lines_that_ask_for_no_text()
    ensures nothing { text_asked_in two_policies [] ≡ None }
    ensures report { text_asked_in two_policies (codes "report" ∷ []) ≡ None }
    ensures trial { text_asked_in two_policies (codes "trial" ∷ []) ≡ None }
    ensures agent { text_asked_in two_policies (codes "agent" ∷ []) ≡ None }
    ensures run { text_asked_in two_policies (codes "run" ∷ []) ≡ None }
    ensures policy { text_asked_in two_policies
        (codes "plan" ∷ codes "--policy" ∷ codes "order" ∷ [])
        ≡ None }
    ensures unknown { text_asked_in two_policies
        (codes "sim" ∷ codes "--policy" ∷ codes "another" ∷ [])
        ≡ None }
    ensures twice { text_asked_in two_policies
        (codes "sim"
        ∷ codes "--policy"
        ∷ codes "order"
        ∷ codes "--policy"
        ∷ codes "order"
        ∷ [])
        ≡ None }
{}
