//! Worked examples of the texts.
ghost use Rattle.std.specs.Prelude.{◌≡◌, codes, [], ◌∷◌};
ghost use Rattle.rollout_rules.specs.Named.{flow_named, one, one_plan, all_installed, late, late_plan, replaced, replaced_plan, table_network, wide_network, table_plan};
ghost use Rattle.rollout_rules.specs.Items.{the_link, the_table};
ghost use Rattle.rollout_rules.specs.declared.item.Item.TheVariants as variants;
ghost use Rattle.plan_texts.specs.Explain.{explain_text, item_text, op_lines};
ghost use Rattle.plan_texts.specs.Loads.{fullest_line, load_line, loads_text};

/// A flow that leaves A B in part, for A C B: each link's load at both stages, with the larger one of each
/// tunnel's rates between.
pub fn a_plan_of_one_step()
    ensures { loads_text one one_plan
        ≡ codes
        "steps 1, scale 1\nload \"A\">\"B\" of 10: 4 (4) 1\nload \"A\">\"C\" of 10: 0 (3) 3\nload \"C\">\"B\" of 10: 0 (3) 3\nload table \"A\" of 8: 2 (2) 2\nload table \"B\" of 8: 2 (2) 2\nload table \"C\" of 8: 1 (1) 1\nfullest link: \"A\">\"B\" 4 of 10 in step 0\n" }
{}

/// One stage has no step, and so no fullest link.
pub fn a_plan_without_steps_has_no_fullest_link()
    ensures line { load_line one (all_installed 2 1 ((4 ∷ 0 ∷ []) ∷ [])) (the_link 0)
        ≡ codes "load \"A\">\"B\" of 10: 4\n" }
    ensures none { fullest_line one (all_installed 2 1 ((4 ∷ 0 ∷ []) ∷ []))
        ≡ codes "fullest link: none\n" }
{}

/// Two flows on one link: one leaves it before the other comes. Of the links that are as full the first is
/// told, and of its steps the first.
pub fn both_ends_of_a_step_are_summed()
    ensures line { load_line late late_plan (the_link 2)
        ≡ codes "load \"A\">\"L\" of 2: 0 (0) 0 (2) 2 (2) 0 (2) 2\n" }
    ensures fullest { fullest_line late late_plan
        ≡ codes "fullest link: \"A\">\"P\" 2 of 2 in step 0\n" }
{}

/// A table's entries by their widths: one of width 1 goes, and then one of width 3 comes.
pub fn tables_are_told_in_widths()
    ensures { load_line wide_network table_plan (the_table 0)
        ≡ codes "load table \"A\" of 5: 3 (3) 2 (5) 5 (5) 5\n" }
{}

/// One operation of a flow; no entry comes or goes.
pub fn one_operation_is_explained()
    ensures { explain_text one one_plan
        ≡ codes
        "items 6, operations 1, stages 1, scale 1\nitem 0: flow \"f\" at \"A\", operations 1\nitem 0 operation 1: to stage 1, rates 4 0 to 1 3, chain 1\nitem 1: entry at \"A\" of flow \"f\" tunnel 0 \"A\">\"B\", operations 0\nitem 2: entry at \"B\" of flow \"f\" tunnel 0 \"A\">\"B\", operations 0\nitem 3: entry at \"A\" of flow \"f\" tunnel 1 \"A\">\"C\">\"B\", operations 0\nitem 4: entry at \"C\" of flow \"f\" tunnel 1 \"A\">\"C\">\"B\", operations 0\nitem 5: entry at \"B\" of flow \"f\" tunnel 1 \"A\">\"C\">\"B\", operations 0\n" }
{}

/// The new tunnel comes, the flow moves once all of it is there, and the old one goes once the flow has left
/// it: chains of three, two and one.
pub fn a_tunnel_in_place_of_another_is_explained()
    ensures { explain_text replaced replaced_plan
        ≡ codes
        "items 6, operations 6, stages 3, scale 1\nitem 0: flow \"f\" at \"A\", operations 1\nitem 0 operation 1: to stage 2, rates 4 0 to 0 4, chain 2, needs item 3 at stage 1, needs item 4 at stage 1, needs item 5 at stage 1\nitem 1: entry at \"A\" of flow \"f\" tunnel 0 \"A\">\"B\", operations 1\nitem 1 operation 1: to stage 3, remove, chain 1, needs item 0 at stage 2\nitem 2: entry at \"B\" of flow \"f\" tunnel 0 \"A\">\"B\", operations 1\nitem 2 operation 1: to stage 3, remove, chain 1, needs item 0 at stage 2\nitem 3: entry at \"A\" of flow \"f\" tunnel 1 \"A\">\"C\">\"B\", operations 1\nitem 3 operation 1: to stage 1, install, chain 3\nitem 4: entry at \"C\" of flow \"f\" tunnel 1 \"A\">\"C\">\"B\", operations 1\nitem 4 operation 1: to stage 1, install, chain 3\nitem 5: entry at \"B\" of flow \"f\" tunnel 1 \"A\">\"C\">\"B\", operations 1\nitem 5 operation 1: to stage 1, install, chain 3\n" }
{}

/// Operations are numbered from 1 along the plan, and one that comes later may lead several stages on.
pub fn operations_are_numbered_along_the_plan()
    ensures first { op_lines late late_plan 0 (variants.Flow 0) 3
        ≡ codes
        "item 0 operation 1: to stage 1, rates 2 0 0 to 0 0 2, chain 3\nitem 0 operation 2: to stage 2, rates 0 0 2 to 0 2 0, chain 2\nitem 0 operation 3: to stage 3, rates 0 2 0 to 0 0 2, chain 1\n" }
    ensures second { op_lines late late_plan 1 (variants.Flow 1) 1
        ≡ codes "item 1 operation 1: to stage 4, rates 2 0 to 0 2, chain 1\n" }
{}

/// An idle tunnel goes without a need, and a flow needs only the entries that come.
pub fn needs_from_the_start_are_left_out()
    ensures flow { op_lines table_network table_plan 0 (variants.Flow 0) 1
        ≡ codes
        "item 0 operation 1: to stage 3, rates 4 0 0 to 2 0 2, chain 1, needs item 7 at stage 2, needs item 8 at stage 2, needs item 9 at stage 2\n" }
    ensures idle { op_lines table_network table_plan 4 (variants.Entry 1 0) 1
        ≡ codes "item 4 operation 1: to stage 1, remove, chain 1\n" }
    ensures coming { op_lines table_network table_plan 7 (variants.Entry 2 0) 1
        ≡ codes "item 7 operation 1: to stage 2, install, chain 2\n" }
{}

/// A flow without tunnels belongs to no switch.
pub fn a_flow_without_tunnels_has_no_home()
    ensures { item_text (record one { flows = flow_named (codes "f") 0 0 ∷ []; tunnels = [] })
        (variants.Flow 0)
        ≡ codes "flow \"f\" at none" }
{}
