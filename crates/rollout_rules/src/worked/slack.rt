//! Room to spare before a plan is made.
ghost use Rattle.std.specs.Prelude.{◌≡◌, Bool, true, false};
ghost use Rattle.rollout_rules.specs.Slack.{old_load, new_load, has_slack, has_table_room};
ghost use Rattle.rollout_rules.specs.Named.{one, pipe, swap, table_with, table_network};

/// 6 of 9 on each link leave a third and not a half.
pub fn a_swap_of_two_thirds_has_slack_a_third()
    ensures old { old_load (swap 9 6) 0 ≡ 6 }
    ensures new { new_load (swap 9 6) 1 ≡ 6 }
    ensures half { has_slack (swap 9 6) 2 ≡ false }
    ensures third { has_slack (swap 9 6) 3 ≡ true }
    ensures quarter { has_slack (swap 9 6) 4 ≡ true }
{}

/// 2 of 2 on each link leave nothing.
pub fn a_full_swap_has_no_slack()
    ensures least { has_slack (swap 2 2) 64 ≡ false }
    ensures one { has_slack one 2 ≡ true }
{}

/// 1 of 2 is a half free; the other split has to leave as much.
pub fn slack_is_asked_of_both_splits()
    ensures both { has_slack (pipe 1 1) 2 ≡ true }
    ensures old_is_full { has_slack (pipe 2 1) 2 ≡ false }
    ensures new_is_full { has_slack (pipe 1 2) 2 ≡ false }
{}

/// An idle old tunnel may leave the tables before the new one comes; one that carries traffic may not.
pub fn an_idle_tunnel_leaves_table_room()
    ensures idle { has_table_room table_network ≡ true }
    ensures carrying { has_table_room (table_with 1) ≡ false }
{}
