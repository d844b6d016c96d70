ghost use Rattle.std.specs.Prelude.{◌≡◌, ◌+◌, ◌≤◌, ℕ, true, IsOk};
ghost use Rattle.rand_pcg.specs.Lcg.{Lcg};
ghost use Rattle.rollout_rules.specs.Slack.{has_slack, has_table_room};
ghost use Rattle.plan_choose.specs.Choice.{chosen};
ghost use Rattle.case_gen.specs.Cases.{case};
ghost use Rattle.case_gen.specs.Draws.{after_draws, drawn};

/// Each case has the slack that was asked for, on every link and in both splits, and each table has room
/// for the entries of both.
pub fn a_case_has_slack_and_table_room()
    ensures slack { (k switches flows : ℕ) (draws : Lcg)
        → 2 ≤ k
        → has_slack (case k switches flows draws) k ≡ true }
    ensures room { (k switches flows : ℕ) (draws : Lcg)
        → has_table_room (case k switches flows draws) ≡ true }
{}

/// So each case has a plan: the choice refuses none.
pub fn a_case_has_a_plan()
    ensures { (k switches flows : ℕ) (draws : Lcg)
        → 2 ≤ k
        → k ≤ 64
        → IsOk (chosen (case k switches flows draws)) }
{}

/// Draws stand in a row: after some of them, a place is that many places further on.
pub fn draws_stand_in_a_row()
    ensures draws { (draws : Lcg) (count place below : ℕ)
        → drawn (after_draws draws count) place below ≡ drawn draws (count + place) below }
    ensures behind { (draws : Lcg) (count more : ℕ)
        → after_draws (after_draws draws count) more ≡ after_draws draws (count + more) }
{}
