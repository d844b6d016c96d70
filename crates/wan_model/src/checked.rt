ghost use Rattle.std.specs.Prelude.{◌≡◌, ◌<◌, ◌≤◌, IsTrue, length};
ghost use Rattle.rollout_rules.specs.Wan as wan;
ghost use Rattle.rollout_rules.specs.Items as items;
ghost use Rattle.rollout_rules.specs.Network.{IsNetwork};
ghost use Rattle.rollout_rules.specs.Valid.{is_valid_plan};
ghost use Rattle.rollout_rules.specs.declared.limits.TheConstants.{MOST_STAGES, MOST_TUNNELS_OF_FLOW, MOST_HOPS, LARGEST_WIDTH};

use crate::plan::Plan;
use crate::problem::Problem;
use std::marker::Model;

/// A network with a plan that is valid for it.
#[derive(Debug, Drop)]
pub struct CheckedPlan {
    problem: Problem,
    plan: Plan,
}

impl Model for CheckedPlan {
    ghost use Rattle.std.specs.Prelude.{IsTrue};
    ghost use Rattle.rollout_rules.specs.Wan as wan;
    ghost use Rattle.rollout_rules.specs.Valid.{is_valid_plan};

    ghost Value = { wan.Rollout };

    ghost view = { λ c. record { problem = c.problem; plan = c.plan } };

    ghost invariant = { λ c. IsTrue (is_valid_plan c.problem c.plan) };
}

impl CheckedPlan {
    pub fn seal(problem: Problem, plan: Plan) -> CheckedPlan
        requires { IsTrue (is_valid_plan problem plan) }
        ensures { result ≡ record { problem = problem; plan = plan } }
    {
        CheckedPlan { problem, plan }
    }

    pub fn problem(&self) -> &Problem
        ensures { result.now ≡ self.now.problem }
    {
        &self.problem
    }

    pub fn plan(&self) -> &Plan
        ensures part { result.now ≡ self.now.plan }
        ensures valid { IsTrue (is_valid_plan self.now.problem self.now.plan) }
    {
        &self.plan
    }

    /// How many steps there are: the number of the last stage.
    pub fn steps(&self) -> u32
        ensures { result ≡ wan.last_stage self.now.plan }
    {
        (self.plan.stages.as_slice().len() - 1) as u32
    }

    /// How many tunnels a flow has.
    pub fn tunnel_count(&self, flow: usize) -> u32
        requires { flow < length self.now.problem.flows }
        ensures value { result ≡ (wan.flow_at self.now.problem flow).tunnels }
        ensures few { result ≤ MOST_TUNNELS_OF_FLOW }
    {
        self.problem.tunnel_count(flow)
    }

    /// The number of a flow's j-th tunnel.
    pub fn tunnel_of(&self, flow: usize, j: u32) -> usize
        requires flow { flow < length self.now.problem.flows }
        requires tunnel { j < (wan.flow_at self.now.problem flow).tunnels }
        ensures value { result ≡ wan.tunnel_of self.now.problem flow j }
        ensures inside { result < length self.now.problem.tunnels }
        ensures own { (wan.tunnel_at self.now.problem result).flow ≡ flow }
    {
        self.problem.tunnel_of(flow, j)
    }

    /// The flow of a tunnel.
    pub fn flow_of(&self, tunnel: usize) -> usize
        requires { tunnel < length self.now.problem.tunnels }
        ensures value { result ≡ (wan.tunnel_at self.now.problem tunnel).flow }
        ensures inside { result < length self.now.problem.flows }
    {
        self.problem.flow_of(tunnel)
    }

    /// The switches on the path of a tunnel.
    pub fn path(&self, tunnel: usize) -> &[u32]
        requires { tunnel < length self.now.problem.tunnels }
        ensures list { result.now ≡ (wan.tunnel_at self.now.problem tunnel).path }
        ensures network { IsNetwork self.now.problem }
    {
        self.problem.path(tunnel)
    }

    /// How many switches stand on the path of a tunnel.
    pub fn hops(&self, tunnel: usize) -> u32
        requires { tunnel < length self.now.problem.tunnels }
        ensures value { result ≡ wan.hops self.now.problem tunnel }
        ensures least { 2 ≤ result }
        ensures most { result ≤ MOST_HOPS }
    {
        self.problem.hops(tunnel)
    }

    /// The switch at a hop of a tunnel.
    pub fn switch_of(&self, tunnel: usize, hop: usize) -> usize
        requires tunnel { tunnel < length self.now.problem.tunnels }
        requires hop { hop < wan.hops self.now.problem tunnel }
        ensures value { result ≡ wan.switch_of self.now.problem tunnel hop }
        ensures inside { result < length self.now.problem.switches }
    {
        self.problem.switch_of(tunnel, hop)
    }

    /// The links between the switches on the path of a tunnel.
    pub fn links_of(&self, tunnel: usize) -> &[u32]
        requires { tunnel < length self.now.problem.tunnels }
        ensures list { result.now ≡ (wan.tunnel_at self.now.problem tunnel).links }
        ensures network { IsNetwork self.now.problem }
    {
        self.problem.links_of(tunnel)
    }

    /// How many entries a tunnel takes in each table on its path.
    pub fn width(&self, tunnel: usize) -> u32
        requires { tunnel < length self.now.problem.tunnels }
        ensures value { result ≡ wan.width_of self.now.problem tunnel }
        ensures least { 1 ≤ result }
        ensures most { result ≤ LARGEST_WIDTH }
    {
        self.problem.width(tunnel)
    }

    /// The number of the last stage.
    pub fn last_stage(&self) -> usize
        ensures value { result ≡ wan.last_stage self.now.plan }
        ensures few { result < MOST_STAGES }
    {
        self.plan.last_stage()
    }

    /// The stage after stage `s`, or the last itself.
    pub fn next_stage(&self, s: usize) -> usize
        requires { s ≤ wan.last_stage self.now.plan }
        ensures value { result ≡ wan.next_stage self.now.plan s }
        ensures inside { result ≤ wan.last_stage self.now.plan }
    {
        self.plan.next_stage(s)
    }

    /// The rate of tunnel `t` at stage `s`, in units of 1/scale.
    pub fn rate(&self, s: usize, t: usize) -> u64
        requires stage { s ≤ wan.last_stage self.now.plan }
        requires tunnel { t < length self.now.problem.tunnels }
        ensures { result ≡ wan.rate_at self.now.plan s t }
    {
        self.plan.rate(s, t)
    }

    /// Whether tunnel `t` is installed at stage `s`.
    pub fn mark(&self, s: usize, t: usize) -> bool
        requires stage { s ≤ wan.last_stage self.now.plan }
        requires tunnel { t < length self.now.problem.tunnels }
        ensures { result ≡ wan.mark_at self.now.plan s t }
    {
        self.plan.mark(s, t)
    }

    /// The larger rate of tunnel `t` in the step from stage `s` on (SWAN's step rule).
    pub fn greater_rate(&self, s: usize, t: usize) -> u64
        requires stage { s ≤ wan.last_stage self.now.plan }
        requires tunnel { t < length self.now.problem.tunnels }
        ensures { result ≡ items.greater_rate self.now.plan s t }
    {
        self.plan.greater_rate(s, t)
    }

    /// Whether tunnel `t` is installed at either end of that step.
    pub fn either_mark(&self, s: usize, t: usize) -> bool
        requires stage { s ≤ wan.last_stage self.now.plan }
        requires tunnel { t < length self.now.problem.tunnels }
        ensures { result ≡ items.either_mark self.now.plan s t }
    {
        self.plan.either_mark(s, t)
    }
}
