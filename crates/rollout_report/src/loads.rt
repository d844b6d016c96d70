ghost use Rattle.std.specs.Prelude.{◌≡◌, ℕ, ◌+◌, ◌<◌, ◌≤◌, max, IfOk, length, replicate, slice_index, slice_set};
ghost use Rattle.rollout_rules.specs.Wan as wan;
ghost use Rattle.rollout_report.specs.Peaks.{larger_rate, front};
ghost use Rattle.rollout_report.specs.Counts.{AreCountsOf};
ghost use Rattle.rollout_report.specs.Loads.{AreSums, AreLoadsAt, AreRefreshed, AreRaised};

use crate::checked::checked_plan_is_valid;
use crate::course::Course;
use crate::history::History;
use lists::Memory;
use std::alloc::Global;
use std::marker::Model;
use wan_model::CheckedPlan;

/// The larger of each tunnel's settled and next rate, what each link has to carry of these, and the
/// greatest that it has had to carry.
#[derive(Drop)]
pub(crate) struct Loads {
    rates: Vec<u64>,
    sums: Vec<u128>,
    peaks: Vec<u128>,
}

impl Model for Loads {
    ghost use Rattle.rollout_report.specs.Loads.{LinkLoads};

    ghost Value = { LinkLoads };

    ghost view = { λ l. record {
      rates = l.rates.items;
      sums = l.sums.items;
      peaks = l.peaks.items;
    } };
}

impl Loads {
    /// The loads at the start of a history.
    pub(crate) fn new(
        alloc: Global,
        plan: &CheckedPlan,
        history: &History<'_>,
        course: &Course,
    ) -> Result<Loads, Memory>
        requires own { course.now.rollout ≡ plan.now }
        requires counts { AreCountsOf plan.now.problem (front history.now 0) course.now.counts }
        ensures { IfOk result
            (λ loads. AreLoadsAt plan.now.problem plan.now.plan history.now 0 loads) }
    {
        let problem = plan.problem();
        let mut rates = vec![in alloc; 0u64; problem.tunnels().len()]?;
        let mut sums = vec![in alloc; 0u128; problem.links().len()]?;
        let mut peaks = vec![in alloc; 0u128; problem.links().len()]?;
        start(plan, history, course, &mut rates, &mut sums, &mut peaks);
        Ok(Loads { rates, sums, peaks })
    }

    /// Has the tunnels of a flow carry the larger of their rates at two stages, and raises the peaks of
    /// the links that they cross.
    pub(crate) fn take(&mut self, plan: &CheckedPlan, flow: usize, here: usize, next: usize)
        requires flow { flow < length plan.now.problem.flows }
        requires here { here ≤ wan.last_stage plan.now.plan }
        requires next { next ≤ wan.last_stage plan.now.plan }
        requires sums { AreSums plan.now.problem self.old.rates self.old.sums }
        requires peaks { length self.old.peaks ≡ length plan.now.problem.links }
        ensures sums { AreSums plan.now.problem self.new.rates self.new.sums }
        ensures rates { AreRefreshed plan.now.problem plan.now.plan flow here next self.old.rates
            self.new.rates }
        ensures peaks { AreRaised plan.now.problem flow (wan.flow_at plan.now.problem flow).tunnels
            self.new.sums self.old.peaks self.new.peaks }
    {
        refresh(plan, flow, here, next, &mut self.rates, &mut self.sums);
        raise(plan, flow, &self.sums, &mut self.peaks);
    }

    /// The peaks.
    pub(crate) fn into_peaks(self) -> Vec<u128>
        ensures { result.items ≡ self.peaks }
    {
        self.peaks
    }
}

/// The links before any entry: the sums are the peaks.
fn start(
    plan: &CheckedPlan,
    history: &History<'_>,
    course: &Course,
    rates: &mut [u64],
    sums: &mut [u128],
    peaks: &mut [u128],
)
    requires own { course.now.rollout ≡ plan.now }
    requires counts { AreCountsOf plan.now.problem (front history.now 0) course.now.counts }
    requires rates { rates.old ≡ replicate (length plan.now.problem.tunnels) 0 }
    requires sums { sums.old ≡ replicate (length plan.now.problem.links) 0 }
    requires peaks { length peaks.old ≡ length plan.now.problem.links }
    ensures { AreLoadsAt plan.now.problem plan.now.plan history.now 0
        (record { rates = rates.new; sums = sums.new; peaks = peaks.new }) }
{
    first_loads(plan, history, course, rates, sums);
    peaks.copy_from_slice(sums);
}

/// The rates and the sums of links before any entry.
fn first_loads(
    plan: &CheckedPlan,
    history: &History<'_>,
    course: &Course,
    rates: &mut [u64],
    sums: &mut [u128],
)
    requires own { course.now.rollout ≡ plan.now }
    requires counts { AreCountsOf plan.now.problem (front history.now 0) course.now.counts }
    requires sums { AreSums plan.now.problem rates.old sums.old }
    ensures sums { AreSums plan.now.problem rates.new sums.new }
    ensures rates { (t : ℕ)
        → t < length plan.now.problem.tunnels
        → slice_index rates.new t
        ≡ larger_rate plan.now.problem plan.now.plan (front history.now 0) t }
{
    for flow in 0..plan.problem().flows().len() {
        let here = course.here(flow as u32);
        refresh(plan, flow, here, here, rates, sums);
    }
}

/// Has the tunnels of a flow carry the larger of their rates at two stages.
fn refresh(
    plan: &CheckedPlan,
    flow: usize,
    here: usize,
    next: usize,
    rates: &mut [u64],
    sums: &mut [u128],
)
    requires flow { flow < length plan.now.problem.flows }
    requires here { here ≤ wan.last_stage plan.now.plan }
    requires next { next ≤ wan.last_stage plan.now.plan }
    requires sums { AreSums plan.now.problem rates.old sums.old }
    ensures sums { AreSums plan.now.problem rates.new sums.new }
    ensures rates { AreRefreshed plan.now.problem plan.now.plan flow here next rates.old rates.new }
{
    checked_plan_is_valid(plan);
    for place in 0..plan.tunnel_count(flow) {
        let tunnel = plan.tunnel_of(flow, place);
        let rate = plan.rate(here, tunnel).max(plan.rate(next, tunnel));
        set_rate(plan, rates, sums, tunnel, rate);
    }
}

/// Has a tunnel carry another rate, and adds the difference to the links that it crosses.
fn set_rate(plan: &CheckedPlan, rates: &mut [u64], sums: &mut [u128], tunnel: usize, rate: u64)
    requires tunnel { tunnel < length plan.now.problem.tunnels }
    requires sums { AreSums plan.now.problem rates.old sums.old }
    ensures rates { rates.new ≡ slice_set rates.old tunnel rate }
    ensures sums { AreSums plan.now.problem rates.new sums.new }
{
    let carried = rates[tunnel];
    let links = plan.links_of(tunnel);
    for link in links {
        let link = *link as usize;
        sums[link] = sums[link] - u128::from(carried) + u128::from(rate);
    }
    rates[tunnel] = rate;
}

/// Raises the peaks of the links that a flow's tunnels cross to their sums.
fn raise(plan: &CheckedPlan, flow: usize, sums: &[u128], peaks: &mut [u128])
    requires flow { flow < length plan.now.problem.flows }
    requires sums { length sums.now ≡ length plan.now.problem.links }
    requires peaks { length peaks.old ≡ length plan.now.problem.links }
    ensures { AreRaised plan.now.problem flow (wan.flow_at plan.now.problem flow).tunnels sums.now
        peaks.old peaks.new }
{
    for place in 0..plan.tunnel_count(flow) {
        raise_links(plan.links_of(plan.tunnel_of(flow, place)), sums, peaks);
    }
}

/// Raises the peaks of some links to their sums.
fn raise_links(links: &[u32], sums: &[u128], peaks: &mut [u128])
    requires sums { (g : ℕ) → g < length links.now → slice_index links.now g < length sums.now }
    requires peaks { length peaks.old ≡ length sums.now }
    ensures least { (l : ℕ) → slice_index peaks.old l ≤ slice_index peaks.new l }
    ensures most { (l : ℕ)
        → slice_index peaks.new l ≤ max (slice_index peaks.old l) (slice_index sums.now l) }
    ensures crossed { (g : ℕ)
        → g < length links.now
        → slice_index sums.now (slice_index links.now g)
        ≤ slice_index peaks.new (slice_index links.now g) }
{
    for link in links {
        let link = *link as usize;
        peaks[link] = peaks[link].max(sums[link]);
    }
}
