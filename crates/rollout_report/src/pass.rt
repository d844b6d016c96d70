ghost use Rattle.std.specs.Prelude.{◌≡◌, ◌+◌, ◌<◌, IfOk, length};
ghost use Rattle.rollout_report.specs.Passing.{IsPast};
ghost use Rattle.rollout_rules.specs.History as rules;
ghost use Rattle.rollout_rules.specs.Legal.{unsettled};

use crate::checked::checked_plan_is_valid;
use crate::course::Course;
use crate::fills::Fills;
use crate::history::History;
use crate::loads::Loads;
use crate::peaks::Peaks;
use dependency_graph::operations;
use lists::Memory;
use rollout_rules::Item;
use std::alloc::Global;
use std::marker::Model;
use wan_model::{CheckedPlan, item_count};

/// A history that is gone over once, for links and tables together: an entry of it changes what its own
/// item takes, and raises the peaks of these links or of this table alone.
#[derive(Drop)]
pub(crate) struct Pass {
    course: Course,
    loads: Loads,
    fills: Fills,
}

impl Model for Pass {
    ghost use Rattle.rollout_report.specs.Passing.{Passing};

    ghost Value = { Passing };

    ghost view = { λ p. record { course = p.course; loads = p.loads; fills = p.fills } };
}

impl Pass {
    /// Goes over a whole history.
    pub(crate) fn over(
        alloc: Global,
        plan: &CheckedPlan,
        history: &History<'_>,
    ) -> Result<Pass, Memory>
        ensures { IfOk result
            (λ pass. IsPast plan.now history.now (length history.now.entries) pass) }
    {
        let mut pass = Pass::start(alloc, plan, history)?;
        for place in 0..history.len() {
            pass.take(plan, history, place);
        }
        Ok(pass)
    }

    fn start(alloc: Global, plan: &CheckedPlan, history: &History<'_>) -> Result<Pass, Memory>
        ensures { IfOk result (λ pass. IsPast plan.now history.now 0 pass) }
    {
        let course = Course::new(alloc, plan, history)?;
        let loads = Loads::new(alloc, plan, history, &course)?;
        let fills = Fills::new(alloc, plan, history, &course)?;
        Ok(Pass {
            course,
            loads,
            fills,
        })
    }

    /// Takes the entry at a place.
    fn take(&mut self, plan: &CheckedPlan, history: &History<'_>, place: usize)
        requires place { place < length history.now.entries }
        requires past { IsPast plan.now history.now place self.old }
        ensures { IsPast plan.now history.now (place + 1) self.new }
    {
        checked_plan_is_valid(plan);
        self.course.take(plan, history, place);
        let number = history.item(place);
        if number as usize >= self.course.len() {
            return;
        }
        let here = self.course.here(number);
        let next = self.course.next(plan, number);
        match self.course.item(number) {
            Item::Flow(flow) => self.loads.take(plan, flow as usize, here, next),
            Item::Entry { tunnel, hop } => {
                let (tunnel, hop) = (tunnel as usize, hop as usize);
                self.fills
                    .take(plan, number as usize, tunnel, hop, here, next);
            }
        }
    }

    /// How many operations are not settled.
    pub(crate) fn left(&self, plan: &CheckedPlan) -> u64
        requires { plan.now ≡ self.now.course.rollout }
        ensures { (h : rules.History)
            → IsPast plan.now h (length h.entries) self.now
            → result ≡ unsettled plan.now.problem plan.now.plan h }
    {
        let counts = self.course.counts();
        let mut left = 0;
        for number in 0..item_count(plan.problem()) {
            let operations = u64::from(operations(plan, self.course.item(number)));
            left += operations.saturating_sub(counts.settled(number));
        }
        left
    }

    /// The peaks.
    pub(crate) fn into_peaks(self) -> Peaks
        ensures { result ≡ record { links = self.loads.peaks; tables = self.fills.peaks } }
    {
        Peaks::new(self.loads.into_peaks(), self.fills.into_peaks())
    }
}
