ghost use Rattle.std.specs.Prelude.{◌≡◌, ℕ, ◌<◌, ◌≤◌, max, false, IfOk, length, replicate, slice_index, slice_set, if◌then◌else◌};
ghost use Rattle.rollout_rules.specs.Wan as wan;
ghost use Rattle.rollout_rules.specs.Items.{item_count, number_of};
ghost use Rattle.rollout_rules.specs.declared.item.Item.TheVariants as item;
ghost use Rattle.rollout_report.specs.Peaks.{either_there, front};
ghost use Rattle.rollout_report.specs.Counts.{AreCountsOf};
ghost use Rattle.rollout_report.specs.Fills.{AreTallies, AreFillsAt, either_at, marked};

use crate::checked::checked_plan_is_valid;
use crate::course::Course;
use crate::history::History;
use lists::Memory;
use rollout_rules::Item;
use std::alloc::Global;
use std::marker::Model;
use wan_model::{CheckedPlan, item_count};

/// Which entries are there, settled or next, what these take of each table, and the most that was taken
/// of it.
#[derive(Drop)]
pub(crate) struct Fills {
    marks: Vec<bool>,
    sums: Vec<u128>,
    peaks: Vec<u128>,
}

impl Model for Fills {
    ghost use Rattle.rollout_report.specs.Fills.{TableFills};

    ghost Value = { TableFills };

    ghost view = { λ f. record {
      marks = f.marks.items;
      sums = f.sums.items;
      peaks = f.peaks.items;
    } };
}

impl Fills {
    /// The tables at the start of a history.
    pub(crate) fn new(
        alloc: Global,
        plan: &CheckedPlan,
        history: &History<'_>,
        course: &Course,
    ) -> Result<Fills, Memory>
        requires own { course.now.rollout ≡ plan.now }
        requires counts { AreCountsOf plan.now.problem (front history.now 0) course.now.counts }
        ensures { IfOk result
            (λ fills. AreFillsAt plan.now.problem plan.now.plan history.now 0 fills) }
    {
        let switches = plan.problem().switches().len();
        let mut marks = vec![in alloc; false; course.len()]?;
        let mut sums = vec![in alloc; 0u128; switches]?;
        let mut peaks = vec![in alloc; 0u128; switches]?;
        start(plan, history, course, &mut marks, &mut sums, &mut peaks);
        Ok(Fills { marks, sums, peaks })
    }

    /// Marks an entry where it is there at either of two stages, and raises the peak of its table.
    pub(crate) fn take(
        &mut self,
        plan: &CheckedPlan,
        number: usize,
        tunnel: usize,
        hop: usize,
        here: usize,
        next: usize,
    )
        requires tunnel { tunnel < length plan.now.problem.tunnels }
        requires hop { hop < wan.hops plan.now.problem tunnel }
        requires number { number ≡ number_of plan.now.problem (item.Entry tunnel hop) }
        requires here { here ≤ wan.last_stage plan.now.plan }
        requires next { next ≤ wan.last_stage plan.now.plan }
        requires tallies { AreTallies plan.now.problem self.old.marks self.old.sums }
        requires peaks { length self.old.peaks ≡ length plan.now.problem.switches }
        ensures tallies { AreTallies plan.now.problem self.new.marks self.new.sums }
        ensures marks { self.new.marks
            ≡ slice_set self.old.marks number (either_at plan.now.plan here next tunnel) }
        ensures sums { (w : ℕ)
            → (wan.switch_of plan.now.problem tunnel hop ≡ w → ⊥)
            → slice_index self.new.sums w ≡ slice_index self.old.sums w }
        ensures peaks { self.new.peaks
            ≡ slice_set self.old.peaks (wan.switch_of plan.now.problem tunnel hop)
            (max (slice_index self.old.peaks (wan.switch_of plan.now.problem tunnel hop))
            (slice_index self.new.sums (wan.switch_of plan.now.problem tunnel hop))) }
    {
        let mark = plan.mark(here, tunnel) || plan.mark(next, tunnel);
        set_mark(
            plan,
            &mut self.marks,
            &mut self.sums,
            number,
            tunnel,
            hop,
            mark,
        );
        let switch = plan.switch_of(tunnel, hop);
        self.peaks[switch] = self.peaks[switch].max(self.sums[switch]);
    }

    /// The peaks.
    pub(crate) fn into_peaks(self) -> Vec<u128>
        ensures { result.items ≡ self.peaks }
    {
        self.peaks
    }
}

/// The tables before any entry: the sums are the peaks.
fn start(
    plan: &CheckedPlan,
    history: &History<'_>,
    course: &Course,
    marks: &mut [bool],
    sums: &mut [u128],
    peaks: &mut [u128],
)
    requires own { course.now.rollout ≡ plan.now }
    requires counts { AreCountsOf plan.now.problem (front history.now 0) course.now.counts }
    requires marks { marks.old ≡ replicate (item_count plan.now.problem) false }
    requires sums { sums.old ≡ replicate (length plan.now.problem.switches) 0 }
    requires peaks { length peaks.old ≡ length plan.now.problem.switches }
    ensures { AreFillsAt plan.now.problem plan.now.plan history.now 0
        (record { marks = marks.new; sums = sums.new; peaks = peaks.new }) }
{
    first_marks(plan, history, course, marks, sums);
    peaks.copy_from_slice(sums);
}

/// The marks and the sums of tables before any entry.
fn first_marks(
    plan: &CheckedPlan,
    history: &History<'_>,
    course: &Course,
    marks: &mut [bool],
    sums: &mut [u128],
)
    requires own { course.now.rollout ≡ plan.now }
    requires counts { AreCountsOf plan.now.problem (front history.now 0) course.now.counts }
    requires tallies { AreTallies plan.now.problem marks.old sums.old }
    ensures tallies { AreTallies plan.now.problem marks.new sums.new }
    ensures marks { (t n : ℕ)
        → t < length plan.now.problem.tunnels
        → n < wan.hops plan.now.problem t
        → marked plan.now.problem marks.new t n
        ≡ either_there plan.now.problem plan.now.plan (front history.now 0) t n }
{
    for number in 0..item_count(plan.problem()) {
        if let Item::Entry { tunnel, hop } = course.item(number) {
            let (place, tunnel) = (number as usize, tunnel as usize);
            let mark = plan.mark(course.here(number), tunnel);
            set_mark(plan, marks, sums, place, tunnel, hop as usize, mark);
        }
    }
}

/// Marks an entry, or takes its mark away, and counts its width in its table.
fn set_mark(
    plan: &CheckedPlan,
    marks: &mut [bool],
    sums: &mut [u128],
    number: usize,
    tunnel: usize,
    hop: usize,
    mark: bool,
)
    requires tunnel { tunnel < length plan.now.problem.tunnels }
    requires hop { hop < wan.hops plan.now.problem tunnel }
    requires number { number ≡ number_of plan.now.problem (item.Entry tunnel hop) }
    requires tallies { AreTallies plan.now.problem marks.old sums.old }
    ensures marks { marks.new ≡ slice_set marks.old number mark }
    ensures tallies { AreTallies plan.now.problem marks.new sums.new }
    ensures others { (w : ℕ)
        → (wan.switch_of plan.now.problem tunnel hop ≡ w → ⊥)
        → slice_index sums.new w ≡ slice_index sums.old w }
{
    checked_plan_is_valid(plan);
    let switch = plan.switch_of(tunnel, hop);
    let width = plan.width(tunnel);
    let was = amount_taken(marks[number], width);
    sums[switch] = sums[switch] - was + amount_taken(mark, width);
    marks[number] = mark;
}

/// What an entry of a width takes, where it is there.
fn amount_taken(mark: bool, width: u32) -> u128
    ensures { result ≡ (if mark then width else 0) }
{
    if mark { u128::from(width) } else { 0 }
}
