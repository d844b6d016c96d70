//! What is told after a trial's rollout.
ghost use Rattle.std.specs.Prelude.{◌≡◌, ◌++◌, ◌<◌, ◌^◌, ℕ, codes, length, slice_index, IfSome, IsTrue, OnOk};
ghost use Rattle.rollout_rules.specs.History as rules;
ghost use Rattle.rollout_rules.specs.Legal.{is_legal};
ghost use Rattle.rollout_rules.specs.Sums.{list_below};
ghost use Rattle.dependency_graph.specs.Graph.{op_total};
ghost use Rattle.rollout_report.specs.Peaks.{link_peak};
ghost use Rattle.sim_run.specs.TrialText as telling;

use dependency_graph::{Graph, checked_plan_is_valid};
use lists::{Memory, Text};
use rollout_report::{History, Peaks, push_last_line};
use std::alloc::Global;
use wan_model::CheckedPlan;
use wan_text::push_link;

/// Adds what is told after a rollout: how many operations and entries there are, which link came to be
/// fullest, and whether every operation is settled. The graph has followed the history.
pub(crate) fn push_outcome(
    alloc: Global,
    graph: &Graph,
    history: &History<'_>,
    text: &mut Text,
) -> Result<(), Memory>
    requires legal { IsTrue (is_legal graph.now.rollout.problem graph.now.rollout.plan
        graph.now.history) }
    requires history { history.now ≡ graph.now.history }
    ensures { OnOk result
        (text.new
        ≡ text.old
        ++ telling.outcome_lines graph.now.rollout.problem graph.now.rollout.plan
        graph.now.history) }
{
    push_counts(alloc, text, graph.op_total(), history.entries().len())?;
    text.push_str("fullest link: ")?;
    push_fullest(alloc, graph.plan(), history, text)?;
    push_last_line(alloc, text, graph.unsettled())?;
    Ok(())
}

fn push_counts(
    alloc: Global,
    text: &mut Text,
    operations: u32,
    entries: usize,
) -> Result<(), Memory>
    ensures { OnOk result (text.new ≡ text.old ++ telling.counts_line operations entries) }
{
    let line = format!(in alloc; "operations: {operations}, entries {entries}\n")?;
    text.push_str(&line)
}

/// Adds the link that came to be fullest, its peak and what it has.
fn push_fullest(
    alloc: Global,
    plan: &CheckedPlan,
    history: &History<'_>,
    text: &mut Text,
) -> Result<(), Memory>
    requires { IsTrue (is_legal plan.now.problem plan.now.plan history.now) }
    ensures { OnOk result
        (text.new
        ≡ text.old
        ++ (telling.fullest_text plan.now.problem plan.now.plan history.now
        (telling.fullest plan.now.problem plan.now.plan history.now
        (length plan.now.problem.links))
        ++ codes "\n")) }
{
    let peaks = Peaks::over(alloc, plan, history)?;
    let peaks = peaks.links();
    peaks_fit(plan, history);
    match fullest(plan, peaks) {
        Some(link) => push_fullness(alloc, text, plan, link, peaks[link]),
        None => text.push_str("none\n"),
    }
}

fn push_fullness(
    alloc: Global,
    text: &mut Text,
    plan: &CheckedPlan,
    link: usize,
    peak: u128,
) -> Result<(), Memory>
    requires { link < length plan.now.problem.links }
    ensures { OnOk result
        (text.new
        ≡ text.old
        ++ (telling.fullness_text plan.now.problem plan.now.plan link peak ++ codes "\n")) }
{
    let room = room_of(plan, link);
    push_link(alloc, text, plan.problem(), link)?;
    let share = format!(in alloc; " {peak} of {room}\n")?;
    text.push_str(&share)
}

/// A peak isn't large, since it is at most what its link has.
fn peaks_fit(plan: &CheckedPlan, history: &History<'_>)
    requires { IsTrue (is_legal plan.now.problem plan.now.plan history.now) }
    ensures { (l : ℕ)
        → l < length plan.now.problem.links
        → link_peak plan.now.problem plan.now.plan history.now l < 2 ^ 60 }
{
    checked_plan_is_valid(plan);
}

/// The link whose peak is the greatest share of what it has, by its number; the first such one. None where
/// no link has anything.
fn fullest(plan: &CheckedPlan, peaks: &[u128]) -> Option<usize>
    requires all { length peaks.now ≡ length plan.now.problem.links }
    requires small { (l : ℕ) → l < length peaks.now → slice_index peaks.now l < 2 ^ 60 }
    ensures is { (h : rules.History)
        → peaks.now
        ≡ list_below (length plan.now.problem.links) (link_peak plan.now.problem plan.now.plan h)
        → result
        ≡ telling.fullest plan.now.problem plan.now.plan h (length plan.now.problem.links) }
    ensures inside { IfSome result (λ link. link < length peaks.now) }
{
    let mut found = None;
    for link in 0..peaks.len() {
        found = fuller(plan, peaks, found, link);
    }
    found
}

/// The fuller one of the fullest link so far and another; the first where they are equally full.
fn fuller(plan: &CheckedPlan, peaks: &[u128], found: Option<usize>, link: usize) -> Option<usize>
    requires all { length peaks.now ≡ length plan.now.problem.links }
    requires small { (l : ℕ) → l < length peaks.now → slice_index peaks.now l < 2 ^ 60 }
    requires link { link < length peaks.now }
    requires found { IfSome found (λ best. best < length peaks.now) }
    ensures is { (h : rules.History)
        → peaks.now
        ≡ list_below (length plan.now.problem.links) (link_peak plan.now.problem plan.now.plan h)
        → result ≡ telling.fuller plan.now.problem plan.now.plan h found link }
    ensures inside { IfSome result (λ best. best < length peaks.now) }
{
    if room_of(plan, link) == 0 {
        return found;
    }
    match found {
        Some(best) => Some(fuller_of(plan, peaks, best, link)),
        None => Some(link),
    }
}

fn fuller_of(plan: &CheckedPlan, peaks: &[u128], best: usize, link: usize) -> usize
    requires all { length peaks.now ≡ length plan.now.problem.links }
    requires small { (l : ℕ) → l < length peaks.now → slice_index peaks.now l < 2 ^ 60 }
    requires best { best < length peaks.now }
    requires link { link < length peaks.now }
    ensures is { result
        ≡ telling.fuller_of (telling.room_of plan.now.problem plan.now.plan) (slice_index peaks.now)
        best link }
    ensures inside { result < length peaks.now }
{
    let room = room_of(plan, link);
    let other = room_of(plan, best);
    if peaks[best] * room < peaks[link] * other {
        link
    } else {
        best
    }
}

/// What a link has, in units of 1/scale.
fn room_of(plan: &CheckedPlan, link: usize) -> u128
    requires { link < length plan.now.problem.links }
    ensures value { result ≡ telling.room_of plan.now.problem plan.now.plan link }
    ensures most { result < 2 ^ 60 }
{
    checked_plan_is_valid(plan);
    u128::from(plan.problem().capacity(link)) * u128::from(plan.plan().scale)
}
