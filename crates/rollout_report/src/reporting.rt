ghost use Rattle.std.specs.Prelude.{◌≡◌, ◌++◌, ◌<◌, IfOk, OnOk, length};
ghost use Rattle.rollout_rules.specs.Items as rules;
ghost use Rattle.dependency_graph.specs.Index.{AreItems};
ghost use Rattle.rollout_report.specs.Counts.{AreCountsOf};
ghost use Rattle.rollout_report.specs.Report.{counts_line, sum_line, stage_line, report_text};
ghost use Rattle.rollout_report.specs.Tallies.{lines_of};

use crate::stages::Stages;
use crate::totals::{flying_of_all, operations_of_all, settled_of_all};
use crate::{Counts, History, push_end};
use dependency_graph::items;
use lists::{Memory, Text};
use rollout_rules::Item;
use std::alloc::Global;
use wan_model::{CheckedPlan, item_count};

/// The report of a history: how many entries it has, how many operations are settled, those of its start
/// among them, and how many are in flight; how many of those to each stage are settled; the peak of each
/// link in units of 1/scale and of each table in widths; and whether the rollout is finished. An Err is
/// lack of memory.
pub fn report(alloc: Global, plan: &CheckedPlan, history: &History<'_>) -> Result<Text, Memory>
    ensures { IfOk result (λ text. text ≡ report_text plan.now.problem plan.now.plan history.now) }
{
    let items = items(alloc, plan)?;
    let counts = Counts::over(alloc, plan, history)?;
    let stages = Stages::over(alloc, plan, items.as_slice(), &counts)?;
    let mut text = Text::new(alloc);
    push_sums(alloc, plan, history, items.as_slice(), &counts, &mut text)?;
    push_stages(alloc, &stages, &mut text)?;
    push_end(alloc, plan, history, &mut text)?;
    Ok(text)
}

/// Adds the first line.
fn push_sums(
    alloc: Global,
    plan: &CheckedPlan,
    history: &History<'_>,
    items: &[Item],
    counts: &Counts,
    text: &mut Text,
) -> Result<(), Memory>
    requires items { AreItems plan.now.problem (rules.item_count plan.now.problem) items.now }
    requires counts { AreCountsOf plan.now.problem history.now counts.now }
    ensures { OnOk result
        (text.new ≡ text.old ++ sum_line plan.now.problem plan.now.plan history.now) }
{
    let entries = history.entries().len();
    let count = item_count(plan.problem());
    let settled = settled_of_all(count, counts);
    let all = operations_of_all(plan, items);
    let flying = flying_of_all(count, counts);
    push_counts(alloc, entries, settled, all, flying, text)
}

/// Adds the first line by its numbers.
fn push_counts(
    alloc: Global,
    entries: usize,
    settled: u128,
    all: u64,
    flying: u32,
    text: &mut Text,
) -> Result<(), Memory>
    ensures { OnOk result (text.new ≡ text.old ++ counts_line entries settled all flying) }
{
    let line = format!(in alloc;
        "entries {entries}, settled {settled} of {all}, flying {flying}\n"
    )?;
    text.push_str(&line)
}

/// Adds the lines of the stages from 1 on.
fn push_stages(alloc: Global, stages: &Stages, text: &mut Text) -> Result<(), Memory>
    requires { length stages.now.settled ≡ length stages.now.all }
    ensures { OnOk result (text.new ≡ text.old ++ lines_of stages.now (length stages.now.all)) }
{
    for stage in 0..stages.len() {
        push_stage(alloc, stage, stages.settled(stage), stages.all(stage), text)?;
    }
    Ok(())
}

/// Adds the line of the stage after one: how many of the operations to it are settled.
fn push_stage(
    alloc: Global,
    stage: usize,
    settled: u64,
    all: u64,
    text: &mut Text,
) -> Result<(), Memory>
    requires { stage < 18446744073709551615 }
    ensures { OnOk result (text.new ≡ text.old ++ stage_line stage settled all) }
{
    let number = stage + 1;
    let line = format!(in alloc; "stage {number}: {settled} of {all}\n")?;
    text.push_str(&line)
}
