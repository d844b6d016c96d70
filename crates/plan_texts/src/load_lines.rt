ghost use Rattle.std.specs.Prelude.{◌≡◌, ◌+◌, ◌++◌, ◌<◌, length};
ghost use Rattle.rollout_rules.specs.Items.{the_link, the_table};
ghost use Rattle.wan_text.specs.Named.{AreNamesOf};
ghost use Rattle.plan_texts.specs.Loads as spec;
ghost use Rattle.plan_texts.specs.Loads.{load_line, load_lines, loads_text};
ghost use Rattle.plan_texts.specs.LookedUp.{AreLoadsIn, AreLoadsOf};
ghost use Rattle.plan_texts.specs.Rows.{AreLong, IsChecked, cell, link_rows, table_rows};

use crate::fullest::{push_fullest, room_of};
use crate::load_rows::LoadRows;
use crate::pieces::{push_link, push_number, push_switch};
use crate::rows::{Rows, read};
use dependency_graph::checked_plan_is_valid;
use text_writer::Pieces;
use wan_model::{CheckedPlan, Plan, Problem};
use wan_text::Names;

/// Pushes the loads of a plan: its steps and scale; of each link, and of each table, how much is taken at each
/// stage and, in parentheses between, at most in the step; and the link that is fullest in a step. Links
/// are in units of 1/scale, tables in the widths of their entries. It takes no memory.
pub fn push_loads<P: Pieces>(text: &mut P, plan: &CheckedPlan, rows: &LoadRows)
    requires { AreLoadsOf rows.now plan.now }
    ensures { P.pushes text.old (loads_text plan.now.problem plan.now.plan) text.new }
{
    checked_plan_is_valid(plan);
    push_all(text, plan.problem(), plan.plan(), rows);
}

fn push_all<P: Pieces>(text: &mut P, problem: &Problem, plan: &Plan, rows: &LoadRows)
    requires checked { IsChecked problem.now plan.now }
    requires rows { AreLoadsIn rows.now problem.now plan.now }
    ensures { P.pushes text.old (loads_text problem.now plan.now) text.new }
{
    push_sizes(text, plan.last_stage(), scale_of(plan));
    push_links(text, &rows.names, problem, plan, &rows.links);
    push_tables(text, &rows.names, problem, plan, &rows.tables);
    push_fullest(text, &rows.names, problem, plan, &rows.links);
}

pub(crate) fn scale_of(plan: &Plan) -> u32
    ensures { result ≡ plan.now.scale }
{
    plan.scale
}

/// Adds the first line.
fn push_sizes<P: Pieces>(text: &mut P, steps: usize, scale: u32)
    ensures { P.pushes text.old (spec.sizes_line steps scale) text.new }
{
    text.push_str("steps ");
    push_number(text, steps);
    text.push_str(", scale ");
    push_number(text, scale);
    text.push_str("\n");
}

/// Adds the lines of the links.
fn push_links<P: Pieces>(text: &mut P, names: &Names, problem: &Problem, plan: &Plan, rows: &Rows)
    requires names { AreNamesOf names.now problem.now }
    requires checked { IsChecked problem.now plan.now }
    requires taken { rows.now.taken ≡ link_rows problem.now plan.now 0 }
    requires most { rows.now.most ≡ link_rows problem.now plan.now 1 }
    ensures { P.pushes text.old
        (load_lines problem.now plan.now the_link (length problem.now.links)) text.new }
{
    for link in 0..problem.links().len() {
        push_link_line(text, names, problem, plan, rows, link);
    }
}

/// Adds the line of a link.
fn push_link_line<P: Pieces>(
    text: &mut P,
    names: &Names,
    problem: &Problem,
    plan: &Plan,
    rows: &Rows,
    link: usize,
)
    requires names { AreNamesOf names.now problem.now }
    requires checked { IsChecked problem.now plan.now }
    requires taken { rows.now.taken ≡ link_rows problem.now plan.now 0 }
    requires most { rows.now.most ≡ link_rows problem.now plan.now 1 }
    requires link { link < length problem.now.links }
    ensures { P.pushes text.old (load_line problem.now plan.now (the_link link)) text.new }
{
    text.push_str("load ");
    push_link(text, names, problem, link);
    let room = room_of(problem, plan, link);
    push_totals(text, rows, link, plan.last_stage(), room);
}

/// Adds the lines of the tables.
fn push_tables<P: Pieces>(text: &mut P, names: &Names, problem: &Problem, plan: &Plan, rows: &Rows)
    requires names { AreNamesOf names.now problem.now }
    requires checked { IsChecked problem.now plan.now }
    requires taken { rows.now.taken ≡ table_rows problem.now plan.now 0 }
    requires most { rows.now.most ≡ table_rows problem.now plan.now 1 }
    ensures { P.pushes text.old
        (load_lines problem.now plan.now the_table (length problem.now.switches)) text.new }
{
    for switch in 0..problem.switches().len() {
        push_table_line(text, names, problem, plan, rows, switch);
    }
}

/// Adds the line of a switch's table.
fn push_table_line<P: Pieces>(
    text: &mut P,
    names: &Names,
    problem: &Problem,
    plan: &Plan,
    rows: &Rows,
    switch: usize,
)
    requires names { AreNamesOf names.now problem.now }
    requires checked { IsChecked problem.now plan.now }
    requires taken { rows.now.taken ≡ table_rows problem.now plan.now 0 }
    requires most { rows.now.most ≡ table_rows problem.now plan.now 1 }
    requires switch { switch < length problem.now.switches }
    ensures { P.pushes text.old (load_line problem.now plan.now (the_table switch)) text.new }
{
    text.push_str("load table ");
    push_switch(text, names, switch);
    let size = u128::from(problem.table(switch));
    push_totals(text, rows, switch, plan.last_stage(), size);
}

/// Adds how much there is of a resource, and what is taken at each stage and at most in each step.
fn push_totals<P: Pieces>(text: &mut P, rows: &Rows, place: usize, steps: usize, capacity: u128)
    requires taken { AreLong rows.now.taken (steps + 1) place }
    requires most { AreLong rows.now.most (steps + 1) place }
    ensures { P.pushes text.old
        (spec.totals_text capacity steps (cell rows.now.taken place) (cell rows.now.most place))
        text.new }
{
    push_capacity(text, capacity);
    push_steps(text, rows, place, steps);
    push_last(text, read(&rows.taken, steps, place));
}

/// Adds what is taken at the stages before the last, and at most in each step.
fn push_steps<P: Pieces>(text: &mut P, rows: &Rows, place: usize, steps: usize)
    requires taken { AreLong rows.now.taken (steps + 1) place }
    requires most { AreLong rows.now.most (steps + 1) place }
    ensures { P.pushes text.old
        (spec.step_texts (cell rows.now.taken place) (cell rows.now.most place) steps) text.new }
{
    for step in 0..steps {
        let taken = read(&rows.taken, step, place);
        let most = read(&rows.most, step, place);
        push_step(text, taken, most);
    }
}

fn push_capacity<P: Pieces>(text: &mut P, capacity: u128)
    ensures { P.pushes text.old (spec.capacity_text capacity) text.new }
{
    text.push_str(" of ");
    push_number(text, capacity);
    text.push_str(":");
}

fn push_step<P: Pieces>(text: &mut P, taken: u128, most: u128)
    ensures { P.pushes text.old (spec.step_text taken most) text.new }
{
    text.push_str(" ");
    push_number(text, taken);
    text.push_str(" (");
    push_number(text, most);
    text.push_str(")");
}

fn push_last<P: Pieces>(text: &mut P, taken: u128)
    ensures { P.pushes text.old (spec.last_text taken) text.new }
{
    text.push_str(" ");
    push_number(text, taken);
    text.push_str("\n");
}
