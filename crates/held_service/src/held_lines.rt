//! The lines of what switches hold.
ghost use Rattle.std.specs.Prelude.{◌≡◌, ◌++◌, ◌<◌, length, IfOk, OnOk};
ghost use Rattle.rollout_rules.specs.Items.{item_count};
ghost use Rattle.held_service.specs.HeldText as spec;
ghost use Rattle.held_service.specs.Questions.{asked_homes};

use crate::homes::home_at;
use crate::notes::{is_told, noted_at};
use dependency_graph::Index;
use lists::{Memory, Text};
use rollout_rules::Held;
use std::alloc::Global;
use wan_model::{CheckedPlan, Problem};
use wan_text::push_switch;

/// A line an item of which something is noted, and one on all of them. `homes` has the switch that was asked
/// about each item.
pub(crate) fn text_of(
    alloc: Global,
    plan: &CheckedPlan,
    index: &Index,
    homes: &[Option<u32>],
    notes: &[Option<Held>],
) -> Result<Text, Memory>
    requires index { index.now ≡ plan.now }
    requires homes { homes.now ≡ asked_homes plan.now.problem plan.now.plan }
    requires rows { length notes.now ≡ item_count plan.now.problem }
    ensures { IfOk result
        (λ text. text ≡ spec.held_text plan.now.problem plan.now.plan notes.now) }
{
    let items = index.item_count();
    let told = told_count(notes, items);
    let most = greatest(notes, items);
    let mut text = Text::new(alloc);
    push_lines(alloc, &mut text, plan, index, homes, notes)?;
    push_last(alloc, &mut text, told, most)?;
    Ok(text)
}

// Adds the lines of all items, in their order.
fn push_lines(
    alloc: Global,
    text: &mut Text,
    plan: &CheckedPlan,
    index: &Index,
    homes: &[Option<u32>],
    notes: &[Option<Held>],
) -> Result<(), Memory>
    requires index { index.now ≡ plan.now }
    requires homes { homes.now ≡ asked_homes plan.now.problem plan.now.plan }
    ensures { OnOk result
        (text.new
        ≡ text.old
        ++ spec.lines_below plan.now.problem plan.now.plan notes.now
        (item_count plan.now.problem)) }
{
    for number in 0..index.item_count() {
        push_line_at(alloc, text, plan, index, homes, notes, number)?;
    }
    Ok(())
}

// Adds the line of the item with a number, where its home was asked and told.
fn push_line_at(
    alloc: Global,
    text: &mut Text,
    plan: &CheckedPlan,
    index: &Index,
    homes: &[Option<u32>],
    notes: &[Option<Held>],
    number: u32,
) -> Result<(), Memory>
    requires index { index.now ≡ plan.now }
    requires homes { homes.now ≡ asked_homes plan.now.problem plan.now.plan }
    requires number { number < item_count plan.now.problem }
    ensures { OnOk result
        (text.new ≡ text.old ++ spec.line_at plan.now.problem plan.now.plan notes.now number) }
{
    let home = home_at(homes, number);
    let held = noted_at(notes, number);
    let count = index.operations(number);
    push_line_if(alloc, text, plan.problem(), number, home, held, count)
}

fn push_line_if(
    alloc: Global,
    text: &mut Text,
    problem: &Problem,
    number: u32,
    home: Option<u32>,
    held: Option<Held>,
    count: u32,
) -> Result<(), Memory>
    ensures { OnOk result (text.new ≡ text.old ++ spec.line_if problem.now number home held count) }
{
    match home {
        Some(switch) => push_line_of(alloc, text, problem, number, switch, held, count),
        None => Ok(()),
    }
}

fn push_line_of(
    alloc: Global,
    text: &mut Text,
    problem: &Problem,
    number: u32,
    switch: u32,
    held: Option<Held>,
    count: u32,
) -> Result<(), Memory>
    ensures { OnOk result
        (text.new ≡ text.old ++ spec.line_by problem.now number switch held count) }
{
    match held {
        Some(held) => push_line(alloc, text, problem, number, switch, held, count),
        None => Ok(()),
    }
}

fn push_line(
    alloc: Global,
    text: &mut Text,
    problem: &Problem,
    number: u32,
    switch: u32,
    held: Held,
    count: u32,
) -> Result<(), Memory>
    ensures { OnOk result
        (text.new ≡ text.old ++ spec.line_of problem.now number switch held count) }
{
    push_number(alloc, text, number)?;
    push_switch(alloc, text, problem, switch as usize)?;
    push_pair(alloc, text, held.migration, held.number, count)
}

fn push_number(alloc: Global, text: &mut Text, number: u32) -> Result<(), Memory>
    ensures { OnOk result (text.new ≡ text.old ++ spec.number_text number) }
{
    let part = format!(in alloc; "item {number} ")?;
    text.push_str(&part)
}

fn push_pair(
    alloc: Global,
    text: &mut Text,
    migration: u32,
    number: u32,
    count: u32,
) -> Result<(), Memory>
    ensures { OnOk result (text.new ≡ text.old ++ spec.pair_text migration number count) }
{
    let part = format!(in alloc; ": migration {migration}, number {number} of {count}\n")?;
    text.push_str(&part)
}

fn push_last(alloc: Global, text: &mut Text, count: u32, migration: u32) -> Result<(), Memory>
    ensures { OnOk result (text.new ≡ text.old ++ spec.last_line count migration) }
{
    let part = format!(in alloc; "held: items {count}, greatest migration {migration}\n")?;
    text.push_str(&part)
}

// Of how many items something is noted.
fn told_count(notes: &[Option<Held>], items: u32) -> u32
    requires { items ≡ length notes.now }
    ensures { result ≡ spec.told_count notes.now }
{
    let mut count = 0;
    for item in 0..items {
        count += u32::from(is_told(notes, item));
    }
    count
}

// The greatest migration among what is noted.
fn greatest(notes: &[Option<Held>], items: u32) -> u32
    requires { items ≡ length notes.now }
    ensures { result ≡ spec.greatest_of notes.now (length notes.now) }
{
    let mut most = 0;
    for item in 0..items {
        most = larger(most, migration_of(noted_at(notes, item)));
    }
    most
}

fn larger(a: u32, b: u32) -> u32
    ensures { result ≡ spec.larger a b }
{
    if a < b { b } else { a }
}

fn migration_of(held: Option<Held>) -> u32
    ensures { result ≡ spec.migration_of held }
{
    match held {
        Some(held) => held.migration,
        None => 0,
    }
}
