//! The link that is fullest in a step.
ghost use Rattle.std.specs.Prelude.{◌≡◌, ℕ, ◌+◌, ◌*◌, ◌++◌, ◌<◌, ◌≤◌, ◌^◌, length, nat_lt, IfSome};
ghost use Rattle.rollout_rules.specs.Wan.{last_stage};
ghost use Rattle.wan_text.specs.Named.{AreNamesOf};
ghost use Rattle.plan_texts.specs.Loads as spec;
ghost use Rattle.plan_texts.specs.Rows.{AreLong, IsChecked, cell, link_rows};

use crate::pieces::{push_link, push_number};
use crate::rows::{Rows, read};
use crate::sums::Sums;
use lists::Many;
use text_writer::Pieces;
use wan_model::{Plan, Problem};
use wan_text::Names;

/// Adds the last line: the first link of which the greatest share may be taken in a step, how much that
/// is of what there is, and the first step of that link in which it is so much.
pub(crate) fn push_fullest<P: Pieces>(
    text: &mut P,
    names: &Names,
    problem: &Problem,
    plan: &Plan,
    rows: &Rows,
)
    requires names { AreNamesOf names.now problem.now }
    requires checked { IsChecked problem.now plan.now }
    requires most { rows.now.most ≡ link_rows problem.now plan.now 1 }
    ensures { P.pushes text.old (spec.fullest_line problem.now plan.now) text.new }
{
    text.push_str("fullest link: ");
    push_found(text, names, problem, plan, rows);
}

fn push_found<P: Pieces>(text: &mut P, names: &Names, problem: &Problem, plan: &Plan, rows: &Rows)
    requires names { AreNamesOf names.now problem.now }
    requires checked { IsChecked problem.now plan.now }
    requires most { rows.now.most ≡ link_rows problem.now plan.now 1 }
    ensures { P.pushes text.old
        (spec.fullest_text problem.now plan.now (spec.fullest_link problem.now plan.now)) text.new }
{
    match fullest_link(problem, plan, rows) {
        Some(link) => push_fullness(text, names, problem, plan, rows, link),
        None => text.push_str("none\n"),
    }
}

fn push_fullness<P: Pieces>(
    text: &mut P,
    names: &Names,
    problem: &Problem,
    plan: &Plan,
    rows: &Rows,
    link: usize,
)
    requires names { AreNamesOf names.now problem.now }
    requires checked { IsChecked problem.now plan.now }
    requires most { rows.now.most ≡ link_rows problem.now plan.now 1 }
    requires link { link < length problem.now.links }
    ensures { P.pushes text.old (spec.fullest_text problem.now plan.now (Some link)) text.new }
{
    let step = fullest_step(problem, plan, rows, link);
    let total = greatest_total(problem, plan, rows, link);
    let room = room_of(problem, plan, link);
    push_link(text, names, problem, link);
    push_share(text, total, room, step);
}

fn push_share<P: Pieces>(text: &mut P, total: u128, room: u128, step: usize)
    ensures { P.pushes text.old (spec.share_text total room step) text.new }
{
    text.push_str(" ");
    push_number(text, total);
    text.push_str(" of ");
    push_number(text, room);
    text.push_str(" in step ");
    push_number(text, step);
    text.push_str("\n");
}

/// The fullest link, where there is a step.
fn fullest_link(problem: &Problem, plan: &Plan, rows: &Rows) -> Option<usize>
    requires checked { IsChecked problem.now plan.now }
    requires most { rows.now.most ≡ link_rows problem.now plan.now 1 }
    ensures is { result ≡ spec.fullest_link problem.now plan.now }
    ensures inside { IfSome result (λ link. link < length problem.now.links) }
{
    if plan.last_stage() == 0 {
        return None;
    }
    fullest(problem, plan, rows)
}

fn fullest(problem: &Problem, plan: &Plan, rows: &Rows) -> Option<usize>
    requires checked { IsChecked problem.now plan.now }
    requires most { rows.now.most ≡ link_rows problem.now plan.now 1 }
    ensures is { result
        ≡ spec.fullest (spec.room_of problem.now plan.now)
        (spec.greatest_total problem.now plan.now) (length problem.now.links) }
    ensures inside { IfSome result (λ link. link < length problem.now.links) }
{
    let mut found = None;
    for link in 0..problem.links().len() {
        found = fuller(problem, plan, rows, found, link);
    }
    found
}

/// The fuller one of the fullest link so far and another; the first where they are equally full.
fn fuller(
    problem: &Problem,
    plan: &Plan,
    rows: &Rows,
    found: Option<usize>,
    link: usize,
) -> Option<usize>
    requires checked { IsChecked problem.now plan.now }
    requires most { rows.now.most ≡ link_rows problem.now plan.now 1 }
    requires link { link < length problem.now.links }
    requires found { IfSome found (λ best. best < length problem.now.links) }
    ensures is { result
        ≡ spec.fuller (spec.room_of problem.now plan.now)
        (spec.greatest_total problem.now plan.now) found link }
    ensures inside { IfSome result (λ best. best < length problem.now.links) }
{
    if room_of(problem, plan, link) == 0 {
        return found;
    }
    match found {
        Some(best) => Some(fuller_of(problem, plan, rows, best, link)),
        None => Some(link),
    }
}

fn fuller_of(problem: &Problem, plan: &Plan, rows: &Rows, best: usize, link: usize) -> usize
    requires checked { IsChecked problem.now plan.now }
    requires most { rows.now.most ≡ link_rows problem.now plan.now 1 }
    requires best { best < length problem.now.links }
    requires link { link < length problem.now.links }
    ensures is { result
        ≡ spec.fuller_of (spec.room_of problem.now plan.now)
        (spec.greatest_total problem.now plan.now) best link }
    ensures inside { result < length problem.now.links }
{
    numbers_fit(problem, plan);
    let room = room_of(problem, plan, link);
    let other = room_of(problem, plan, best);
    let most = greatest_total(problem, plan, rows, best);
    let total = greatest_total(problem, plan, rows, link);
    if is_less(most, room, total, other) {
        return link;
    }
    best
}

/// Whether the first share is less than the second: `a / d` than `c / b`.
fn is_less(a: u128, b: u128, c: u128, d: u128) -> bool
    requires a { a < 2 ^ 60 }
    requires b { b < 2 ^ 60 }
    requires c { c < 2 ^ 60 }
    requires d { d < 2 ^ 60 }
    ensures { result ≡ nat_lt (a * b) (c * d) }
{
    let left = a * b;
    let right = c * d;
    left < right
}

/// What there is of a link and what may be taken of it aren't large, since the plan is valid.
fn numbers_fit(problem: &Problem, plan: &Plan)
    requires { IsChecked problem.now plan.now }
    ensures rooms { (l : ℕ)
        → l < length problem.now.links
        → spec.room_of problem.now plan.now l < 2 ^ 60 }
    ensures totals { (l : ℕ)
        → l < length problem.now.links
        → spec.greatest_total problem.now plan.now l < 2 ^ 60 }
{
    let _ = problem;
    let _ = plan;
}

/// The most that may be taken of a link in a step.
fn greatest_total(problem: &Problem, plan: &Plan, rows: &Rows, link: usize) -> u128
    requires checked { IsChecked problem.now plan.now }
    requires most { rows.now.most ≡ link_rows problem.now plan.now 1 }
    requires link { link < length problem.now.links }
    ensures { result ≡ spec.greatest_total problem.now plan.now link }
{
    read(&rows.most, fullest_step(problem, plan, rows, link), link)
}

/// The first step in which that much may be taken.
fn fullest_step(problem: &Problem, plan: &Plan, rows: &Rows, link: usize) -> usize
    requires checked { IsChecked problem.now plan.now }
    requires most { rows.now.most ≡ link_rows problem.now plan.now 1 }
    requires link { link < length problem.now.links }
    ensures value { result ≡ spec.fullest_step problem.now plan.now link }
    ensures inside { result ≤ last_stage plan.now }
{
    let _ = problem;
    greatest_at(&rows.most, link, plan.last_stage())
}

/// The first of so many rows whose number at a place is the greatest.
fn greatest_at(rows: &Many<Sums>, place: usize, count: usize) -> usize
    requires { AreLong rows.now (count + 1) place }
    ensures value { result ≡ spec.greatest_at (cell rows.now place) count }
    ensures inside { result ≤ count }
{
    let mut best = 0;
    for s in 0..count {
        let later = later_if_greater(rows, place, best, s);
        best = later;
    }
    best
}

fn later_if_greater(rows: &Many<Sums>, place: usize, best: usize, s: usize) -> usize
    requires rows { AreLong rows.now (s + 1) place }
    requires order { best ≤ s }
    ensures value { result ≡ spec.later_if_greater (cell rows.now place) best s }
    ensures inside { result ≤ s }
{
    let most = read(rows, best, place);
    let other = read(rows, s, place);
    if most < other { s } else { best }
}

/// What a link has, in units of 1/scale.
pub(crate) fn room_of(problem: &Problem, plan: &Plan, link: usize) -> u128
    requires { link < length problem.now.links }
    ensures { result ≡ spec.room_of problem.now plan.now link }
{
    u128::from(problem.capacity(link)) * u128::from(plan.scale)
}
