ghost use Rattle.std.specs.Prelude.{◌≡◌, ◌<◌, ◌≤◌, [], length, slice_index, IfErr, IsTrue, MatchOption};
ghost use Rattle.rollout_rules.specs.Wan.{last_stage};
ghost use Rattle.rollout_rules.specs.Items.{is_item, item_at, item_count, capacity_of};
ghost use Rattle.rollout_rules.specs.History.{started, places_of};
ghost use Rattle.rollout_rules.specs.Legal as legal;
ghost use Rattle.rollout_rules.specs.Room as rooms;
ghost use Rattle.dependency_graph.specs.Ahead.{places_with};
ghost use Rattle.dependency_graph.specs.Cells.{resource_count, resource_at};
ghost use Rattle.dependency_graph.specs.FirstFault.{FailsFirst, IsFirstFault, TellsSound};
ghost use Rattle.dependency_graph.specs.FirstFault as faults;
ghost use Rattle.dependency_graph.specs.Graph.{count_of};
ghost use Rattle.dependency_graph.specs.Soundness as parts;

use crate::amounts::capacity;
use crate::changes::changes_behind;
use crate::checked::checked_plan_is_valid;
use crate::progress::Progress;
use crate::start_fault::StartFault;
use rollout_rules::{Item, Op, Spot};
use std::alloc::Global;
use wan_model::CheckedPlan;

/// Ok exactly where a rollout may begin at a start, or else what the start breaks first: an item of which
/// more operations are settled than it has, a settled operation whose needs aren't met, or a link or a
/// table of which more is taken at a stage than there is. These three are tried in that order, and each by
/// item and operation, or by stage, link and table.
pub fn sound(alloc: Global, plan: &CheckedPlan, start: &[u32]) -> Result<(), StartFault>
    requires { length start.now ≡ item_count plan.now.problem }
    ensures sound { TellsSound result
        (legal.is_sound plan.now.problem plan.now.plan start.now) }
    ensures first { IfErr result
        (IsFirstFault plan.now.problem plan.now.plan
        (places_of plan.now.problem (started start.now))) }
{
    checked_plan_is_valid(plan);
    let progress = Progress::new(alloc, plan, start)?;
    verdict(&progress, plan)
}

fn verdict(progress: &Progress, plan: &CheckedPlan) -> Result<(), StartFault>
    requires { plan.now ≡ progress.now.rollout }
    ensures { parts.IsVerdict result plan.now progress.now }
{
    match first_fault(progress, plan) {
        Some(fault) => Err(fault),
        None => Ok(()),
    }
}

fn first_fault(progress: &Progress, plan: &CheckedPlan) -> Option<StartFault>
    requires { plan.now ≡ progress.now.rollout }
    ensures { MatchOption result (IsTrue (parts.is_sound plan.now progress.now))
        (parts.IsFirst plan.now progress.now) }
{
    match first_above(progress, plan) {
        Some(item) => Some(StartFault::Above {
            item,
            held: progress.settled(item),
            count: progress.operations(item),
        }),
        None => first_of_places(progress, plan),
    }
}

fn first_of_places(progress: &Progress, plan: &CheckedPlan) -> Option<StartFault>
    requires own { plan.now ≡ progress.now.rollout }
    requires exist { IsTrue (parts.all_exist plan.now progress.now) }
    ensures { MatchOption result
        (IsTrue (parts.had_needs_and_fit plan.now progress.now))
        (parts.IsOfPlaces plan.now progress.now) }
{
    match first_without_needs(progress, plan) {
        Some(op) => Some(StartFault::Need {
            item: op.item,
            number: op.number,
        }),
        None => first_without_room(progress, plan),
    }
}

/// The first item of which more operations are settled than it has.
fn first_above(progress: &Progress, plan: &CheckedPlan) -> Option<u32>
    requires { plan.now ≡ progress.now.rollout }
    ensures { MatchOption result (IsTrue (parts.all_exist plan.now progress.now))
        (FailsFirst (item_count plan.now.problem) (parts.has_settled plan.now progress.now)) }
{
    for item in 0..progress.item_count() {
        if progress.settled(item) > progress.operations(item) {
            return Some(item);
        }
    }
    None
}

/// The first item of which a settled operation lacks its needs, and the first such operation of it.
fn first_without_needs(progress: &Progress, plan: &CheckedPlan) -> Option<Op>
    requires own { plan.now ≡ progress.now.rollout }
    requires exist { IsTrue (parts.all_exist plan.now progress.now) }
    ensures { MatchOption result (IsTrue (parts.all_had_their_needs plan.now progress.now))
        (λ op. parts.LacksFirst plan.now progress.now op.item op.number) }
{
    for item in 0..progress.item_count() {
        match first_lacking(progress, plan, item) {
            Some(number) => return Some(Op { item, number }),
            None => {}
        }
    }
    None
}

/// The first settled operation of an item whose needs aren't met.
fn first_lacking(progress: &Progress, plan: &CheckedPlan, item: u32) -> Option<u32>
    requires own { plan.now ≡ progress.now.rollout }
    requires item { item < item_count plan.now.problem }
    requires exist { slice_index progress.now.settled item ≤ count_of plan.now item }
    ensures { MatchOption result (IsTrue (parts.had_its_needs plan.now progress.now item))
        (parts.LacksOperation plan.now progress.now item) }
{
    let what = progress.item(item);
    lacking_of(progress, plan, item, what)
}

fn lacking_of(progress: &Progress, plan: &CheckedPlan, item: u32, what: Item) -> Option<u32>
    requires own { plan.now ≡ progress.now.rollout }
    requires item { item < item_count plan.now.problem }
    requires exist { slice_index progress.now.settled item ≤ count_of plan.now item }
    requires what { IsTrue (is_item plan.now.problem what) }
    requires is { what ≡ item_at plan.now.problem item }
    ensures { MatchOption result (IsTrue (parts.had_its_needs plan.now progress.now item))
        (parts.LacksOperation plan.now progress.now item) }
{
    let _ = plan.last_stage();
    let mut before = 0;
    for stage in 0..progress.stand(plan, item) {
        if !had_needs_at(progress, plan, what, stage) {
            return Some(before + 1);
        }
        before += u32::from(changes_behind(plan, what, stage));
    }
    None
}

fn had_needs_at(progress: &Progress, plan: &CheckedPlan, item: Item, stage: usize) -> bool
    requires own { plan.now ≡ progress.now.rollout }
    requires item { IsTrue (is_item plan.now.problem item) }
    requires stage { stage < last_stage plan.now.plan }
    ensures { result ≡ parts.had_needs_at plan.now progress.now item stage }
{
    !changes_behind(plan, item, stage) || progress.needs_met_at(plan, item, stage)
}

/// The first resource, at the first stage from the least on at which an item stands, of which more is taken
/// than there is.
fn first_without_room(progress: &Progress, plan: &CheckedPlan) -> Option<StartFault>
    requires { plan.now ≡ progress.now.rollout }
    ensures { MatchOption result
        (IsTrue (rooms.fits plan.now.problem plan.now.plan (places_with plan.now progress.now [])))
        (parts.IsOfRoom plan.now progress.now) }
{
    for stage in progress.least_stand(plan)..plan.last_stage() {
        match first_over(progress, plan, stage) {
            Some(resource) => return Some(lack_of_room(progress, plan, stage, resource)),
            None => {}
        }
    }
    None
}

/// The first resource of which more is taken at a stage than there is, by its number.
fn first_over(progress: &Progress, plan: &CheckedPlan, stage: usize) -> Option<usize>
    requires own { plan.now ≡ progress.now.rollout }
    requires stage { stage < last_stage plan.now.plan }
    ensures { MatchOption result
        (IsTrue (rooms.fits_at plan.now.problem plan.now.plan
        (places_with plan.now progress.now []) stage))
        (FailsFirst (resource_count plan.now.problem)
        (faults.has_room_for plan.now.problem plan.now.plan
        (places_with plan.now progress.now []) stage)) }
{
    for resource in 0..plan.problem().links().len() + plan.problem().switches().len() {
        if progress.room(plan, resource, stage) > capacity(plan, resource) {
            return Some(resource);
        }
    }
    None
}

fn lack_of_room(
    progress: &Progress,
    plan: &CheckedPlan,
    stage: usize,
    resource: usize,
) -> StartFault
    requires own { plan.now ≡ progress.now.rollout }
    requires stage { stage < last_stage plan.now.plan }
    requires resource { resource < resource_count plan.now.problem }
    ensures { result ≡ parts.room_fault plan.now progress.now stage resource }
{
    let _ = plan.last_stage();
    let number = stage as u32;
    StartFault::Room {
        stage: number,
        spot: spot_at(plan, resource),
        found: taken(progress, plan, resource, stage),
        wanted: there(plan, resource),
    }
}

fn spot_at(plan: &CheckedPlan, resource: usize) -> Spot
    requires { resource < resource_count plan.now.problem }
    ensures { result ≡ faults.spot_at plan.now.problem resource }
{
    checked_plan_is_valid(plan);
    let links = plan.problem().links().len();
    if resource < links {
        let link = resource as u32;
        return Spot::Link(link);
    }
    let table = (resource - links) as u32;
    Spot::Table(table)
}

/// How much is taken of a resource at a stage. However it stands with what there is, no item takes more than in
/// some step of the plan, and each step fits.
fn taken(progress: &Progress, plan: &CheckedPlan, resource: usize, stage: usize) -> u64
    requires own { plan.now ≡ progress.now.rollout }
    requires resource { resource < resource_count plan.now.problem }
    requires stage { stage < last_stage plan.now.plan }
    ensures { result
        ≡ rooms.room plan.now.problem plan.now.plan (places_with plan.now progress.now []) stage
        (resource_at plan.now.problem resource) }
{
    checked_plan_is_valid(plan);
    let _ = plan.last_stage();
    progress.room(plan, resource, stage) as u64
}

fn there(plan: &CheckedPlan, resource: usize) -> u64
    requires { resource < resource_count plan.now.problem }
    ensures { result
        ≡ capacity_of plan.now.problem plan.now.plan (resource_at plan.now.problem resource) }
{
    checked_plan_is_valid(plan);
    capacity(plan, resource) as u64
}
