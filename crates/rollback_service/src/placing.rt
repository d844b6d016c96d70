//! A journal of the way back takes the place of the journal of the way there.
ghost use Rattle.std.specs.Prelude.{◌≡◌, ◌+◌, ◌<◌, ◌^◌, ℕ, [], length, false, IfErr, IfOk, IsTrue};
ghost use Rattle.rollout_rules.specs.History.{flies, started};
ghost use Rattle.rollout_rules.specs.Items.{item_count};
ghost use Rattle.rollout_rules.specs.Legal.{is_sound};
ghost use Rattle.rollback_plan.specs.Turning as turning;
ghost use Rattle.rollout_report.specs.Journals.{digest_for};
ghost use Rattle.intent_journal.specs.Placements.{placed_kept};
ghost use Rattle.rollback_service.specs.Levellings.{IsStartBack};
ghost use Rattle.rollback_service.specs.Placings.{HasPlaced, IsNotPlaced, IsSeen, MayPlace, kept_from};

use disk_model::Disk;
use intent_journal::{JournalFault, place};
use lists::{Ids, Memory};
use rollback_plan::back;
use rollout_report::{KnownPlan, known_plan};
use std::alloc::Global;
use wan_model::CheckedPlan;

/// What placing comes to: the disk, and the rollout of the new journal, or why that wasn't placed.
#[derive(Drop)]
pub struct Placed<D> {
    pub disk: D,
    pub answer: Result<CheckedPlan, JournalFault>,
}

/// Puts a journal of the way back in the place of the one on the disk, as the migration after that of this
/// number: it knows the rollout back, begins at this start, and has no entry. A crash at any moment leaves what
/// stood or the new journal.
pub fn place_back<D: Disk>(
    alloc: Global,
    plan: CheckedPlan,
    migration: u32,
    start: Ids,
    disk: D,
) -> Placed<D>
    requires start { IsStartBack plan start }
    requires migration { migration + 1 < 2 ^ 32 }
    ensures seen { IsSeen D.told disk }
    ensures may { MayPlace D.told (kept_from plan migration start) disk result.disk }
    ensures placed { IfOk result.answer
        (λ there. (there ≡ turning.back plan)
        × HasPlaced D.told (kept_from plan migration start) result.disk) }
    ensures err { IfErr result.answer (λ cause. IsNotPlaced D.told cause disk result.disk) }
{
    see(&disk);
    match way_back(alloc, &plan, migration, start.as_slice()) {
        Ok(known) => {
            drop(plan);
            place_known(alloc, known, disk)
        }
        Err(_) => {
            drop(plan);
            Placed {
                disk,
                answer: Err(JournalFault::Memory),
            }
        }
    }
}

// What a disk tells is one of the images that a crash now may leave.
fn see<D: Disk>(disk: &D)
    ensures { IsSeen D.told disk.now }
{}

// The way back from a start, as the next migration, with what its journal is known by.
fn way_back(
    alloc: Global,
    plan: &CheckedPlan,
    migration: u32,
    start: &[u32],
) -> Result<KnownPlan, Memory>
    requires start { IsStartBack plan.now start.now }
    requires migration { migration + 1 < 2 ^ 32 }
    ensures rollout { IfOk result (λ known. known.graph.rollout ≡ turning.back plan.now) }
    ensures history { IfOk result (λ known. known.graph.history ≡ started start.now) }
    ensures digest { IfOk result
        (λ known. known.digest ≡ digest_for (turning.back plan.now) (migration + 1)) }
{
    let there = back(alloc, plan)?;
    let known = known_plan(alloc, there, migration + 1)?;
    Ok(with_start(known, start))
}

/// The same plan, begun at another sound start.
pub fn with_start(known: KnownPlan, start: &[u32]) -> KnownPlan
    requires empty { known.graph.history.entries ≡ [] }
    requires numbers { length start.now ≡ item_count known.graph.rollout.problem }
    requires sound { IsTrue (is_sound known.graph.rollout.problem known.graph.rollout.plan
        start.now) }
    ensures rollout { result.graph.rollout ≡ known.graph.rollout }
    ensures history { result.graph.history ≡ started start.now }
    ensures digest { result.digest ≡ known.digest }
{
    let KnownPlan { graph, digest } = known;
    let mut graph = graph;
    graph.restart(start);
    KnownPlan { graph, digest }
}

/// Puts the journal of a graph at whose start nothing flies in the place of the one on the disk, and gives the
/// rollout back. A crash at any moment leaves what stood or the new journal.
pub fn place_known<D: Disk>(alloc: Global, known: KnownPlan, mut disk: D) -> Placed<D>
    requires { (item : ℕ)
        → item < item_count known.graph.rollout.problem
        → flies known.graph.history item ≡ false }
    ensures may { MayPlace D.told (placed_kept known.digest known.graph) disk result.disk }
    ensures placed { IfOk result.answer
        (λ there. (there ≡ known.graph.rollout)
        × HasPlaced D.told (placed_kept known.digest known.graph) result.disk) }
    ensures err { IfErr result.answer (λ cause. IsNotPlaced D.told cause disk result.disk) }
{
    let KnownPlan { graph, digest } = known;
    match place(alloc, &mut disk, &digest, &graph) {
        Ok(()) => Placed {
            disk,
            answer: Ok(graph.into_plan()),
        },
        Err(cause) => {
            drop(graph);
            Placed {
                disk,
                answer: Err(cause),
            }
        }
    }
}
