//! The document of a plan is written, and then a journal of it takes the place of the one on the disk.
ghost use Rattle.std.specs.Prelude.{◌≡◌, ◌≢◌, ◌+◌, ◌<◌, ◌^◌, [], ◌++◌, IfErr, OnOk};
ghost use Rattle.rollout_rules.specs.History.{from_nothing};
ghost use Rattle.rollout_rules.specs.Wan as wan;
ghost use Rattle.rollout_report.specs.Journals.{digest_for};
ghost use Rattle.intent_journal.specs.Openings.{unbegun};
ghost use Rattle.wan_edge.specs.Streams.{Appends};
ghost use Rattle.retarget_top.specs.Retargets.{IsUnwritten, PlacesNext, Replaces, WritesNext, next_text};

use crate::ending::RetargetEnding;
use crate::retargeting::Retargeted;
use dependency_graph::checked_plan_is_valid;
use disk_model::Disk;
use rollback_service::{Placed, place_known};
use rollout_report::{KnownPlan, known_plan};
use std::alloc::Global;
use text_commands::{CommandEnd, document_of, write_text};
use wan_edge::Sink;
use wan_model::CheckedPlan;

/// Writes the document of a plan, and puts a journal of its rollout in the place of the one on the disk, as the
/// migration after that of this number. Nothing is placed unless all was written.
pub(crate) fn replace<K: Sink, D: Disk>(
    alloc: Global,
    migration: u32,
    plan: CheckedPlan,
    sink: &mut K,
    disk: D,
) -> Retargeted<D>
    requires { migration + 1 < 2 ^ 32 }
    ensures { Replaces D.told plan migration disk result.disk result.ending (K.told sink.old)
        (K.told sink.new) }
{
    checked_plan_is_valid(&plan);
    match known_plan(alloc, plan, migration + 1) {
        Ok(known) => write_and_place(alloc, known, sink, disk),
        Err(_) => Retargeted {
            ending: RetargetEnding::Ended(CommandEnd::OutOfMemory),
            disk,
        },
    }
}

fn write_and_place<K: Sink, D: Disk>(
    alloc: Global,
    known: KnownPlan,
    sink: &mut K,
    disk: D,
) -> Retargeted<D>
    requires { known.graph.history ≡ from_nothing known.graph.rollout.problem [] }
    ensures { WritesNext D.told known disk result.disk result.ending (K.told sink.old)
        (K.told sink.new) }
{
    match write_next(alloc, known.graph.plan(), sink) {
        Ok(()) => place_next(alloc, known, disk),
        Err(ending) => {
            drop(known);
            Retargeted {
                ending: RetargetEnding::Ended(ending),
                disk,
            }
        }
    }
}

// Writes all of a plan's document, or says why not.
fn write_next<K: Sink>(alloc: Global, plan: &CheckedPlan, sink: &mut K) -> Result<(), CommandEnd>
    ensures ok { OnOk result
        (Appends (K.told sink.old).written (next_text plan.now) (K.told sink.new).written) }
    ensures err { IfErr result
        (λ ending. IsUnwritten (next_text plan.now) ending (K.told sink.old)
        (K.told sink.new)) }
{
    match document_of(alloc, plan) {
        Ok(document) => done(write_text(sink, document.as_str())),
        Err(_) => Err(CommandEnd::OutOfMemory),
    }
}

// An ending as a step that may fail.
fn done(ending: CommandEnd) -> Result<(), CommandEnd>
    ensures ok { OnOk result (ending ≡ CommandEnd.Done) }
    ensures err { IfErr result (λ other. (other ≡ ending) × (other ≢ CommandEnd.Done)) }
{
    match ending {
        CommandEnd::Done => Ok(()),
        other => Err(other),
    }
}

// Puts the journal of a rollout in which nothing is settled yet in the place of the one on the disk.
fn place_next<D: Disk>(alloc: Global, known: KnownPlan, disk: D) -> Retargeted<D>
    requires { known.graph.history ≡ from_nothing known.graph.rollout.problem [] }
    ensures { PlacesNext D.told known disk result.disk result.ending }
{
    let Placed { disk, answer } = place_known(alloc, known, disk);
    match answer {
        Ok(plan) => {
            drop(plan);
            Retargeted {
                ending: RetargetEnding::Ended(CommandEnd::Done),
                disk,
            }
        }
        Err(cause) => Retargeted {
            ending: RetargetEnding::Ended(CommandEnd::from(cause)),
            disk,
        },
    }
}
