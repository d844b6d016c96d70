//! The journaled rounds of a rollout are opened on its disk. Which policy it is run under follows from what is found.
ghost use Rattle.std.specs.Prelude.{◌≡◌, [], IfErr, IfOk};
ghost use Rattle.rollout_rules.specs.History.{from_nothing};
ghost use Rattle.intent_journal.specs.Openings.{IsLeft, IsOpenedFrom};
ghost use Rattle.rollout_book.specs.JournaledRounds.{graph_of, IsNewBook};
ghost use Rattle.rollout_report.specs.Journals.{digest_for};

use disk_model::Disk;
use intent_journal::{JournalFault, Unopened};
use rollout_book::JournaledRounds;
use rollout_report::{KnownPlan, known_plan};
use std::alloc::Global;
use wan_model::CheckedPlan;

/// Opens the rounds of a plan with their journal, as a migration of this number. Where it isn't opened, the disk comes back.
pub(crate) fn open_rounds<D: Disk>(
    alloc: Global,
    plan: CheckedPlan,
    migration: u32,
    disk: D,
) -> Result<JournaledRounds<D>, Unopened<D>>
    ensures opened { IfOk result
        (λ book. IsOpenedFrom D.told plan (digest_for plan migration) disk (graph_of book)
        book.entries book.disk) }
    ensures book { IfOk result (λ book. IsNewBook D.told book) }
    ensures left { IfErr result
        (λ unopened. IsLeft D.told plan (digest_for plan migration) disk unopened.cause
        unopened.disk) }
{
    match known_plan(alloc, plan, migration) {
        Ok(known) => open_known(alloc, known, disk),
        Err(_) => Err(Unopened {
            disk,
            cause: JournalFault::Memory,
        }),
    }
}

// The same, of a journal that is known as this.
fn open_known<D: Disk>(
    alloc: Global,
    known: KnownPlan,
    disk: D,
) -> Result<JournaledRounds<D>, Unopened<D>>
    requires empty { known.graph.history ≡ from_nothing known.graph.rollout.problem [] }
    ensures opened { IfOk result
        (λ book. IsOpenedFrom D.told known.graph.rollout known.digest disk (graph_of book)
        book.entries book.disk) }
    ensures book { IfOk result (λ book. IsNewBook D.told book) }
    ensures left { IfErr result
        (λ unopened. IsLeft D.told known.graph.rollout known.digest disk unopened.cause
        unopened.disk) }
{
    let KnownPlan { graph, digest } = known;
    JournaledRounds::open(alloc, graph, &digest, disk)
}
