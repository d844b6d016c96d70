ghost use Rattle.std.specs.Prelude.{◌≡◌, [], IfErr, IfOk, IfSome};
ghost use Rattle.rollout_rules.specs.History.{from_nothing};
ghost use Rattle.intent_journal.specs.Openings.{IsLeft, IsOpenedOn};
ghost use Rattle.intent_journal.specs.Verdicts.{verdict};
ghost use Rattle.intent_journal.specs.declared.fault.JournalFault.TheVariants as fault;
ghost use Rattle.rollout_report.specs.Journals.{Tells, digest_for, journal_report, text_before, told_by};

use crate::History;
use crate::known::{KnownPlan, known_plan};
use crate::reporting::report;
use crate::starts::start_before;
use dependency_graph::Graph;
use disk_model::Disk;
use intent_journal::{Digest, JournalFault, recover};
use lists::Text;
use rollout_rules::Entry;
use std::alloc::Global;
use wan_model::CheckedPlan;

/// What a report of a journal comes to: its text, or why there is none, and the disk.
#[derive(Drop)]
pub struct Reported<D> {
    pub disk: D,
    pub answer: Result<Text, JournalFault>,
}

/// The report of the journal on a disk, which is opened as for a rollout: one is made where there is none
/// yet, and what was found is written anew; after it each image that a crash may leave keeps the list. A
/// journal that is refused is left as it was.
pub fn report_journal<D: Disk>(
    alloc: Global,
    plan: CheckedPlan,
    migration: u32,
    disk: D,
) -> Reported<D>
    ensures tells { IfSome (D.told disk).bytes
        (λ image. Tells result.answer (journal_report plan migration image)) }
    ensures opened { IfOk result.answer
        (λ _. IsOpenedOn D.told plan (digest_for plan migration) disk result.disk) }
    ensures left { IfErr result.answer
        (λ cause. IsLeft D.told plan (digest_for plan migration) disk cause result.disk) }
{
    match known_plan(alloc, plan, migration) {
        Ok(known) => report_known(alloc, known, disk),
        Err(_) => Reported {
            disk,
            answer: Err(JournalFault::Memory),
        },
    }
}

/// The report of the journal on a disk that is known as this.
fn report_known<D: Disk>(alloc: Global, known: KnownPlan, disk: D) -> Reported<D>
    requires empty { known.graph.history ≡ from_nothing known.graph.rollout.problem [] }
    ensures tells { IfSome (D.told disk).bytes
        (λ image. Tells result.answer
        (told_by known.graph.rollout known.digest
        (verdict known.graph.rollout known.digest image))) }
    ensures opened { IfOk result.answer
        (λ _. IsOpenedOn D.told known.graph.rollout known.digest disk result.disk) }
    ensures left { IfErr result.answer
        (λ cause. IsLeft D.told known.graph.rollout known.digest disk cause result.disk) }
{
    let KnownPlan { graph, digest } = known;
    let mut graph = graph;
    let reported = follow(alloc, &mut graph, &digest, disk);
    drop(graph);
    reported
}

/// Brings a graph without entries to the journal on a disk, and reports it.
fn follow<D: Disk>(alloc: Global, graph: &mut Graph, digest: &Digest, disk: D) -> Reported<D>
    requires empty { graph.old.history ≡ from_nothing graph.old.rollout.problem [] }
    ensures tells { IfSome (D.told disk).bytes
        (λ image. Tells result.answer
        (told_by graph.old.rollout digest.now (verdict graph.old.rollout digest.now image))) }
    ensures opened { IfOk result.answer
        (λ _. IsOpenedOn D.told graph.old.rollout digest.now disk result.disk) }
    ensures left { IfErr result.answer
        (λ cause. IsLeft D.told graph.old.rollout digest.now disk cause result.disk) }
{
    match recover(alloc, disk, digest, graph) {
        Ok((journal, list)) => Reported {
            disk: journal.into_disk(),
            answer: text_of(alloc, graph, list.as_slice()),
        },
        Err(unopened) => Reported {
            disk: unopened.disk,
            answer: Err(unopened.cause),
        },
    }
}

/// The report of a graph's history, of which these are the entries.
fn text_of(alloc: Global, graph: &Graph, entries: &[Entry]) -> Result<Text, JournalFault>
    ensures ok { IfOk result (λ text. text ≡ text_before graph.now entries.now) }
    ensures err { IfErr result (λ cause. cause ≡ fault.Memory) }
{
    let start = start_before(alloc, graph, entries)?;
    Ok(report(alloc, graph.plan(), &History::new(&start, entries))?)
}
