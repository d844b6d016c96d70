//! A rollout's book is opened on its disk.
ghost use Rattle.std.specs.Prelude.{◌≡◌, [], IfErr, IfOk, IfSome};
ghost use Rattle.rollout_rules.specs.History.{from_nothing};
ghost use Rattle.intent_journal.specs.Openings.{IsLeft, IsOpenedFrom};
ghost use Rattle.order_policy.specs.Answers.{rank_by};
ghost use Rattle.rollout_book.specs.JournaledRounds.{graph_of, IsNewBook};
ghost use Rattle.rollout_book.specs.Lists.{IsKeptList};
ghost use Rattle.shared_book.specs.Opened.{IsOpened, opening_of};
ghost use Rattle.rollout_report.specs.Journals.{digest_for};

use disk_model::Disk;
use intent_journal::{JournalFault, Unopened};
use order_policy::Policy;
use rollout_book::Book;
use rollout_report::{KnownPlan, known_plan};
use std::alloc::Global;
use wan_model::CheckedPlan;

/// Opens the book of a plan, as a migration of this number. Where it isn't opened, the disk comes back.
pub(crate) fn open_book<'d, D: Disk>(
    alloc: Global,
    plan: CheckedPlan,
    migration: u32,
    policy: &'d Policy,
    disk: D,
) -> Result<Book<'d, D>, Unopened<D>>
    ensures policy { IfOk result (λ book. book.policy.now ≡ policy.now) }
    ensures opened { IfOk result
        (λ book. IsOpenedFrom D.told plan (digest_for plan migration) disk (graph_of book.chronicle)
        book.chronicle.entries book.chronicle.disk) }
    ensures book { IfOk result (λ book. IsNewBook D.told book.chronicle) }
    ensures opening { IfOk result
        (λ book. IsOpened (opening_of book.chronicle (rank_by book.policy.now.answers))
        book.chronicle) }
    ensures has { IfOk result
        (λ book. IfSome (D.told book.chronicle.disk).bytes
        (IsKeptList book.chronicle.history.start book.chronicle.entries
        (D.told book.chronicle.disk).may_leave)) }
    ensures left { IfErr result
        (λ unopened. IsLeft D.told plan (digest_for plan migration) disk unopened.cause
        unopened.disk) }
{
    match known_plan(alloc, plan, migration) {
        Ok(known) => open_known(alloc, known, policy, disk),
        Err(_) => Err(Unopened {
            disk,
            cause: JournalFault::Memory,
        }),
    }
}

// The same, of a journal that is known as this.
fn open_known<'d, D: Disk>(
    alloc: Global,
    known: KnownPlan,
    policy: &'d Policy,
    disk: D,
) -> Result<Book<'d, D>, Unopened<D>>
    requires empty { known.graph.history ≡ from_nothing known.graph.rollout.problem [] }
    ensures policy { IfOk result (λ book. book.policy.now ≡ policy.now) }
    ensures opened { IfOk result
        (λ book. IsOpenedFrom D.told known.graph.rollout known.digest disk
        (graph_of book.chronicle) book.chronicle.entries book.chronicle.disk) }
    ensures book { IfOk result (λ book. IsNewBook D.told book.chronicle) }
    ensures opening { IfOk result
        (λ book. IsOpened (opening_of book.chronicle (rank_by book.policy.now.answers))
        book.chronicle) }
    ensures has { IfOk result
        (λ book. IfSome (D.told book.chronicle.disk).bytes
        (IsKeptList book.chronicle.history.start book.chronicle.entries
        (D.told book.chronicle.disk).may_leave)) }
    ensures left { IfErr result
        (λ unopened. IsLeft D.told known.graph.rollout known.digest disk unopened.cause
        unopened.disk) }
{
    let KnownPlan { graph, digest } = known;
    Book::open(alloc, graph, &digest, policy, disk)
}
