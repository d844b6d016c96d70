//! A rollout is levelled: at the stage to which it has come, or at the first one at which it may turn.
ghost use Rattle.std.specs.Prelude.{◌≡◌, ◌≤◌, ℕ, IfErr, IfOk, IfSome, IsTrue};
ghost use Rattle.rollout_rules.specs.Network.{IsNetwork};
ghost use Rattle.rollout_rules.specs.Valid.{is_valid_plan};
ghost use Rattle.intent_journal.specs.Openings.{IsLeft};
ghost use Rattle.order_policy.specs.Answers.{rank_by};
ghost use Rattle.wan_edge.specs.Streams.{Rose};
ghost use Rattle.wan_edge.specs.Fleets.{GuestsStay};
ghost use Rattle.rollout_book.specs.JournaledRounds.{IsNewBook};
ghost use Rattle.rollout_book.specs.Lists.{IsKeptList};
ghost use Rattle.shared_book.specs.Opened.{IsOpened, opening_of};
ghost use Rattle.switch_ports.specs.Berths.{ports_of};
ghost use Rattle.rollout_report.specs.Journals.{digest_for};
ghost use Rattle.rollback_plan.specs.Levels as levels;
ghost use Rattle.rollback_service.specs.Levellings.{HasLevelled, HasRunAt, HasRunLevelling, HasRunUnder, LacksPort, MayStart};

use crate::answer::{LevelAnswer, answer_behind};
use crate::opening::open_rounds;
use crate::origin::BackFrom;
use crate::turn::{Turn, turn_of};
use crate::unrun::unrun;
use controller_run::{Limits, RolloutResult, run_book};
use dependency_graph::checked_plan_is_valid;
use disk_model::Disk;
use intent_journal::Unopened;
use lists::Ids;
use order_policy::Policy;
use rollback_plan::levelling_rank;
use rollout_book::{Book, JournaledRounds};
use std::alloc::Global;
use std::sync::Wait;
use std::thread::Threads;
use wan_edge::Fleet;
use wan_model::{CheckedPlan, OpView};

/// What levelling comes to: the disk, and how it went.
#[derive(Drop)]
pub struct Levelled<D> {
    pub disk: D,
    pub answer: LevelAnswer,
}

/// Levels the rollout of a plan. Its journal is opened on the disk, or made where there is none yet; the stage
/// is the greatest one to which an operation leads that was begun, or the first one at which the rollout may
/// turn; and the rollout is run over the fleet's ports, longer chains first, with each operation held back of
/// what stands at that stage or past it. What is in flight ends, and what stands before the stage comes there.
/// The disk comes back with every answer. A journal that is refused is left as it was, and then no port is
/// opened.
pub fn run_levelling<R: Wait + Threads + Sync, D: Disk + Drop + Send, F: Fleet>(
    rt: &R,
    alloc: Global,
    plan: CheckedPlan,
    origin: BackFrom,
    limits: Limits,
    disk: D,
    fleet: &mut F,
) -> Result<Levelled<D>, Unopened<D>>
where
    F::Port: Drop + Send,
    ensures levelled { IfOk result
        (λ levelled. HasLevelled D.told F.Port.told origin plan
        (digest_for plan limits.migration) limits.rounds disk (ports_of (F.told fleet.old))
        (ports_of (F.told fleet.new)) levelled.disk levelled.answer) }
    ensures start { IfOk result (λ levelled. MayStart levelled.answer) }
    ensures left { IfErr result
        (λ unopened. IsLeft D.told plan (digest_for plan limits.migration) disk unopened.cause
        unopened.disk) }
    ensures untouched { IfErr result (λ _. fleet.new ≡ fleet.old) }
    ensures guests { GuestsStay (F.told fleet.old) (F.told fleet.new) }
    ensures no_port { IfOk result
        (λ levelled. (switch : ℕ)
        → LacksPort levelled.answer switch
        → Rose (F.told fleet.old).faults (F.told fleet.new).faults) }
    ensures count { (F.told fleet.old).faults ≤ (F.told fleet.new).faults }
{
    checked_plan_is_valid(&plan);
    match open_rounds(alloc, plan, limits.migration, disk) {
        Ok(chronicle) => Ok(level(rt, alloc, chronicle, origin, fleet, limits)),
        Err(unopened) => Err(unopened),
    }
}

// Levels the rollout of journaled rounds that were opened. Without memory to find out how far, nothing is begun.
fn level<R: Wait + Threads + Sync, D: Disk + Drop + Send, F: Fleet>(
    rt: &R,
    alloc: Global,
    chronicle: JournaledRounds<D>,
    origin: BackFrom,
    fleet: &mut F,
    limits: Limits,
) -> Levelled<D>
where
    F::Port: Drop + Send,
    requires { IsNewBook D.told chronicle }
    ensures levelled { HasRunLevelling D.told F.Port.told origin limits.migration limits.rounds
        chronicle (ports_of (F.told fleet.old)) (ports_of (F.told fleet.new)) result.disk
        result.answer }
    ensures guests { GuestsStay (F.told fleet.old) (F.told fleet.new) }
    ensures no_port { (switch : ℕ)
        → LacksPort result.answer switch
        → Rose (F.told fleet.old).faults (F.told fleet.new).faults }
    ensures count { (F.told fleet.old).faults ≤ (F.told fleet.new).faults }
{
    plan_is_valid(&chronicle);
    match turn_of(alloc, chronicle.graph(), origin) {
        Ok(turn) => {
            let Turn { stage, start } = turn;
            level_at(rt, alloc, chronicle, stage, start, fleet, limits)
        }
        Err(_) => {
            let RolloutResult { disk, outcome } = unrun(chronicle);
            Levelled {
                disk,
                answer: LevelAnswer::Unlevel(outcome),
            }
        }
    }
}

// What the plan's type keeps.
fn plan_is_valid<D: Disk>(chronicle: &JournaledRounds<D>)
    ensures network { IsNetwork chronicle.now.rollout.problem }
    ensures valid { IsTrue (is_valid_plan chronicle.now.rollout.problem
        chronicle.now.rollout.plan) }
{
    let graph = chronicle.graph();
    checked_plan_is_valid(graph.plan());
}

// Levels it at a stage, under a policy that is made here and lent: longer chains first, and nothing of what
// stands at the stage or past it. Without memory for it nothing is begun.
fn level_at<R: Wait + Threads + Sync, D: Disk + Drop + Send, F: Fleet>(
    rt: &R,
    alloc: Global,
    chronicle: JournaledRounds<D>,
    stage: u32,
    start: Ids,
    fleet: &mut F,
    limits: Limits,
) -> Levelled<D>
where
    F::Port: Drop + Send,
    requires { IsNewBook D.told chronicle }
    ensures run { HasRunAt D.told F.Port.told stage start limits.migration limits.rounds chronicle
        (ports_of (F.told fleet.old)) (ports_of (F.told fleet.new)) result.disk result.answer }
    ensures guests { GuestsStay (F.told fleet.old) (F.told fleet.new) }
    ensures no_port { (switch : ℕ)
        → LacksPort result.answer switch
        → Rose (F.told fleet.old).faults (F.told fleet.new).faults }
    ensures count { (F.told fleet.old).faults ≤ (F.told fleet.new).faults }
{
    match Box::new(
        alloc,
        move |view: OpView| -> u64
            ensures { result ≡ levels.levelling stage view }
        { levelling_rank(stage, view) },
    ) {
        Ok(closure) => {
            let ask: Box<dyn Fn(OpView) -> u64 + Send + Sync> = closure;
            let policy = Policy::holding(ask);
            let book = Book {
                chronicle,
                policy: &policy,
            };
            level_under(rt, alloc, book, start, fleet, limits)
        }
        Err(_) => {
            let RolloutResult { disk, outcome } = unrun(chronicle);
            Levelled {
                disk,
                answer: LevelAnswer::Unlevel(outcome),
            }
        }
    }
}

// Runs a book whose policy levels at a stage, and takes it apart.
fn level_under<R: Wait + Threads + Sync, D: Disk + Drop + Send, F: Fleet>(
    rt: &R,
    alloc: Global,
    book: Book<'_, D>,
    start: Ids,
    fleet: &mut F,
    limits: Limits,
) -> Levelled<D>
where
    F::Port: Drop + Send,
    requires opened { IsOpened (opening_of book.chronicle (rank_by book.policy.now.answers))
        book.chronicle }
    requires has { IfSome (D.told book.chronicle.disk).bytes
        (IsKeptList book.chronicle.history.start book.chronicle.entries
        (D.told book.chronicle.disk).may_leave) }
    ensures run { HasRunUnder D.told F.Port.told (rank_by book.entry.policy.now.answers)
        limits.migration limits.rounds book.entry.chronicle start (ports_of (F.told fleet.old))
        (ports_of (F.told fleet.new)) result.disk result.answer }
    ensures guests { GuestsStay (F.told fleet.old) (F.told fleet.new) }
    ensures no_port { (switch : ℕ)
        → LacksPort result.answer switch
        → Rose (F.told fleet.old).faults (F.told fleet.new).faults }
    ensures count { (F.told fleet.old).faults ≤ (F.told fleet.new).faults }
{
    let RolloutResult { disk, outcome } = run_book(rt, alloc, book, fleet, limits);
    Levelled {
        disk,
        answer: answer_behind(outcome, start),
    }
}
