//! Rounds of a book in one thread, alone or as a seat of a shared book, over a disk in memory. Standard input
//! is a document.
ghost use Rattle.std.specs.Prelude.{◌≡◌, [], IfSome};
ghost use Rattle.rollout_rules.specs.History.{from_nothing};
ghost use Rattle.wan_edge.specs.Frames.{Answer};
ghost use Rattle.order_policy.specs.Answers.{rank_by};
ghost use Rattle.rollout_book.specs.Lists.{IsKeptList};
ghost use Rattle.turn_lock.specs.Passes.{IsPassOf, IsSamePass};
ghost use Rattle.shared_book.specs.Calls.{IsCounted};
ghost use Rattle.shared_book.specs.Images.{StandsSo};
ghost use Rattle.shared_book.specs.Opened.{IsOpened, IsOpenedOn, opening_of};

use crate::rollout;
use anyhow::{Result, bail};
use dependency_graph::Graph;
use disk_model::{Disk, MemoryDisk};
use fixtures::{as_heard, open_book};
use intent_journal::digest_of;
use order_policy::Policy;
use rollout_book::{Book, CommandList, Turn};
use shared_book::{BookPass, Listed, Marker, RoundReply, SharedBook};
use std::alloc::{AllocError, Global};
use std::marker::Brand;
use std::sync::Wait;
use wan_edge::{Nums8, Turns};
use wan_model::{CheckedPlan, OpView};
use wire_frames::{Answer, Command};

/// What the rounds are made of.
#[derive(Clone, Copy, PartialEq, Eq)]
pub(crate) enum Guard {
    /// A book that nothing is shared of.
    Alone,
    /// A shared book with one seat.
    Shared,
}

/// So many rounds, with the answers to all commands where they are led, and else with none.
#[derive(Clone, Copy)]
pub(crate) struct Load {
    guard: Guard,
    led: bool,
    rounds: u32,
}

impl Load {
    pub(crate) fn new(guard: &str, answers: &str, rounds: u32) -> Result<Load> {
        Ok(Load {
            guard: guard_named(guard)?,
            led: is_led(answers)?,
            rounds,
        })
    }
}

fn guard_named(word: &str) -> Result<Guard> {
    match word {
        "alone" => Ok(Guard::Alone),
        "shared" => Ok(Guard::Shared),
        _ => bail!("alone or shared"),
    }
}

fn is_led(word: &str) -> Result<bool> {
    match word {
        "led" => Ok(true),
        "idle" => Ok(false),
        _ => bail!("led or idle"),
    }
}

/// The rounds, and the switches of which all commands are listed.
#[derive(Clone, Copy)]
struct Work<'a> {
    load: Load,
    switches: &'a [u32],
}

/// Prints how many operations the rounds of the document's rollout have ended.
pub(crate) fn measure<R: Wait + AllocGlobal + Print>(
    rt: &R,
    document: Vec<u8>,
    load: Load,
) -> Result<()> {
    let dones = dones_ranked(rt, rt.alloc(), document.as_slice(), load);
    drop(document);
    let dones = dones?;
    println!(rt; "dones {dones}")?;
    Ok(())
}

// The numbers of all switches.
fn switches_of(alloc: Global, plan: &CheckedPlan) -> Result<Vec<u32>, AllocError> {
    let mut switches = Vec::new(alloc);
    for switch in 0..plan.problem().switches().len() as u32 {
        switches.push(switch)?;
    }
    Ok(switches)
}

// The policy ranks all alike.
fn dones_ranked<R: Wait>(rt: &R, alloc: Global, document: &[u8], load: Load) -> Result<u64> {
    let alike: Box<dyn Fn(OpView) -> u64 + Send + Sync> = Box::new(
        alloc,
        |_view: OpView| -> u64
            ensures { result ≡ 0 }
        { 0 },
    )?;
    let policy = Policy::new(alike);
    dones_by(rt, alloc, document, &policy, load)
}

// The same by a policy.
fn dones_by<R: Wait>(
    rt: &R,
    alloc: Global,
    document: &[u8],
    policy: &Policy,
    load: Load,
) -> Result<u64> {
    let graph = rollout::graph(alloc, document)?;
    match switches_of(alloc, graph.plan()) {
        Ok(switches) => {
            let switches = switches.as_slice();
            dones_over(rt, alloc, graph, policy, Work { load, switches })
        }
        Err(_) => {
            drop(graph);
            bail!("memory is short")
        }
    }
}

fn dones_over<R: Wait>(
    rt: &R,
    alloc: Global,
    graph: Graph,
    policy: &Policy,
    work: Work<'_>,
) -> Result<u64>
    requires empty { graph.history ≡ from_nothing graph.rollout.problem [] }
{
    let disk = MemoryDisk::new(alloc, Nums8::new(alloc), Turns::new(alloc));
    dones_from(rt, alloc, graph, policy, disk, work)
}

fn dones_from<R: Wait, D: Disk + Drop>(
    rt: &R,
    alloc: Global,
    graph: Graph,
    policy: &Policy,
    disk: D,
    work: Work<'_>,
) -> Result<u64>
    requires empty { graph.history ≡ from_nothing graph.rollout.problem [] }
{
    match open_book(alloc, graph, &digest_of("problem", "plan", 0), policy, disk) {
        Ok(book) => dones_of(rt, alloc, book, work),
        Err(unopened) => {
            drop(unopened);
            bail!("no book is open")
        }
    }
}

fn dones_of<R: Wait, D: Disk + Drop>(
    rt: &R,
    alloc: Global,
    book: Book<'_, D>,
    work: Work<'_>,
) -> Result<u64>
    requires opened { IsOpened (opening_of book.chronicle (rank_by book.policy.now.answers))
        book.chronicle }
    requires has { IfSome (D.told book.chronicle.disk).bytes
        (IsKeptList book.chronicle.history.start book.chronicle.entries
        (D.told book.chronicle.disk).may_leave) }
{
    let (book, dones) = match work.load.guard {
        Guard::Alone => roll_alone(alloc, book, work),
        Guard::Shared => roll_opened(rt, alloc, book, work),
    };
    drop(book);
    Ok(dones)
}

fn roll_alone<'d, D: Disk>(alloc: Global, book: Book<'d, D>, work: Work<'_>) -> (Book<'d, D>, u64) {
    let mut book = book;
    let dones = rounds_alone(alloc, &mut book, work);
    (book, dones)
}

// Rounds of a book alone, and how many operations they end.
fn rounds_alone<D: Disk>(alloc: Global, book: &mut Book<'_, D>, work: Work<'_>) -> u64 {
    let mut answers = Vec::new(alloc);
    let mut dones = 0_u64;
    for _round in 0..work.load.rounds {
        dones = dones.wrapping_add(round_alone(book, answers.as_slice()));
        if work.load.led {
            answers = list_answers(alloc, book, work.switches);
        }
    }
    dones
}

fn round_alone<D: Disk>(book: &mut Book<'_, D>, answers: &[Answer]) -> u64 {
    if !book.live() {
        return 0;
    }
    match book.round(answers) {
        Ok(Turn { dones, .. }) => u64::from(dones),
        Err(_) => 0,
    }
}

// The answers to all commands of a book; none where memory runs out.
fn list_answers<D: Disk>(alloc: Global, book: &Book<'_, D>, switches: &[u32]) -> Vec<Answer> {
    let mut commands = CommandList::new(alloc);
    let _ = book.commands(alloc, switches, &mut commands);
    answers_to(alloc, commands.as_slice())
}

fn answers_to(alloc: Global, commands: &[Command]) -> Vec<Answer> {
    let mut answers = Vec::new(alloc);
    for command in commands {
        let _ = answers.push(Answer {
            item: command.item,
            held: command.number,
        });
    }
    answers
}

fn roll_opened<'d, R: Wait, D: Disk>(
    rt: &R,
    alloc: Global,
    book: Book<'d, D>,
    work: Work<'_>,
) -> (Book<'d, D>, u64)
    requires opened { IsOpened (opening_of book.chronicle (rank_by book.policy.now.answers))
        book.chronicle }
    requires has { IfSome (D.told book.chronicle.disk).bytes
        (IsKeptList book.chronicle.history.start book.chronicle.entries
        (D.told book.chronicle.disk).may_leave) }
{
    roll_named::<R, D, Brand>(rt, alloc, book, work)
}

// Rounds of a seat, under the name of the book's opening.
fn roll_named<'d, R: Wait, D: Disk, M: Marker>(
    rt: &R,
    alloc: Global,
    book: Book<'d, D>,
    work: Work<'_>,
) -> (Book<'d, D>, u64)
    requires opened { IsOpenedOn D.told M.opening M.moment M.faults book.chronicle }
    requires stood { StandsSo M.stood (D.told book.chronicle.disk) }
    requires policy { M.opening.policy ≡ rank_by book.policy.now.answers }
    requires any { (answer : Answer) → M.heard answer }
    requires seats { M.seats ≡ 1 }
{
    match SharedBook::<D, M>::new(alloc, book, 1) {
        Ok((shared, pass)) => {
            let (pass, dones) = rounds_shared(rt, alloc, &shared, pass, work);
            let (book, notes, _halt) = shared.close(pass);
            drop(notes);
            (book, dones)
        }
        Err(book) => (book, 0),
    }
}

// Rounds of a seat, and how many operations they end.
fn rounds_shared<R: Wait, D: Disk, M: Marker>(
    rt: &R,
    alloc: Global,
    book: &SharedBook<'_, D, M>,
    mut pass: BookPass<D, M>,
    work: Work<'_>,
) -> (BookPass<D, M>, u64)
    requires policy { M.opening.policy ≡ rank_by book.now.policy.now.answers }
    requires any { (answer : Answer) → M.heard answer }
    requires lock { IsPassOf book.now.lock pass.pass }
    requires calls { IsCounted pass.calls pass.pass }
    ensures lock { IsPassOf book.now.lock result.0.pass }
    ensures same { IsSamePass pass.pass result.0.pass }
{
    let mut answers = Vec::new(alloc);
    let mut dones = 0_u64;
    for _round in 0..work.load.rounds {
        let (after, ended) = round_shared(rt, alloc, book, pass, work, &mut answers);
        pass = after;
        dones = dones.wrapping_add(ended);
    }
    (pass, dones)
}

fn round_shared<R: Wait, D: Disk, M: Marker>(
    rt: &R,
    alloc: Global,
    book: &SharedBook<'_, D, M>,
    pass: BookPass<D, M>,
    work: Work<'_>,
    answers: &mut Vec<Answer>,
) -> (BookPass<D, M>, u64)
    requires policy { M.opening.policy ≡ rank_by book.now.policy.now.answers }
    requires any { (answer : Answer) → M.heard answer }
    requires lock { IsPassOf book.now.lock pass.pass }
    requires calls { IsCounted pass.calls pass.pass }
    ensures lock { IsPassOf book.now.lock result.0.pass }
    ensures calls { IsCounted result.0.calls result.0.pass }
    ensures same { IsSamePass pass.pass result.0.pass }
{
    let Ok(heard) = as_heard(alloc, answers.as_slice()) else {
        return (pass, 0);
    };
    let (pass, reply) = book.round(rt, pass, heard);
    let dones = ended_by(reply);
    if !work.load.led {
        return (pass, dones);
    }
    let mut commands = Listed::new(alloc);
    let (pass, _listed) = book.commands(rt, alloc, pass, work.switches, &mut commands);
    *answers = answers_to(alloc, commands.commands());
    (pass, dones)
}

fn ended_by(reply: RoundReply) -> u64 {
    match reply {
        RoundReply::Turned(Turn { dones, .. }) => u64::from(dones),
        _ => 0,
    }
}
