//! Berths are dealt to workers.
ghost use Rattle.std.specs.Prelude.{◌≡◌, ◌==◌, ◌+◌, ◌%◌, ◌<◌, ◌≤◌, [], ◌∷◌, ◌++◌, List, false, length, reverse, slice_index_or, slice_set, vec_capacity, IfErr, IfOk, OnErr, OnOk};
ghost use Rattle.std.specs.List.{list_any};
ghost use Rattle.port_session.specs.Sessions.{first_session};
ghost use Rattle.switch_ports.specs.declared.ports.Berth.{Berth};
ghost use Rattle.switch_ports.specs.Berths.{AreApart};
ghost use Rattle.switch_ports.specs.Hands.{TakesLast, hand_count, hands};

use crate::{Berth, WorkerPorts};
use lists::Memory;
use std::alloc::Global;
use wan_edge::Port;

/// Deals berths to workers in turn: the one at place k to the worker with the number k modulo how many
/// have ports. That is as many as are asked for, at least one, and no more than there are berths.
///
/// # Errors
///
/// Where memory runs out all berths come back, in their order.
pub fn deal<T: Port + Drop>(
    alloc: Global,
    mut berths: Vec<Berth<T>>,
    workers: u32,
) -> Result<Vec<WorkerPorts<T>>, Vec<Berth<T>>>
    requires { AreApart berths.items }
    ensures ok { IfOk result
        (λ dealt. dealt.items ≡ hands (hand_count workers (length berths.items)) berths.items) }
    ensures err { IfErr result (λ back. back.items ≡ berths.items) }
{
    let count = hand_count(workers, berths.len());
    let Ok(mut dealt) = empty_hands(alloc, count) else {
        return Err(berths);
    };
    berths.reverse();
    match deal_each(alloc, &mut berths, &mut dealt) {
        Ok(()) => Ok(dealt),
        Err(_) => {
            berths.reverse();
            Err(berths)
        }
    }
}

// How many workers have ports, where there are so many berths.
fn hand_count(workers: u32, berths: usize) -> usize
    ensures { result ≡ hand_count workers berths }
{
    (workers as usize).max(1).min(berths)
}

// So many workers without ports.
fn empty_hands<T: Port + Drop>(alloc: Global, count: usize) -> Result<Vec<WorkerPorts<T>>, Memory>
    ensures { IfOk result (λ workers. workers.items ≡ hands count []) }
{
    let mut workers = Vec::with_capacity(alloc, count)?;
    for _ in 0..count {
        workers.push_reserved(WorkerPorts::new(alloc));
    }
    Ok(workers)
}

// Deals berths in turn to workers without ports, from the last one on. Where memory runs out they are all
// taken back.
fn deal_each<T: Port + Drop>(
    alloc: Global,
    left: &mut Vec<Berth<T>>,
    workers: &mut Vec<WorkerPorts<T>>,
) -> Result<(), Memory>
    requires some { 0 < length left.old.items → 0 < length workers.old.items }
    requires apart { AreApart (reverse left.old.items) }
    requires fresh { workers.old.items ≡ hands (length workers.old.items) [] }
    ensures ok { OnOk result
        (workers.new.items ≡ hands (length workers.old.items) (reverse left.old.items)) }
    ensures err { OnErr result (left.new.items ≡ left.old.items) }
{
    let mut dealt = 0;
    while let Some(berth) = left.pop() {
        if let Err(berth) = deal_one(alloc, workers, dealt, berth) {
            left.push_reserved(berth);
            take_back(left, workers, dealt);
            return Err(Memory);
        }
        dealt += 1;
    }
    Ok(())
}

// Gives the worker whose turn it is at this place the port of a berth, which comes back where memory runs
// out.
fn deal_one<T: Port + Drop>(
    alloc: Global,
    workers: &mut Vec<WorkerPorts<T>>,
    place: usize,
    berth: Berth<T>,
) -> Result<(), Berth<T>>
    requires some { 0 < length workers.old.items }
    requires new { list_any (λ t. berth.switch == t.switch)
        (slice_index_or workers.old.items (place % length workers.old.items) [])
        ≡ false }
    ensures ok { OnOk result
        (workers.new.items
        ≡ slice_set workers.old.items (place % length workers.old.items)
        (slice_index_or workers.old.items (place % length workers.old.items) []
        ++ first_session berth.switch berth.port
        ∷ [])) }
    ensures err { IfErr result (λ back. (back ≡ berth) × (workers.new.items ≡ workers.old.items)) }
{
    let worker = place % workers.len();
    let Berth { switch, port } = berth;
    match workers[worker].add(alloc, switch, port) {
        Ok(()) => Ok(()),
        Err(port) => Err(Berth { switch, port }),
    }
}

// Takes so many berths back that were dealt in turn, the last one first.
fn take_back<T: Port + Drop>(
    left: &mut Vec<Berth<T>>,
    workers: &mut Vec<WorkerPorts<T>>,
    dealt: usize,
)
    requires some { 0 < dealt → 0 < length workers.old.items }
    requires dealt { (berths : List (Berth T))
        × (length berths ≡ dealt)
        × (workers.old.items ≡ hands (length workers.old.items) berths) }
    requires room { length left.old.items + dealt ≤ vec_capacity left.old }
    ensures { (berths : List (Berth T))
        → length berths ≡ dealt
        → workers.old.items ≡ hands (length workers.old.items) berths
        → left.new.items ≡ left.old.items ++ reverse berths }
{
    let mut place = dealt;
    while 0 < place {
        place -= 1;
        left.push_reserved(take_one(workers, place));
    }
}

// Takes the last port of the worker whose turn it was at this place.
fn take_one<T: Port + Drop>(workers: &mut Vec<WorkerPorts<T>>, place: usize) -> Berth<T>
    requires some { 0 < length workers.old.items }
    requires there { 0
        < length (slice_index_or workers.old.items (place % length workers.old.items) []) }
    ensures { TakesLast workers.old.items (place % length workers.old.items) result
        workers.new.items }
{
    let turn = place % workers.len();
    let Some(berth) = workers[turn].take() else {
        unreachable!()
    };
    berth
}
