//! A port for one term, over one that gives answers after two floors, and a fleet of such ports.

ghost use Rattle.std.specs.Prelude.{◌≡◌, ◌<◌, true};

use fenced_ports::{FencedFleet, FencedPort, OneTerm};
use fenced_wire::write_floored;
use lists::{Memory, Text};
use lossy_link::{MemoryFleet, NoisePort};
use std::alloc::Global;
use std::test::Fail;
use wan_edge::{Fleet, Nums8, Port};
use wire_frames::Answer;

fn answer(held: u32) -> Answer {
    Answer { item: 0, held }
}

// An answer after floor 1, and one after floor 2.
fn noise(alloc: Global) -> Result<Nums8, Memory> {
    let mut bytes = Nums8::new(alloc);
    bytes.extend_from_slice(&write_floored(1, &answer(0), 0))?;
    bytes.extend_from_slice(&write_floored(2, &answer(1), 0))?;
    Ok(bytes)
}

// How many of fifteen hears gave something, and how many nothing, where none fails.
fn count_heard<P: Port>(port: &mut P) -> Option<[u32; 2]> {
    let mut into = [0; 4];
    let mut some: u32 = 0;
    let mut none: u32 = 0;
    for _ in 0..15 {
        match port.hear(&mut into) {
            Ok(0) => none = none.saturating_add(1),
            Ok(_) => some = some.saturating_add(1),
            Err(_) => return None,
        }
    }
    Some([some, none])
}

// The same by a controller of a term.
fn heard_by(alloc: Global, term: u32) -> Result<Option<[u32; 2]>, Memory>
    requires { 0 < term }
{
    let mut port = FencedPort::new(alloc, NoisePort::new(noise(alloc)?), term);
    let told = count_heard(&mut port);
    drop(port);
    Ok(told)
}

// To term 2 the first answer counts as nothing, and the second is given, and then nothing is left. Term 1 hears
// the first one, and then a floor above it.
#[test]
fn an_answer_is_heard_by_the_controller_of_its_floor(rt: HostRuntime) -> Result<(), Fail> {
    assert!(rt; heard_by(rt.alloc(), 2)? == Some([13, 2]));
    assert!(rt; heard_by(rt.alloc(), 1)? == None);
    Ok(())
}

// What a port of switch 0 hears, which is given back then; none where there is no such port.
fn heard_at<F: Fleet>(fleet: &mut F) -> Option<[u32; 2]> {
    match fleet.port(0, "A") {
        Ok(port) => heard_over(fleet, port),
        Err(_) => None,
    }
}

fn heard_over<F: Fleet>(fleet: &mut F, mut port: F::Port) -> Option<[u32; 2]>
    requires { (F.told fleet.old).lent 0 ≡ true }
{
    let told = count_heard(&mut port);
    fleet.keep(0, port);
    told
}

fn heard_in_fleet(alloc: Global) -> Result<Option<[u32; 2]>, Memory> {
    let mut fleet = MemoryFleet::new(alloc);
    match put_noise(alloc, &mut fleet) {
        Ok(()) => Ok(heard_over_two(alloc, fleet)),
        Err(error) => {
            drop(fleet);
            Err(error)
        }
    }
}

fn put_noise(alloc: Global, fleet: &mut MemoryFleet<NoisePort>) -> Result<(), Memory> {
    fleet.call(0, Text::from(String::from_str(alloc, "A")?))?;
    fleet.put(0, NoisePort::new(noise(alloc)?))
}

// The same over a fleet, by a controller of term 2.
fn heard_over_two(alloc: Global, fleet: MemoryFleet<NoisePort>) -> Option<[u32; 2]> {
    let mut fenced = FencedFleet::new(alloc, fleet, 2);
    let told = heard_at(&mut fenced);
    drop(fenced);
    told
}

fn term_of<F: OneTerm>(fleet: &F) -> u32 {
    fleet.named_term()
}

fn term_of_fleet(alloc: Global) -> u32 {
    let fleet: MemoryFleet<NoisePort> = MemoryFleet::new(alloc);
    let fenced = FencedFleet::new(alloc, fleet, 2);
    let term = term_of(&fenced);
    drop(fenced);
    term
}

// A fleet for term 2 gives such a port.
#[test]
fn a_fleet_gives_ports_for_its_term(rt: HostRuntime) -> Result<(), Fail> {
    assert!(rt; heard_in_fleet(rt.alloc())? == Some([13, 2]));
    assert!(rt; term_of_fleet(rt.alloc()) == 2);
    Ok(())
}
