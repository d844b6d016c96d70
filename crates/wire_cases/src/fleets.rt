use lists::{Memory, Text};
use lossy_link::{MemoryFleet, MemoryGuest, SilentPort};
use std::alloc::Global;
use std::test::Fail;
use wan_edge::{Fleet, MemorySink, MemorySource, Nums8, Turns, Waited};

// A fleet of the switches 1 and 2, which are called A and B.
fn two_switches(alloc: Global) -> Result<MemoryFleet<SilentPort>, Memory> {
    let mut fleet = MemoryFleet::new(alloc);
    put(alloc, &mut fleet, 1, "A")?;
    put(alloc, &mut fleet, 2, "B")?;
    Ok(fleet)
}

fn put(
    alloc: Global,
    fleet: &mut MemoryFleet<SilentPort>,
    switch: u32,
    name: &str,
) -> Result<(), Memory> {
    fleet.call(switch, Text::from(String::from_str(alloc, name)?))?;
    fleet.put(switch, SilentPort::new(alloc))
}

// Whether each of two switches is reached, where the second fails.
fn reach_both(alloc: Global) -> Result<[bool; 2], Memory> {
    let mut fleet = two_switches(alloc)?;
    fleet.fail_at(2);
    let first = fleet.port(1, "A").is_ok();
    let second = fleet.port(2, "B").is_ok();
    Ok([first, second])
}

// Whether a switch is reached by the name of another one, and then by its own.
fn reached_by(alloc: Global) -> Result<[bool; 2], Memory> {
    let mut fleet = two_switches(alloc)?;
    let by_another = fleet.port(1, "B").is_ok();
    let by_its_own = fleet.port(1, "A").is_ok();
    Ok([by_another, by_its_own])
}

#[test]
fn a_switch_that_fails_is_not_reached(rt: HostRuntime) -> Result<(), Fail> {
    assert_eq!(rt; reach_both(rt.alloc())?, [true, false]);
    Ok(())
}

#[test]
fn a_switch_is_reached_by_its_own_name_alone(rt: HostRuntime) -> Result<(), Fail> {
    assert_eq!(rt; reached_by(rt.alloc())?, [false, true]);
    Ok(())
}

// A guest that says nothing.
fn guest(alloc: Global) -> MemoryGuest {
    MemoryGuest::new(
        MemorySource::new(Nums8::new(alloc), Turns::new(alloc)),
        MemorySink::new(alloc, Turns::new(alloc)),
    )
}

// Whether a guest comes; none where the fleet fails.
fn comes(fleet: &mut MemoryFleet<SilentPort>) -> Option<bool> {
    match fleet.guest() {
        Ok(guest) => Some(guest.is_some()),
        Err(_) => None,
    }
}

// Whether the one guest comes, another one after it, and one whose fleet fails.
fn coming(alloc: Global) -> Result<[Option<bool>; 3], Memory> {
    let mut fleet = MemoryFleet::new(alloc);
    fleet.put_guest(guest(alloc))?;
    let first = comes(&mut fleet);
    let second = comes(&mut fleet);
    fleet.put_guest(guest(alloc))?;
    fleet.fail_guests();
    let third = comes(&mut fleet);
    Ok([first, second, third])
}

#[test]
fn a_guest_comes_once_and_none_where_the_fleet_fails(rt: HostRuntime) -> Result<(), Fail> {
    assert_eq!(rt; coming(rt.alloc())?, [Some(true), Some(false), None]);
    Ok(())
}

// What a wait says with one guest to come and nobody seated, with nobody and one seated, and with neither.
fn wait_thrice(alloc: Global) -> Result<[bool; 3], Memory> {
    let mut fleet = MemoryFleet::new(alloc);
    fleet.put_guest(guest(alloc))?;
    let came = says(&mut fleet, &[], Waited::Came);
    let _ = comes(&mut fleet);
    let seated = [guest(alloc)];
    let seat = says(&mut fleet, &seated, Waited::Seat(0));
    let none = says(&mut fleet, &[], Waited::NoMore);
    Ok([came, seat, none])
}

fn says(fleet: &mut MemoryFleet<SilentPort>, seated: &[MemoryGuest], woken: Waited) -> bool {
    match fleet.wait(seated) {
        Ok(found) => found == woken,
        Err(_) => false,
    }
}

#[test]
fn a_wait_says_who_is_next(rt: HostRuntime) -> Result<(), Fail> {
    assert_eq!(rt; wait_thrice(rt.alloc())?, [true, true, true]);
    Ok(())
}
