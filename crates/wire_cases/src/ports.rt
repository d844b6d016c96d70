use lists::Memory;
use lossy_link::{AlienPort, Fate, FateList, NoisePort, ScriptPort, SilentPort};
use std::alloc::Global;
use std::test::Fail;
use wan_edge::{Nums8, Port};

// Operation 1 of item 3 in migration 7.
fn command() -> &'static [u8] {
    b"M\0\0\0\x07\0\0\0\x03\0\0\0\x01\0\0\0\x02\x01\0\0\0\0\0\0\0\x06"
}

// That item 3 holds its operation 1, twice.
fn held_twice() -> &'static [u8] {
    b"N\0\0\0\x07\0\0\0\x03\0\0\0\x01N\0\0\0\x07\0\0\0\x03\0\0\0\x01"
}

// That it holds operation 5.
fn held_5() -> &'static [u8] {
    b"N\0\0\0\x07\0\0\0\x03\0\0\0\x05"
}

// Whether the port, which may go to another thread, takes the command and gives these bytes after it.
fn gives(mut port: impl Port + Drop + Send, wanted: &[u8]) -> bool {
    let mut into = [0; 40];
    if port.offer(command()).is_err() {
        return false;
    }
    match port.hear(&mut into) {
        Ok(n) => &into[..n] == wanted,
        Err(_) => false,
    }
}

// A port on which the command comes once, and is answered twice.
fn repeating(alloc: Global) -> Result<ScriptPort, Memory> {
    let mut fates = FateList::new(alloc);
    fates.push(Fate {
        times: 1,
        answers: 2,
        late: 0,
    })?;
    Ok(ScriptPort::new(alloc, fates))
}

fn noisy(alloc: Global) -> Result<NoisePort, Memory> {
    let mut noise = Nums8::new(alloc);
    noise.extend_from_slice(b"no answer")?;
    Ok(NoisePort::new(noise))
}

#[test]
fn a_command_meets_its_fate(rt: HostRuntime) -> Result<(), Fail> {
    assert!(rt; gives(repeating(rt.alloc())?, held_twice()));
    Ok(())
}

#[test]
fn an_alien_port_answers_its_number(rt: HostRuntime) {
    assert!(rt; gives(AlienPort::new(rt.alloc(), 5), held_5()));
}

#[test]
fn a_silent_port_never_answers(rt: HostRuntime) {
    assert!(rt; gives(SilentPort::new(rt.alloc()), &[]));
}

#[test]
fn a_noise_port_gives_its_bytes(rt: HostRuntime) -> Result<(), Fail> {
    assert!(rt; gives(noisy(rt.alloc())?, b"no answer"));
    Ok(())
}
