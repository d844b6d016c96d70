ghost use Rattle.std.specs.Prelude.{◌≡◌, ◌⊎◌, ◌<◌, ◌≤◌, [], ◌∷◌, length, take, false, true, IfOk, IsErr, OnErr, OnOk};
ghost use Rattle.wan_edge.specs.Ports.{FailsToHear, FailsToSend, Hears, LooksAt, Sends, Steps};
ghost use Rattle.fenced_ports.specs.FencedPorts.{Fails, FailsAtOnce, HearsIf, IsFenced, IsGiven, IsSame, OffersAll, first_fenced, told_of};
ghost use Rattle.fenced_ports.specs.Sieves.{Hands, HandsFault};

use crate::framing::send_framed;
use crate::hearing::hear_plain;
use crate::sieve::Sieve;
use byte_history::{Count, History};
use std::alloc::Global;
use std::marker::Model;
use std::snapshot::Snapshot;
use wan_edge::{Failed, Port};
use wire_frames::CommandReader;

/// A port for a controller of one term, over a port to a switch that hears several controllers. Its commands go
/// out with the term in front. Of what comes back it hands on the answers whose floor is the term, without the
/// floor: one with a lower floor was given before the switch heard of the term, and counts as nothing heard.
///
/// It fails where the port behind it fails, where a floor above the term is heard, where a frame begins with
/// another byte than it may, where what is offered begins no command, and for lack of memory. Then it is down:
/// each later call fails, and nothing more goes over the port behind it.
///
/// What is heard is read as one stream. So the port behind it gives whole frames only, or fails where a connection
/// ends: over one that goes on in silence with a new connection, an answer that was cut is put together with what
/// comes next, and a pair is told that no switch gave.
///
/// It tells what was offered, what it handed on, how often nothing was there, and how often a call has failed, a
/// count of its own; of what its switch holds it tells nothing.
#[derive(Drop)]
pub struct FencedPort<T: Port> {
    port: T,
    begun: Snapshot<T>,
    term: u32,
    sieve: Sieve,
    commands: CommandReader,
    frames: Vec<u8>,
    down: bool,
    offered: History,
    quiet: Count,
    waits: Count,
    faults: Count,
}

impl<T: Port> Model for FencedPort<T> {
    ghost use Rattle.fenced_ports.specs.FencedPorts.{Fenced, IsFenced};

    ghost Value = { Fenced T };

    ghost view = { λ p. record {
      port = p.port;
      begun = p.begun.value;
      term = p.term;
      sifting = p.sieve;
      kept = p.commands.kept;
      live = p.commands.live;
      down = p.down;
      offered = p.offered;
      quiet = p.quiet;
      waits = p.waits;
      faults = p.faults;
    } };

    ghost invariant = { λ p. IsFenced (T.told p.begun.value) (T.told p.port) p.term p.sieve
        p.commands.kept p.commands.live p.down p.offered };
}

impl<T: Port> FencedPort<T> {
    /// A port for this term over this one, from now on. The term is 1 at the least: 0 is that of a controller
    /// without one, and raises no floor.
    #[tactic(auto, using(crate::proofs::Standing::fenced_first))]
    pub fn new(alloc: Global, port: T, term: u32) -> Self
        requires { 0 < term }
        ensures { result ≡ first_fenced port term }
    {
        FencedPort {
            begun: Snapshot::of(&port),
            port,
            term,
            sieve: Sieve::new(),
            commands: CommandReader::new(),
            frames: Vec::new(alloc),
            down: false,
            offered: History::new(),
            quiet: Count::new(),
            waits: Count::new(),
            faults: Count::new(),
        }
    }

    /// The port behind it. What it heard since it was handed over is what was sifted, and what went out are the
    /// commands offered, each with the term in front.
    pub fn inner(&self) -> &T
        ensures port { result.now ≡ self.now.port }
        ensures fenced { IsFenced (T.told self.now.begun) (T.told self.now.port) self.now.term
            self.now.sifting self.now.kept self.now.live self.now.down self.now.offered }
    {
        &self.port
    }

    /// Gives the port behind it back.
    pub fn into_inner(self) -> T
        ensures port { result ≡ self.port }
        ensures fenced { IsFenced (T.told self.begun) (T.told self.port) self.term self.sifting
            self.kept self.live self.down self.offered }
    {
        self.port
    }

    // Sends the commands that end in these bytes.
    #[tactic(auto, using(crate::proofs::Standing::fenced_sent, crate::proofs::Standing::fenced_unsent))]
    fn send(&mut self, from: &[u8]) -> Result<(), Failed>
        requires { self.old.down ≡ false }
        ensures ok { OnOk result (OffersAll from.now self.old self.new) }
        ensures err { OnErr result (Fails from.now self.old self.new) }
    {
        self.down = true;
        self.offered.add(from);
        let sent = send_framed(
            &mut self.port,
            self.term,
            &mut self.commands,
            &mut self.frames,
            from,
        );
        match sent {
            Ok(()) => {
                self.down = false;
                Ok(())
            }
            Err(why) => {
                self.faults.raise();
                Err(why.as_failed())
            }
        }
    }

    // Hears the next byte of an answer, if one is there.
    #[tactic(auto, using(crate::proofs::Standing::fenced_heard, crate::proofs::Standing::fenced_failed, crate::proofs::Standing::next_heard, crate::proofs::Standing::next_whole, crate::proofs::Standing::next_failed))]
    fn next(&mut self) -> Result<Option<u8>, Failed>
        requires { self.old.down ≡ false }
        ensures ok { IfOk result (λ found. HearsIf found self.old self.new) }
        ensures err { OnErr result (FailsAtOnce self.old self.new) }
        ensures hands { Hands result (T.told self.old.port) self.old.sifting
            (T.told self.new.port) self.new.sifting }
    {
        self.down = true;
        match hear_plain(&mut self.port, self.term, &mut self.sieve) {
            Ok(found) => {
                self.down = false;
                self.quiet.raise_if(found.is_none());
                Ok(found)
            }
            Err(why) => {
                self.faults.raise();
                Err(why)
            }
        }
    }

    // Fails once more, and is down.
    #[tactic(auto, using(crate::proofs::Standing::fenced_down))]
    fn fail(&mut self) -> Failed
        ensures { FailsAtOnce self.old self.new }
    {
        self.down = true;
        self.faults.raise();
        Failed
    }
}

impl<T: Port> Port for FencedPort<T> {
    ghost told = { λ p. told_of p };

    #[tactic(auto, using(crate::proofs::Standing::sends, crate::proofs::Standing::fails_to_send, crate::proofs::Standing::fails_at_once, crate::proofs::Standing::steps_sending, crate::proofs::Standing::steps_failing, crate::proofs::Standing::steps_failing_at_once, crate::proofs::Standing::same_sending, crate::proofs::Standing::same_failing, crate::proofs::Standing::same_failing_at_once, crate::proofs::Standing::down_failing, crate::proofs::Standing::down_failing_at_once, crate::proofs::Standing::up_not_down))]
    fn offer(&mut self, from: &[u8]) -> Result<(), Failed>
        ensures all { OnOk result (Sends from.now (told_of self.old) (told_of self.new)) }
        ensures part { OnErr result (FailsToSend from.now (told_of self.old) (told_of self.new)) }
        ensures step { Steps (told_of self.old) (told_of self.new) }
        ensures same { IsSame self.old self.new }
        ensures dead { self.old.down ≡ true → IsErr result }
        ensures dies { OnErr result (self.new.down ≡ true) }
    {
        if self.down {
            return Err(self.fail());
        }
        match self.send(from) {
            Ok(()) => Ok(()),
            Err(why) => Err(why),
        }
    }

    #[tactic(auto, using(crate::proofs::Standing::hears_if, crate::proofs::Standing::fails_to_hear, crate::proofs::Standing::steps_hearing, crate::proofs::Standing::steps_failing_at_once, crate::proofs::Standing::same_hearing, crate::proofs::Standing::same_failing_at_once, crate::proofs::Standing::down_failing_at_once, crate::proofs::Standing::up_not_down, crate::proofs::Standing::was_down, crate::proofs::Standing::was_up))]
    fn hear(&mut self, into: &mut [u8]) -> Result<usize, Failed>
        requires room { 0 < length into.old }
        ensures within { IfOk result (λ n. n ≤ length into.old) }
        ensures given { IfOk result (λ n. Hears n into.new (told_of self.old) (told_of self.new)) }
        ensures nothing { OnErr result (FailsToHear (told_of self.old) (told_of self.new)) }
        ensures step { Steps (told_of self.old) (told_of self.new) }
        ensures same { IsSame self.old self.new }
        ensures dead { self.old.down ≡ true → IsErr result }
        ensures dies { OnErr result (self.new.down ≡ true) }
        ensures why { OnErr result ((self.old.down ≡ true)
            ⊎ HandsFault (T.told self.old.port) self.old.sifting (T.told self.new.port)
            self.new.sifting) }
    {
        if self.down {
            return Err(self.fail());
        }
        match self.next() {
            Ok(found) => Ok(give(found, into)),
            Err(why) => Err(why),
        }
    }

    // A port that is down is ready to fail.
    #[tactic(auto, using(crate::proofs::Standing::looks_early, crate::proofs::Standing::look_unheard, crate::proofs::Standing::look_unsent, crate::proofs::Standing::fenced_looked))]
    fn is_ready(&mut self) -> bool
        ensures looks { LooksAt result (told_of self.old) (told_of self.new) }
        ensures same { IsSame self.old self.new }
        ensures stays { self.new.down ≡ self.old.down }
    {
        if self.down || self.port.is_ready() {
            return true;
        }
        self.waits.raise();
        false
    }

    fn rest(&self) {
        self.port.rest();
    }

    ghost prompt_is_honest = { λ _ prompt. prompt };
}

// Gives what was found.
fn give(found: Option<u8>, into: &mut [u8]) -> usize
    requires { 0 < length into.old }
    ensures given { IsGiven found result into.new }
    ensures within { result ≤ length into.old }
{
    match found {
        Some(byte) => {
            put_first(into, byte);
            1
        }
        None => 0,
    }
}

#[tactic(auto, using(crate::proofs::Standing::first_put))]
fn put_first(into: &mut [u8], byte: u8)
    requires { 0 < length into.old }
    ensures { take 1 into.new ≡ byte ∷ [] }
{
    into[0] = byte;
}
