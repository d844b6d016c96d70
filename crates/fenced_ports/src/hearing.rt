//! A port whose answers have a floor in front is heard.
ghost use Rattle.std.specs.Prelude.{◌≡◌, ◌≤◌, IfOk, OnErr, false};
ghost use Rattle.wan_edge.specs.Ports.{FailsToHear};
ghost use Rattle.fenced_ports.specs.Sieves.{Hands, HearsOne, IsHandedOn, Sifts};

use crate::part::Part;
use crate::sieve::Sieve;
use wan_edge::{Failed, Port};

/// Hears on until a byte is to be handed on, which it gives. It gives none where the port gave nothing, and where
/// an answer with a lower floor has ended. It fails where the port fails, and where a byte came that can't stand
/// where it stood.
pub(crate) fn hear_plain<T: Port>(
    port: &mut T,
    term: u32,
    sieve: &mut Sieve,
) -> Result<Option<u8>, Failed>
    requires { sieve.old.broken ≡ false }
    ensures sifts { Sifts term (T.told port.old).heard sieve.old (T.told port.new).heard
        sieve.new }
    ensures unsent { (T.told port.new).offered ≡ (T.told port.old).offered }
    ensures hands { Hands result (T.told port.old) sieve.old (T.told port.new) sieve.new }
{
    sieve.is_placed();
    let mut part = Part::Silent;
    while part.is_silent() {
        let found = hear_one(port)?;
        match found {
            Some(byte) => part = sieve.take(term, byte),
            None => return Ok(None),
        }
    }
    handed_on(part)
}

// Hears one byte, if one is there.
fn hear_one<T: Port>(port: &mut T) -> Result<Option<u8>, Failed>
    ensures one { IfOk result (λ found. HearsOne found (T.told port.old) (T.told port.new)) }
    ensures none { OnErr result (FailsToHear (T.told port.old) (T.told port.new)) }
    ensures count { (T.told port.old).faults ≤ (T.told port.new).faults }
{
    let mut byte = [0; 1];
    let n = port.hear(&mut byte)?;
    if n == 0 {
        return Ok(None);
    }
    Ok(Some(byte[0]))
}

// What is given where the last byte was so.
fn handed_on(part: Part) -> Result<Option<u8>, Failed>
    ensures { IsHandedOn part result }
{
    match part {
        Part::Silent | Part::Low => Ok(None),
        Part::Plain(byte) => Ok(Some(byte)),
        Part::Alien => Err(Failed),
    }
}
