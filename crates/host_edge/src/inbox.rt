ghost use Rattle.std.specs.Prelude.{◌≡◌, ◌+◌, ◌<◌, ◌≤◌, ◌++◌, [], List, ℕ, drop, length, take, IfOk, OnErr};
ghost use Rattle.std.specs.Io.KnownBytes.{Consumes, Keeps};
ghost use Rattle.host_edge.specs.Inboxes.{HoldsBack, IsCutFronted, is_empty_list, nothing_in};

use crate::front::{Front, front_of};
use crate::unbroken::read_noted;
use byte_history::History;
use std::cmp::min;
use std::io::{self, Read};
use std::marker::Model;

/// How many bytes there is room for.
const ROOM: usize = 4_096;

/// What came over one connection and wasn't given on: the bytes of whole answers, each with its floor where it has
/// one, and after them the front of the answer that hasn't ended, which is held back.
#[derive(Drop)]
pub(crate) struct Inbox {
    bytes: [u8; ROOM],
    given: usize,
    whole: usize,
    end: usize,
}

impl Model for Inbox {
    ghost use Rattle.std.specs.Prelude.{◌≤◌, ◌-◌, drop, take};
    ghost use Rattle.host_edge.specs.Inboxes.{Held, IsCutFronted};

    ghost Value = { Held };

    ghost view = { λ b. record {
      ready = take (b.whole - b.given) (drop b.given b.bytes);
      cut = take (b.end - b.whole) (drop b.whole b.bytes);
    } };

    ghost invariant = { λ b. (b.given ≤ b.whole)
        × (b.whole ≤ b.end)
        × (b.end ≤ 4_096)
        × IsCutFronted (take (b.end - b.whole) (drop b.whole b.bytes)) };
}

impl Inbox {
    pub(crate) fn new() -> Self
        ensures { result ≡ nothing_in }
    {
        Inbox {
            bytes: [0; ROOM],
            given: 0,
            whole: 0,
            end: 0,
        }
    }

    /// Whether no byte is to be given on.
    pub(crate) fn is_empty(&self) -> bool
        ensures empty { result ≡ is_empty_list self.now.ready }
        ensures begun { IsCutFronted self.now.cut }
    {
        self.given == self.whole
    }

    /// Reads once, after the front of the answer that hasn't ended, and says how many bytes came, which are
    /// noted.
    pub(crate) fn fill<R: Read>(&mut self, reader: &mut R, came: &mut History) -> io::Result<usize>
        requires empty { self.old.ready ≡ [] }
        ensures sorted { IfOk result
            (λ n. (piece : List ℕ)
            × (length piece ≡ n)
            × Consumes (R.remaining reader.old) (R.remaining reader.new) piece
            × HoldsBack (self.old.cut ++ piece) self.new
            × (came.new ≡ came.old ++ piece)) }
        ensures same { OnErr result (self.new ≡ self.old) }
        ensures unread { OnErr result (Keeps (R.remaining reader.old) (R.remaining reader.new)) }
        ensures unnoted { OnErr result (came.new ≡ came.old) }
    {
        let cut = self.end - self.whole;
        let mut bytes = room_behind(&self.bytes[self.whole..self.end]);
        let n = read_behind(reader, &mut bytes, cut, came)?;
        *self = Inbox::sorted(bytes, cut + n);
        Ok(n)
    }

    // What came, and goes up to a place, sorted into what is whole and what is cut.
    fn sorted(bytes: [u8; ROOM], end: usize) -> Self
        requires { end ≤ 4_096 }
        ensures { HoldsBack (take end bytes) result }
    {
        let whole = whole_len(&bytes[..end]);
        Inbox {
            bytes,
            given: 0,
            whole,
            end,
        }
    }

    /// Gives the next bytes of whole answers into the front of `into`, and says how many.
    pub(crate) fn give(&mut self, into: &mut [u8]) -> usize
        ensures within { result ≤ length into.old }
        ensures next { self.old.ready ≡ take result into.new ++ self.new.ready }
        ensures cut { self.new.cut ≡ self.old.cut }
        ensures some { 0 < length into.old → 0 < length self.old.ready → 0 < result }
    {
        let n = min(self.whole - self.given, into.len());
        into[..n].copy_from_slice(&self.bytes[self.given..self.given + n]);
        self.given += n;
        n
    }
}

// These bytes, and room for others after them.
fn room_behind(front: &[u8]) -> [u8; ROOM]
    requires { length front.now ≤ 4_096 }
    ensures { take (length front.now) result ≡ front.now }
{
    let mut bytes = [0; ROOM];
    bytes[..front.len()].copy_from_slice(front);
    bytes
}

// Reads once, into the places after the first ones, and notes what came.
fn read_behind<R: Read>(
    reader: &mut R,
    bytes: &mut [u8],
    front: usize,
    came: &mut History,
) -> io::Result<usize>
    requires { front ≤ length bytes.old }
    ensures within { IfOk result (λ n. front + n ≤ length bytes.old) }
    ensures taken { IfOk result
        (λ n. (piece : List ℕ)
        × (length piece ≡ n)
        × Consumes (R.remaining reader.old) (R.remaining reader.new) piece
        × (take (front + n) bytes.new ≡ take front bytes.old ++ piece)
        × (came.new ≡ came.old ++ piece)) }
    ensures unread { OnErr result (Keeps (R.remaining reader.old) (R.remaining reader.new)) }
    ensures unnoted { OnErr result (came.new ≡ came.old) }
{
    let n = read_noted(reader, &mut bytes[front..], came)?;
    Ok(n)
}

// How many of the bytes are those of whole answers, one after the other; all of them where one stands in an
// answer's first place with which none begins.
fn whole_len(bytes: &[u8]) -> usize
    ensures within { result ≤ length bytes.now }
    ensures sorted { HoldsBack bytes.now
        (record { ready = take result bytes.now; cut = drop result bytes.now }) }
{
    let mut done = 0;
    while done < bytes.len() {
        match front_of(&bytes[done..]) {
            Front::Whole(n) => done += n,
            Front::Cut => return done,
            Front::Other => return bytes.len(),
        }
    }
    done
}
