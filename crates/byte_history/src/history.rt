ghost use Rattle.std.specs.Prelude.{◌≡◌, ◌+◌, [], ◌∷◌, ◌++◌, if◌then◌else◌};
ghost use Rattle.byte_history.specs.Histories.{bytes_in, times_in};

use std::marker::Model;
use std::snapshot::Snapshot;

/// Bytes, each after those before it.
#[derive(Drop)]
pub enum Bytes {
    Nothing,
    Also(Snapshot<Bytes>, Snapshot<u8>),
}

/// One time more after those before it.
#[derive(Drop)]
pub enum Times {
    Never,
    Again(Snapshot<Times>),
}

/// The bytes that went over a way so far.
#[derive(Drop)]
pub struct History {
    bytes: Bytes,
}

/// How often something came about so far.
#[derive(Drop)]
pub struct Count {
    times: Times,
}

impl Model for History {
    ghost use Rattle.std.specs.Prelude.{ℕ, List};
    ghost use Rattle.byte_history.specs.Histories.{bytes_in};

    ghost Value = { List ℕ };

    ghost view = { λ h. bytes_in h.bytes };
}

impl Model for Count {
    ghost use Rattle.std.specs.Prelude.{ℕ};
    ghost use Rattle.byte_history.specs.Histories.{times_in};

    ghost Value = { ℕ };

    ghost view = { λ c. times_in c.times };
}

impl History {
    /// Nothing went over it.
    pub fn new() -> Self
        ensures { result ≡ [] }
    {
        History {
            bytes: Bytes::Nothing,
        }
    }

    /// These bytes went over it, too.
    pub fn add(&mut self, bytes: &[u8])
        ensures { self.new ≡ self.old ++ bytes.now }
    {
        add_each(&mut self.bytes, bytes);
    }

    /// This byte went over it, too.
    pub fn push(&mut self, byte: u8)
        ensures { self.new ≡ self.old ++ byte ∷ [] }
    {
        self.bytes = also(&self.bytes, byte);
    }
}

impl Count {
    /// It never came about.
    pub fn new() -> Self
        ensures { result ≡ 0 }
    {
        Count {
            times: Times::Never,
        }
    }

    /// It came about once more, where this is so.
    pub fn raise_if(&mut self, so: bool)
        ensures { self.new ≡ (if so then self.old + 1 else self.old) }
    {
        if so {
            self.raise();
        }
    }

    /// It came about once more.
    pub fn raise(&mut self)
        ensures { self.new ≡ self.old + 1 }
    {
        self.times = again(&self.times);
    }
}

/// A history of these bytes alone.
pub fn history_of(bytes: &[u8]) -> Bytes
    ensures { bytes_in result ≡ bytes.now }
{
    let mut all = Bytes::Nothing;
    add_each(&mut all, bytes);
    all
}

fn add_each(all: &mut Bytes, bytes: &[u8])
    ensures { bytes_in all.new ≡ bytes_in all.old ++ bytes.now }
{
    for byte in bytes {
        *all = also(all, *byte);
    }
}

fn also(before: &Bytes, byte: u8) -> Bytes
    ensures { bytes_in result ≡ bytes_in before.now ++ byte ∷ [] }
{
    Bytes::Also(Snapshot::of(before), Snapshot::of(&byte))
}

fn again(before: &Times) -> Times
    ensures { times_in result ≡ times_in before.now + 1 }
{
    Times::Again(Snapshot::of(before))
}
