ghost use Rattle.std.specs.Fmt.{WritesOnOk};
ghost use Rattle.problem_json.specs.Faults.{above_text, fault_text, wrong_at};
ghost use Rattle.problem_json.specs.declared.fault.InputFault.TheVariants as faults;

use crate::key::Key;
use crate::place::Place;
use lists::Memory as OutOfMemory;
use std::fmt;

/// Why bytes weren't read: the first place that their grammar refuses, and what is wrong there.
#[derive(Clone, Copy, Debug, Drop, PartialEq, Eq)]
pub enum InputFault {
    /// The bytes aren't UTF-8, or aren't one JSON value.
    NotJson,
    /// The object at the place hasn't the key.
    Missing(Place, Key),
    WrongKind(Place),
    /// A number with a point, an exponent or a sign, or one of 2^64 or more.
    NotWhole(Place),
    /// So many elements or bytes, and how many there may be.
    TooMany(Place, u64, u64),
    /// The number, and the largest that may stand there.
    TooLarge(Place, u64, u64),
    /// An earlier switch or flow has the name.
    NameTwice(Place),
    UnknownSwitch(Place),
    /// An earlier link has the same two ends.
    LinkTwice(Place),
    /// No link leads here from the switch before.
    NoSuchLink(Place),
    /// The switch stands earlier in the path.
    SwitchTwice(Place),
    /// The tunnel hasn't the ends of its flow's first tunnel.
    EndsDiffer(Place),
    /// A path of so few switches.
    ShortPath(Place, u64),
    /// Memory ran out. This says nothing of the bytes.
    Memory,
    /// A list that is no event.
    BadEvent(Place),
    /// A format that isn't known.
    BadFormat(Place, u64),
    WidthZero(Place),
    /// What a document says of fewer steps isn't shown, or a text of it is no fraction.
    BadProof(Place),
}

impl From<OutOfMemory> for InputFault {
    ghost use Rattle.std.specs.Prelude.{◌≡◌};
    ghost use Rattle.problem_json.specs.declared.fault.InputFault.TheVariants.{Memory};

    ghost from_gives = { λ _ fault. fault ≡ Memory };

    fn from(_refused: OutOfMemory) -> InputFault {
        InputFault::Memory
    }
}

/// The line of a fault, without its line feed.
impl fmt::Display for InputFault {
    ghost use Rattle.std.specs.Prelude.{Some};
    ghost use Rattle.problem_json.specs.Faults.{fault_text};

    ghost output = { λ fault. Some (fault_text fault) };

    fn fmt<W: fmt::Write>(&self, f: &mut fmt::Formatter<W>) -> fmt::Result {
        match *self {
            InputFault::NotJson => f.write_str("input: not JSON"),
            InputFault::Missing(place, key) => write_missing(f, place, key),
            InputFault::WrongKind(place) => write_wrong(f, place, "wrong kind"),
            InputFault::NotWhole(place) => write_wrong(f, place, "not a whole number"),
            InputFault::TooMany(place, found, limit) => write_above(f, place, found, limit),
            InputFault::TooLarge(place, found, limit) => write_above(f, place, found, limit),
            InputFault::NameTwice(place) => write_wrong(f, place, "name twice"),
            InputFault::UnknownSwitch(place) => write_wrong(f, place, "unknown switch"),
            InputFault::LinkTwice(place) => write_wrong(f, place, "link twice"),
            InputFault::NoSuchLink(place) => write_wrong(f, place, "no such link"),
            InputFault::SwitchTwice(place) => write_wrong(f, place, "switch twice"),
            InputFault::EndsDiffer(place) => write_wrong(f, place, "ends differ"),
            InputFault::ShortPath(place, count) => write_short(f, place, count),
            InputFault::Memory => f.write_str("out of memory"),
            InputFault::BadEvent(place) => write_wrong(f, place, "no event"),
            InputFault::BadFormat(place, format) => write_format(f, place, format),
            InputFault::WidthZero(place) => write_wrong(f, place, "width 0"),
            InputFault::BadProof(place) => write_wrong(f, place, "not shown"),
        }
    }
}

// What is wrong at a place.
fn write_wrong<W: fmt::Write>(f: &mut fmt::Formatter<W>, place: Place, what: &str) -> fmt::Result
    ensures { WritesOnOk W.write_str_gives f.old result (wrong_at place what.now) f.new }
{
    write!(f, "input: {place}: {what}")
}

fn write_missing<W: fmt::Write>(f: &mut fmt::Formatter<W>, place: Place, key: Key) -> fmt::Result
    ensures { WritesOnOk W.write_str_gives f.old result
        (fault_text (faults.Missing place key)) f.new }
{
    write!(f, "input: {place}: missing \"{key}\"")
}

fn write_above<W: fmt::Write>(
    f: &mut fmt::Formatter<W>,
    place: Place,
    found: u64,
    limit: u64,
) -> fmt::Result
    ensures { WritesOnOk W.write_str_gives f.old result
        (wrong_at place (above_text found limit)) f.new }
{
    write!(f, "input: {place}: {found} above {limit}")
}

fn write_short<W: fmt::Write>(f: &mut fmt::Formatter<W>, place: Place, count: u64) -> fmt::Result
    ensures { WritesOnOk W.write_str_gives f.old result
        (fault_text (faults.ShortPath place count)) f.new }
{
    write!(f, "input: {place}: {count} below 2")
}

fn write_format<W: fmt::Write>(f: &mut fmt::Formatter<W>, place: Place, format: u64) -> fmt::Result
    ensures { WritesOnOk W.write_str_gives f.old result
        (fault_text (faults.BadFormat place format)) f.new }
{
    write!(f, "input: {place}: format {format}")
}
