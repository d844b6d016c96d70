ghost use Rattle.std.specs.Fmt.{WritesOnOk};
ghost use Rattle.target_json.specs.Faults.{fault_text};
ghost use Rattle.target_json.specs.declared.fault.TargetFault.TheVariants as faults;

use crate::key::TargetKey;
use crate::place::TargetPlace;
use lists::Memory as OutOfMemory;
use std::fmt;

/// What is wrong at a place.
#[derive(Clone, Copy, Debug, Drop, PartialEq, Eq)]
pub enum Wrong {
    /// The object hasn't the key.
    Missing(TargetKey),
    Kind,
    /// A number with a point, an exponent or a sign, or one of 2^64 or more.
    NotWhole,
    /// The number or the count, and the largest that may stand there.
    Above(u64, u64),
    /// The count, and the least that may stand there.
    Below(u64, u64),
    /// The name isn't that of the problem's flow of this number.
    OtherFlow,
    UnknownSwitch,
    /// The problem has no link between the two ends.
    NoSuchLink,
    /// An earlier element gives the link a capacity.
    LinkTwice,
}

/// Why no target was read: the first place that its grammar refuses, and what is wrong there.
#[derive(Clone, Copy, Debug, Drop, PartialEq, Eq)]
pub enum TargetFault {
    /// The bytes aren't UTF-8, or aren't one JSON value.
    NotJson,
    At(TargetPlace, Wrong),
    /// Memory ran out. This says nothing of the bytes.
    Memory,
}

impl From<OutOfMemory> for TargetFault {
    ghost use Rattle.std.specs.Prelude.{◌≡◌};
    ghost use Rattle.target_json.specs.declared.fault.TargetFault.TheVariants.{Memory};

    ghost from_gives = { λ _ fault. fault ≡ Memory };

    fn from(_refused: OutOfMemory) -> TargetFault {
        TargetFault::Memory
    }
}

impl fmt::Display for Wrong {
    ghost use Rattle.std.specs.Prelude.{Some};
    ghost use Rattle.target_json.specs.Faults.{wrong_text};

    ghost output = { λ wrong. Some (wrong_text wrong) };

    fn fmt<W: fmt::Write>(&self, f: &mut fmt::Formatter<W>) -> fmt::Result {
        match *self {
            Wrong::Missing(key) => write!(f, "missing \"{key}\""),
            Wrong::Kind => f.write_str("wrong kind"),
            Wrong::NotWhole => f.write_str("not a whole number"),
            Wrong::Above(found, limit) => write!(f, "{found} above {limit}"),
            Wrong::Below(found, limit) => write!(f, "{found} below {limit}"),
            Wrong::OtherFlow => f.write_str("not the name of this flow"),
            Wrong::UnknownSwitch => f.write_str("unknown switch"),
            Wrong::NoSuchLink => f.write_str("no such link"),
            Wrong::LinkTwice => f.write_str("link twice"),
        }
    }
}

/// The line of a fault, without its line feed.
impl fmt::Display for TargetFault {
    ghost use Rattle.std.specs.Prelude.{Some};
    ghost use Rattle.target_json.specs.Faults.{fault_text};

    ghost output = { λ fault. Some (fault_text fault) };

    fn fmt<W: fmt::Write>(&self, f: &mut fmt::Formatter<W>) -> fmt::Result {
        match *self {
            TargetFault::NotJson => f.write_str("input: not JSON"),
            TargetFault::At(place, wrong) => write_at(f, place, wrong),
            TargetFault::Memory => f.write_str("out of memory"),
        }
    }
}

fn write_at<W: fmt::Write>(
    f: &mut fmt::Formatter<W>,
    place: TargetPlace,
    wrong: Wrong,
) -> fmt::Result
    ensures { WritesOnOk W.write_str_gives f.old result (fault_text (faults.At place wrong)) f.new }
{
    write!(f, "input: {place}: {wrong}")
}
