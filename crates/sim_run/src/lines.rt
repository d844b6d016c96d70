ghost use Rattle.std.specs.Prelude.{◌≡◌, ◌++◌, codes, decimal, OnOk};
ghost use Rattle.sim_run.specs.Script.{item_text, line_text};

use crate::act_line::ActLine;
use itoa::Buffer;
use lists::{Memory, Text};
use rollout_rules::{Given, Op};

/// Adds the line of the act with a number.
pub(crate) fn push_act_line(text: &mut Text, number: usize, line: &ActLine) -> Result<(), Memory>
    ensures { OnOk result
        (text.new ≡ text.old ++ (decimal number ++ codes " " ++ line_text line.now ++ codes "\n")) }
{
    push_number(text, number)?;
    text.push_str(" ")?;
    push_line(text, line)?;
    text.push_str("\n")
}

fn push_line(text: &mut Text, line: &ActLine) -> Result<(), Memory>
    ensures { OnOk result (text.new ≡ text.old ++ line_text line.now) }
{
    match *line {
        ActLine::Round { dones, begins } => push_counts(text, dones, begins),
        ActLine::Sent { place, op } => {
            let Op { item, number } = op;
            push_item(text, "send ", place, item, " operation ", number)
        }
        ActLine::Delivered { place, answer } => {
            let Given { item, held } = answer;
            push_item(text, "deliver ", place, item, " held ", held.number)
        }
        ActLine::Handed { place, answer } => {
            let Given { item, held } = answer;
            push_item(text, "hand ", place, item, " held ", held.number)
        }
        ActLine::All { count } => push_count(text, "all: ", count),
        ActLine::CrashLost => text.push_str("crash lost"),
        ActLine::CrashKept => text.push_str("crash kept"),
        ActLine::Stop => text.push_str("stop"),
        ActLine::Start { entries } => push_count(text, "start: entries ", entries),
        ActLine::Skipped => text.push_str("skipped"),
    }
}

/// Adds how many entries of a round's batch are Done, and how many are Begin.
fn push_counts(text: &mut Text, dones: u32, begins: u32) -> Result<(), Memory>
    ensures { OnOk result
        (text.new
        ≡ text.old
        ++ (codes "round: dones " ++ decimal dones ++ codes ", begins " ++ decimal begins)) }
{
    push_count(text, "round: dones ", dones as usize)?;
    push_count(text, ", begins ", begins as usize)
}

/// Adds a command sent or an answer: its place, the item, and the number that the word names.
fn push_item(
    text: &mut Text,
    name: &str,
    place: u32,
    item: u32,
    word: &str,
    number: u32,
) -> Result<(), Memory>
    ensures { OnOk result (text.new ≡ text.old ++ item_text name.now place item word.now number) }
{
    push_count(text, name, place as usize)?;
    push_count(text, ": item ", item as usize)?;
    push_count(text, word, number as usize)
}

/// Adds a number after what it is.
fn push_count(text: &mut Text, name: &str, count: usize) -> Result<(), Memory>
    ensures { OnOk result (text.new ≡ text.old ++ (name.now ++ decimal count)) }
{
    text.push_str(name)?;
    push_number(text, count)
}

/// Adds a number.
fn push_number(text: &mut Text, number: usize) -> Result<(), Memory>
    ensures { OnOk result (text.new ≡ text.old ++ decimal number) }
{
    let mut buffer = Buffer::new();
    text.push_str(buffer.format(number))
}
