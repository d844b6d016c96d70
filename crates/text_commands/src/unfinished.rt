ghost use Rattle.std.specs.Prelude.{◌≡◌, ◌++◌, IfOk, OnOk};
ghost use Rattle.text_commands.specs.Lines.{bytes_of};
ghost use Rattle.text_commands.specs.Unfinished.{above_line, byte_is_none, held_line, item_not_of, no_answer_line, not_mine_line, port_line, spent_line, unfinished_line};

use crate::line::Line;
use lists::{Memory, Text};
use std::alloc::Global;
use wan_model::{CheckedPlan, Problem};
use wan_text::push_switch;

/// Why a rollout wasn't finished, or why not all switches told what they hold.
#[derive(Debug, Drop)]
pub enum Unfinished {
    /// Commands were offered in as many rounds as were given, and this operation was still in flight. A
    /// question has number 0.
    RoundsSpent { rounds: u32, item: u32, number: u32 },
    /// There was no port to this switch of the plan's problem, or its port failed.
    PortFault(CheckedPlan, u32),
    /// A switch told that it holds more of an item than was begun of it.
    Above { item: u32, held: u32, begun: u32 },
    /// This switch told of an item that isn't its own, or that it wasn't asked about.
    NotMine(CheckedPlan, u32, u32),
    /// This switch told a byte that begins no answer.
    NoAnswer(CheckedPlan, u32, u8),
    /// The policy holds so many operations back.
    Held(u64),
}

impl Unfinished {
    ghost use Rattle.std.specs.Prelude.{◌≡◌};
    ghost use Rattle.text_commands.specs.Unfinished.{unfinished_status};

    /// The exit status.
    pub fn status(&self) -> u8
        ensures { result ≡ unfinished_status self.now }
    {
        match self {
            Unfinished::RoundsSpent { .. } => 5,
            Unfinished::PortFault(..) => 9,
            Unfinished::Above { .. } | Unfinished::NotMine(..) | Unfinished::NoAnswer(..) => 11,
            Unfinished::Held(_) => 14,
        }
    }
}

/// The line of a rollout that wasn't finished.
pub fn unfinished_line(alloc: Global, unfinished: &Unfinished) -> Result<Line, Memory>
    ensures { IfOk result (λ line. bytes_of line ≡ unfinished_line unfinished.now) }
{
    let mut line = Text::new(alloc);
    push_cause(alloc, &mut line, unfinished)?;
    Ok(Line::Made(line))
}

fn push_cause(alloc: Global, line: &mut Text, unfinished: &Unfinished) -> Result<(), Memory>
    ensures { OnOk result (line.new ≡ line.old ++ unfinished_line unfinished.now) }
{
    match unfinished {
        Unfinished::RoundsSpent {
            rounds,
            item,
            number,
        } => push_spent(alloc, line, *rounds, *item, *number),
        Unfinished::PortFault(plan, switch) => push_port(alloc, line, plan.problem(), *switch),
        Unfinished::Above { item, held, begun } => push_above(alloc, line, *item, *held, *begun),
        Unfinished::NotMine(plan, switch, item) => {
            push_not_mine(alloc, line, plan.problem(), *switch, *item)
        }
        Unfinished::NoAnswer(plan, switch, byte) => {
            push_no_answer(alloc, line, plan.problem(), *switch, *byte)
        }
        Unfinished::Held(left) => push_held(alloc, line, *left),
    }
}

fn push_spent(
    alloc: Global,
    line: &mut Text,
    rounds: u32,
    item: u32,
    number: u32,
) -> Result<(), Memory>
    ensures { OnOk result (line.new ≡ line.old ++ spent_line rounds item number) }
{
    let text = format!(in alloc;
        "rounds spent: rounds {rounds}, item {item} operation {number}\n"
    )?;
    line.push_str(&text)
}

fn push_port(alloc: Global, line: &mut Text, problem: &Problem, switch: u32) -> Result<(), Memory>
    ensures { OnOk result (line.new ≡ line.old ++ port_line problem.now switch) }
{
    line.push_str("port fault at ")?;
    push_switch(alloc, line, problem, switch as usize)?;
    line.push_str("\n")
}

fn push_above(
    alloc: Global,
    line: &mut Text,
    item: u32,
    held: u32,
    begun: u32,
) -> Result<(), Memory>
    ensures { OnOk result (line.new ≡ line.old ++ above_line item held begun) }
{
    let text = format!(in alloc; "alien: item {item} held {held} above {begun}\n")?;
    line.push_str(&text)
}

fn push_not_mine(
    alloc: Global,
    line: &mut Text,
    problem: &Problem,
    switch: u32,
    item: u32,
) -> Result<(), Memory>
    ensures { OnOk result (line.new ≡ line.old ++ not_mine_line problem.now switch item) }
{
    push_item_not_of(alloc, line, item)?;
    push_switch(alloc, line, problem, switch as usize)?;
    line.push_str("\n")
}

fn push_item_not_of(alloc: Global, line: &mut Text, item: u32) -> Result<(), Memory>
    ensures { OnOk result (line.new ≡ line.old ++ item_not_of item) }
{
    let text = format!(in alloc; "alien: item {item} not of ")?;
    line.push_str(&text)
}

fn push_no_answer(
    alloc: Global,
    line: &mut Text,
    problem: &Problem,
    switch: u32,
    byte: u8,
) -> Result<(), Memory>
    ensures { OnOk result (line.new ≡ line.old ++ no_answer_line problem.now switch byte) }
{
    push_byte_is_none(alloc, line, byte)?;
    push_switch(alloc, line, problem, switch as usize)?;
    line.push_str("\n")
}

fn push_byte_is_none(alloc: Global, line: &mut Text, byte: u8) -> Result<(), Memory>
    ensures { OnOk result (line.new ≡ line.old ++ byte_is_none byte) }
{
    let text = format!(in alloc; "alien: byte {byte} is no answer from ")?;
    line.push_str(&text)
}

fn push_held(alloc: Global, line: &mut Text, left: u64) -> Result<(), Memory>
    ensures { OnOk result (line.new ≡ line.old ++ held_line left) }
{
    let text = format!(in alloc; "held: operations {left}\n")?;
    line.push_str(&text)
}
