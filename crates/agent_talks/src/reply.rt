//! A command that is carried out by the rule of terms, and the bytes of the answer to it.
ghost use Rattle.std.specs.Prelude.{◌≡◌, ◌≤◌, ◌||◌, ◌&&◌, ◌==◌, ℕ, false, not, nat_lt, IfOk, OnErr, OnOk};
ghost use Rattle.agent_talks.specs.Serving.{reply_bytes, takes_termed};
ghost use Rattle.fenced_agent.specs.Agents.{after_termed, answer_to_termed, fenced_holding, floor_told};
ghost use Rattle.fenced_agent.specs.Frames.{floored_bytes, term_of};
ghost use Rattle.switch_agent.specs.Items.{seen};

use fenced_agent::FencedAgent;
use fenced_wire::{FLOORED_LEN, TermedFrame, write_floored};
use lists::Memory;
use wire_frames::{ANSWER_LEN, Answer, write_answer};

/// The bytes of an answer, with the floor in front where the command named a term.
#[derive(Clone, Copy, Debug, Drop)]
pub enum Reply {
    Plain([u8; ANSWER_LEN]),
    Floored([u8; FLOORED_LEN]),
}

impl Reply {
    pub fn bytes(&self) -> &[u8]
        ensures { result.now ≡ reply_bytes self.now }
    {
        match self {
            Reply::Plain(bytes) => bytes,
            Reply::Floored(bytes) => bytes,
        }
    }
}

/// Carries a command out by the rule of terms, and gives the answer to it. Lack of memory changes nothing;
/// there is none for an item that was seen before, and none below the floor.
pub fn carry_out(agent: &mut FencedAgent, frame: &TermedFrame) -> Result<Reply, Memory>
    ensures applied { OnOk result
        (fenced_holding agent.new ≡ after_termed (fenced_holding agent.old) frame.now) }
    ensures answer { IfOk result
        (λ reply. reply_bytes reply
        ≡ floored_bytes (answer_to_termed (fenced_holding agent.old) frame.now)) }
    ensures seen { OnOk result
        ((item : ℕ)
        → seen agent.new.items item
        ≡ ((not (nat_lt (term_of frame.now.term) agent.old.floor)
        && (item == frame.now.command.1.item))
        || seen agent.old.items item)) }
    ensures err { OnErr result (agent.new ≡ agent.old) }
    ensures memory { OnErr result (seen agent.old.items frame.now.command.1.item ≡ false) }
    ensures above { OnErr result (agent.old.floor ≤ term_of frame.now.term) }
{
    let term = frame.term();
    let command = frame.frame();
    let told = agent.apply(number_of(term), command.0, &command.1)?;
    Ok(reply_of(term, &told))
}

/// Whether a command would change what is held of its item now.
pub fn takes(agent: &FencedAgent, frame: &TermedFrame) -> bool
    ensures { result ≡ takes_termed (fenced_holding agent.now) frame.now }
{
    if number_of(frame.term()) < agent.floor() {
        return false;
    }
    let command = frame.frame();
    agent.agent().takes(command.0, &command.1)
}

// A command that names no term has term 0.
fn number_of(term: Option<u32>) -> u32
    ensures { result ≡ term_of term }
{
    match term {
        Some(term) => term,
        None => 0,
    }
}

// The answer to a command that named this term, or none, from the floor, and the migration and the number held.
fn reply_of(term: Option<u32>, told: &(u32, u32, Answer)) -> Reply
    ensures { reply_bytes result
        ≡ floored_bytes (record {
          floor = floor_told term told.now.0;
          answer = (told.now.1, told.now.2);
        }) }
{
    match term {
        Some(_) => Reply::Floored(write_floored(told.0, &told.2, told.1)),
        None => Reply::Plain(write_answer(&told.2, told.1)),
    }
}
