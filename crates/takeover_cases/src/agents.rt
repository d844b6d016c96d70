//! An agent that hears two controllers: what it answers each of them.

use fenced_agent::FencedAgent;
use lists::Memory;
use rollout_rules::Held;
use std::alloc::Global;
use std::test::Fail;
use switch_agent::Agent;
use wire_frames::Command;

// An operation of item 0, with one rate 0.
fn command(number: u32) -> Command {
    Command {
        item: 0,
        number,
        scale: 1,
        count: 1,
        rates: [0; 16],
    }
}

// The floor and the number that are answered.
fn answer_of(agent: &mut FencedAgent, term: u32, number: u32) -> Result<[u32; 2], Memory> {
    let (floor, _, answer) = agent.apply(term, 0, &command(number))?;
    Ok([floor, answer.held])
}

// What a probe of term 2, a command without a term, one of term 2 and a late one of term 1 are answered.
fn answers_of(agent: &mut FencedAgent) -> Result<[[u32; 2]; 4], Memory> {
    Ok([
        answer_of(agent, 2, 0)?,
        answer_of(agent, 0, 1)?,
        answer_of(agent, 2, 1)?,
        answer_of(agent, 1, 2)?,
    ])
}

const HELD: Held = Held {
    migration: 0,
    number: 1,
};

// Whether each is answered so, and what is held and the floor are right after them.
fn carries_out_its_own(agent: &mut FencedAgent) -> Result<bool, Memory> {
    let answers = answers_of(agent)?;
    let are_right = answers == [[2, 0], [2, 0], [2, 1], [2, 1]];
    Ok(are_right && agent.held(0) == HELD && agent.floor() == 2)
}

fn carries_out_one_term(alloc: Global) -> Result<bool, Memory> {
    let mut agent = FencedAgent::new(Agent::new(alloc));
    let carried = carries_out_its_own(&mut agent);
    drop(agent);
    carried
}

#[test]
fn a_fenced_agent_carries_out_its_own_term_alone(rt: HostRuntime) -> Result<(), Fail> {
    assert!(rt; carries_out_one_term(rt.alloc())?);
    Ok(())
}
