ghost use Rattle.std.specs.Prelude.{◌≡◌, map, string_bytes, bytes_eq, option_map, IfSome};
ghost use Rattle.std.specs.List.{list_any};
ghost use Rattle.order_policy.specs.Answers.{rank_by};
ghost use Rattle.order_policy.specs.Named.{answers_in, policy_named};
ghost use Rattle.text_commands.specs.Words.{are_pairs, policy_in, text_asked, text_with_pairs};
ghost use Rattle.swanroll_top.specs.Words.{asked, asked_by, before_last, guests_in, held_in, in_millions, kind_named, limits_in, migration_in, names_of, origin_in, origin_named, other_kind_named, rollback_in, shape_in, trial_numbers, with_kind};
ghost use Rattle.swanroll_top.specs.Tries.{HasNext, IsAskedShape, IsShape};

use controller_run::Limits;
use order_policy::{Policies, Policy};
use rollback_service::BackFrom;
use rollout_rules::{MOST_FLOWS, MOST_SWITCHES};
use sim_run::Shape;
use text_commands::{
    LARGEST_SEED, MOST_EVENTS, TextCommand, TextKind, begins_with_dash, number_from, number_in,
    planner_of, script_shape_of, text_kind_named, text_takes, value_or,
};

/// How many guests an agent may be asked to serve.
const MOST_GUESTS: u32 = 1_000_000;

/// How many workers a rollout may be asked for.
const MOST_WORKERS: u64 = 16;

/// In how many rounds a worker may be asked to offer commands, or a switch be asked what it holds.
const MOST_ROUNDS: u64 = 200_000;

/// The last number of a migration, which has no next one.
const LAST_MIGRATION: u32 = 4_294_967_295;

/// What a command line asks for: a command, and what its pairs say.
#[derive(Clone, Copy)]
pub enum Command<'a> {
    /// A text of the input alone.
    Text(TextCommand<'a>),
    /// A report of the journal, as that of a migration of this number.
    Report(u32),
    /// The service of so many guests.
    Agent(u32),
    /// A trial of these numbers under a policy.
    Trial(Shape, &'a Policy),
    /// A rollout within these limits under a policy.
    Run(Limits, &'a Policy),
    /// A drain of a rollout within these limits.
    Drain(Limits),
    /// A rollback within these limits, from where it says; its migration has a next one.
    Rollback(Limits, BackFrom),
    /// The question what switches hold, in at most so many rounds.
    Held(u32),
}

/// A command by its word.
#[derive(Clone, Copy, Debug, PartialEq, Eq)]
pub enum Kind {
    /// That of a command which makes a text of its input alone.
    Text(TextKind),
    Report,
    Agent,
    Trial,
    Run,
    Drain,
    Rollback,
    Held,
}

/// What the words ask for, if they are a command line: the word of a command, and after it pairs of a
/// name and a value, each name at most once and in any order. A policy is asked for by its name and has
/// to be there. The program's own name isn't among the words.
#[tactic(auto, unfolding(crate::specs::Words::asked_by))]
pub fn command_of<'a>(words: &[String], policies: &'a Policies<Policy>) -> Option<Command<'a>>
    ensures asked { option_map asked result ≡ asked_by (answers_in policies.now) words.now }
    ensures within { IfSome result (λ command. IsAskedShape (asked command)) }
{
    match words {
        [word, pairs @ ..] => command_with(kind_named(word.as_str())?, pairs, policies),
        [] => None,
    }
}

fn kind_named(word: &str) -> Option<Kind>
    ensures { result ≡ kind_named word.now }
{
    match text_kind_named(word) {
        Some(text) => Some(Kind::Text(text)),
        None => other_kind_named(word),
    }
}

fn other_kind_named(word: &str) -> Option<Kind>
    ensures { result ≡ other_kind_named word.now }
{
    match word {
        "report" => Some(Kind::Report),
        "agent" => Some(Kind::Agent),
        "trial" => Some(Kind::Trial),
        "run" => Some(Kind::Run),
        "drain" => Some(Kind::Drain),
        "rollback" => Some(Kind::Rollback),
        "held" => Some(Kind::Held),
        _ => None,
    }
}

fn command_with<'a>(
    kind: Kind,
    pairs: &[String],
    policies: &'a Policies<Policy>,
) -> Option<Command<'a>>
    ensures asked { option_map asked result
        ≡ with_kind (answers_in policies.now) (map string_bytes pairs.now) kind }
    ensures within { IfSome result (λ command. IsAskedShape (asked command)) }
{
    if !are_pairs(kind, pairs) {
        return None;
    }
    match kind {
        Kind::Text(text) => Some(Command::Text(text_with_pairs(text, pairs, policies)?)),
        Kind::Report => Some(Command::Report(migration_of(pairs)?)),
        Kind::Agent => Some(Command::Agent(guests_of(pairs)?)),
        Kind::Trial => Some(Command::Trial(shape_of(pairs)?, policy_of(pairs, policies)?)),
        Kind::Run => Some(Command::Run(limits_of(pairs)?, policy_of(pairs, policies)?)),
        Kind::Drain => Some(Command::Drain(limits_of(pairs)?)),
        Kind::Rollback => Some(Command::Rollback(rollback_of(pairs)?, origin_of(pairs)?)),
        Kind::Held => Some(Command::Held(held_of(pairs)?)),
    }
}

// The pairs of a command that makes a text, as `text_commands` reads them. A call of a lower crate that gives back a policy counts as one that makes
// a closure, and what takes policies and calls it gets no proof; so it is read here once more.
fn text_with_pairs<'a>(
    kind: TextKind,
    pairs: &[String],
    policies: &'a Policies<Policy>,
) -> Option<TextCommand<'a>>
    ensures { option_map text_asked result
        ≡ text_with_pairs (answers_in policies.now) (map string_bytes pairs.now) kind }
{
    match kind {
        TextKind::Plan => Some(TextCommand::Plan(planner_of(pairs)?)),
        TextKind::Check => Some(TextCommand::Check),
        TextKind::Loads => Some(TextCommand::Loads),
        TextKind::Back => Some(TextCommand::Back),
        TextKind::Explain => Some(TextCommand::Explain),
        TextKind::Least => Some(TextCommand::Least),
        TextKind::Sim => Some(TextCommand::Sim(policy_of(pairs, policies)?)),
        TextKind::Rehearse => Some(TextCommand::Rehearse(
            script_shape_of(pairs)?,
            policy_of(pairs, policies)?,
        )),
    }
}

// The policy that is asked for.
fn policy_of<'a>(pairs: &[String], policies: &'a Policies<Policy>) -> Option<&'a Policy>
    ensures { option_map (λ policy. rank_by policy.now.answers) result
        ≡ policy_in (answers_in policies.now) (map string_bytes pairs.now) }
{
    policy_named(policies, value_or(pairs, "--policy", "critical")?)
}

// The policy that stands first under a name.
fn policy_named<'a>(policies: &'a Policies<Policy>, name: &str) -> Option<&'a Policy>
    ensures { option_map (λ policy. rank_by policy.now.answers) result
        ≡ policy_named name.now (answers_in policies.now) }
{
    policies.find(name)
}

/// Whether the command takes a name.
fn takes(kind: Kind, name: &str) -> bool
    ensures { result ≡ list_any (bytes_eq name.now) (names_of kind) }
{
    match kind {
        Kind::Text(text) => text_takes(text, name),
        Kind::Report => name == "--migration",
        Kind::Agent => name == "--guests",
        Kind::Trial => names_a_number(name) || name == "--policy",
        Kind::Run => matches!(name, "--workers" | "--rounds" | "--policy" | "--migration"),
        Kind::Drain => matches!(name, "--workers" | "--rounds" | "--migration"),
        Kind::Rollback => matches!(name, "--workers" | "--rounds" | "--migration" | "--from"),
        Kind::Held => name == "--rounds",
    }
}

/// Whether a trial takes a number under this name.
fn names_a_number(name: &str) -> bool
    ensures { result ≡ list_any (bytes_eq name.now) trial_numbers }
{
    matches!(
        name,
        "--k" | "--switches" | "--flows" | "--seed" | "--events"
    )
}

/// Whether the words are pairs, each of a name that the command takes and a value.
fn are_pairs(kind: Kind, words: &[String]) -> bool
    ensures { result ≡ are_pairs (names_of kind) (map string_bytes words.now) }
{
    let mut rest = words;
    while let [name, value, more @ ..] = rest {
        if !takes(kind, name.as_str()) || begins_with_dash(value.as_str()) {
            return false;
        }
        rest = more;
    }
    rest.is_empty()
}

/// The number of the migration that the pairs name; 0 where they name none.
pub(crate) fn migration_of(pairs: &[String]) -> Option<u32>
    ensures { result ≡ migration_in (map string_bytes pairs.now) }
{
    number_in(value_or(pairs, "--migration", "0")?)
}

/// How a rollout is to be run: by so many workers, from 1 to 16, each in at most so many rounds, from 1 to
/// 200,000, and as which migration.
fn limits_of(pairs: &[String]) -> Option<Limits>
    ensures { result ≡ limits_in (map string_bytes pairs.now) }
{
    let workers = number_from(pairs, "--workers", "2", 1, MOST_WORKERS)?;
    let rounds = number_from(pairs, "--rounds", "1000", 1, MOST_ROUNDS)?;
    let migration = migration_of(pairs)?;
    Some(Limits {
        workers: workers as u32,
        rounds: rounds as u32,
        migration,
    })
}

/// How a rollback is to be run: as a rollout, of a migration that has a next one.
fn rollback_of(pairs: &[String]) -> Option<Limits>
    ensures asked { result ≡ rollback_in (map string_bytes pairs.now) }
    ensures within { IfSome result (λ limits. HasNext limits) }
{
    before_last(limits_of(pairs)?)
}

fn before_last(limits: Limits) -> Option<Limits>
    ensures asked { result ≡ before_last limits }
    ensures within { IfSome result (λ limits. HasNext limits) }
{
    if limits.migration < LAST_MIGRATION {
        return Some(limits);
    }
    None
}

/// From where the pairs ask for a rollback; from a level where they don't say.
fn origin_of(pairs: &[String]) -> Option<BackFrom>
    ensures { result ≡ origin_in (map string_bytes pairs.now) }
{
    origin_named(value_or(pairs, "--from", "level")?)
}

fn origin_named(word: &str) -> Option<BackFrom>
    ensures { result ≡ origin_named word.now }
{
    match word {
        "level" => Some(BackFrom::Level),
        "here" => Some(BackFrom::Here),
        _ => None,
    }
}

/// In how many rounds a switch may be asked what it holds, from 1 to 200,000; 10 where the pairs name none.
fn held_of(pairs: &[String]) -> Option<u32>
    ensures { result ≡ held_in (map string_bytes pairs.now) }
{
    let rounds = number_from(pairs, "--rounds", "10", 1, MOST_ROUNDS)?;
    Some(rounds as u32)
}

/// The number of guests that the pairs name, from 1 to a million; 1 where they name none.
fn guests_of(pairs: &[String]) -> Option<u32>
    ensures { result ≡ guests_in (map string_bytes pairs.now) }
{
    in_millions(number_in(value_or(pairs, "--guests", "1")?)?)
}

fn in_millions(number: u32) -> Option<u32>
    ensures { result ≡ in_millions number }
{
    if number < 1 || number > MOST_GUESTS {
        return None;
    }
    Some(number)
}

/// The numbers of the trial that the pairs name, each with a default of its own.
fn shape_of(pairs: &[String]) -> Option<Shape>
    ensures shape { result ≡ shape_in (map string_bytes pairs.now) }
    ensures within { IfSome result (λ shape. IsShape shape) }
{
    let k = number_from(pairs, "--k", "4", 2, 64)?;
    let switches = number_from(pairs, "--switches", "24", 3, MOST_SWITCHES as u64)?;
    let flows = number_from(pairs, "--flows", "24", 0, MOST_FLOWS as u64)?;
    let seed = number_from(pairs, "--seed", "1", 0, LARGEST_SEED)?;
    let events = number_from(pairs, "--events", "1000", 0, MOST_EVENTS)?;
    Some(Shape {
        k: k as u32,
        switches: switches as u32,
        flows: flows as u32,
        seed,
        events: events as u32,
    })
}
