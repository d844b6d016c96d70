//! The words of a command that makes a text of its input alone: the command, and pairs of a name and a value.
ghost use Rattle.std.specs.Prelude.{◌≡◌, ◌≤◌, map, string_bytes, bytes_eq, option_map, IfSome};
ghost use Rattle.std.specs.List.{list_any};
ghost use Rattle.order_policy.specs.Answers.{rank_by};
ghost use Rattle.order_policy.specs.Named.{answers_in, policy_named};
ghost use Rattle.text_commands.specs.Words.{are_digits, are_pairs, begins_with_dash, in_range, number_in, number_of, numbered, planner_in, planner_named, policy_in, script_shape_in, text_asked, text_asked_by, text_kind_named, text_names_of, text_with_kind, text_with_pairs, value_or};

use order_policy::{Policies, Policy};
use sim_run::ScriptShape;

/// The largest seed of a script that is drawn, or of a trial.
pub const LARGEST_SEED: u64 = 1_000_000_000_000_000_000;

/// How many events a script that is drawn, or a trial, may be asked for.
pub const MOST_EVENTS: u64 = 100_000;

/// How many digits a number has at the most.
const MOST_DIGITS: usize = 19;

/// A command that makes a text of its input alone.
#[derive(Clone, Copy)]
pub enum TextCommand<'a> {
    /// A plan by a planner.
    Plan(Planner),
    Check,
    Loads,
    Back,
    Explain,
    /// A plan with what shows that fewer rate steps are impossible.
    Least,
    /// A rehearsal under a policy.
    Sim(&'a Policy),
    /// A script of these numbers, which is drawn under a policy.
    Rehearse(ScriptShape, &'a Policy),
}

/// Who chooses a plan.
#[derive(Clone, Copy, Debug, PartialEq, Eq)]
pub enum Planner {
    /// By few steps of a linear program, else from scratch by the least slack.
    Slack,
    /// The same, or the greedy rule's plan in its place where that has fewer rate steps.
    Fewest,
}

/// Such a command by its word.
#[derive(Clone, Copy, Debug, PartialEq, Eq)]
pub enum TextKind {
    Plan,
    Check,
    Loads,
    Back,
    Explain,
    Least,
    Sim,
    Rehearse,
}

/// What the words ask for, if they are a command line of a command that makes a text of its input alone: its
/// word, and after it pairs of a name and a value, each name at most once and in any order. A policy is
/// asked for by its name and has to be there. The program's own name isn't among the words.
#[tactic(auto, unfolding(crate::specs::Words::text_asked_by))]
pub fn text_command_of<'a>(
    words: &[String],
    policies: &'a Policies<Policy>,
) -> Option<TextCommand<'a>>
    ensures { option_map text_asked result
        ≡ text_asked_by (answers_in policies.now) words.now }
{
    match words {
        [word, pairs @ ..] => text_command_with(text_kind_named(word.as_str())?, pairs, policies),
        [] => None,
    }
}

/// The command with this word, if it makes a text of its input alone.
pub fn text_kind_named(word: &str) -> Option<TextKind>
    ensures { result ≡ text_kind_named word.now }
{
    match word {
        "plan" => Some(TextKind::Plan),
        "check" => Some(TextKind::Check),
        "loads" => Some(TextKind::Loads),
        "back" => Some(TextKind::Back),
        "explain" => Some(TextKind::Explain),
        "least" => Some(TextKind::Least),
        "sim" => Some(TextKind::Sim),
        "rehearse" => Some(TextKind::Rehearse),
        _ => None,
    }
}

fn text_command_with<'a>(
    kind: TextKind,
    pairs: &[String],
    policies: &'a Policies<Policy>,
) -> Option<TextCommand<'a>>
    ensures { option_map text_asked result
        ≡ text_with_kind (answers_in policies.now) (map string_bytes pairs.now) kind }
{
    if !are_text_pairs(kind, pairs) {
        return None;
    }
    text_with_pairs(kind, pairs, policies)
}

/// What the words ask for after the word of such a command, where they are pairs of names that it takes and
/// values.
fn text_with_pairs<'a>(
    kind: TextKind,
    pairs: &[String],
    policies: &'a Policies<Policy>,
) -> Option<TextCommand<'a>>
    ensures { option_map text_asked result
        ≡ text_with_pairs (answers_in policies.now) (map string_bytes pairs.now) kind }
{
    match kind {
        TextKind::Plan => Some(TextCommand::Plan(planner_of(pairs)?)),
        TextKind::Check => Some(TextCommand::Check),
        TextKind::Loads => Some(TextCommand::Loads),
        TextKind::Back => Some(TextCommand::Back),
        TextKind::Explain => Some(TextCommand::Explain),
        TextKind::Least => Some(TextCommand::Least),
        TextKind::Sim => Some(TextCommand::Sim(policy_of(pairs, policies)?)),
        TextKind::Rehearse => Some(TextCommand::Rehearse(
            script_shape_of(pairs)?,
            policy_of(pairs, policies)?,
        )),
    }
}

/// Whether such a command takes a name.
pub fn text_takes(kind: TextKind, name: &str) -> bool
    ensures { result ≡ list_any (bytes_eq name.now) (text_names_of kind) }
{
    match kind {
        TextKind::Plan => name == "--planner",
        TextKind::Check | TextKind::Loads | TextKind::Explain | TextKind::Back | TextKind::Least =>
            false,
        TextKind::Sim => name == "--policy",
        TextKind::Rehearse => matches!(name, "--seed" | "--events" | "--policy"),
    }
}

/// Whether the words are pairs, each of a name that the command takes and a value.
fn are_text_pairs(kind: TextKind, words: &[String]) -> bool
    ensures { result ≡ are_pairs (text_names_of kind) (map string_bytes words.now) }
{
    let mut rest = words;
    while let [name, value, more @ ..] = rest {
        if !text_takes(kind, name.as_str()) || begins_with_dash(value.as_str()) {
            return false;
        }
        rest = more;
    }
    rest.is_empty()
}

/// Whether a word begins with `-`, as no value does.
pub fn begins_with_dash(word: &str) -> bool
    ensures { result ≡ begins_with_dash word.now }
{
    matches!(word.as_bytes(), [b'-', ..])
}

/// The planner that the pairs name; `slack` where they name none.
pub fn planner_of(pairs: &[String]) -> Option<Planner>
    ensures { result ≡ planner_in (map string_bytes pairs.now) }
{
    planner_named(value_or(pairs, "--planner", "slack")?)
}

fn planner_named(word: &str) -> Option<Planner>
    ensures { result ≡ planner_named word.now }
{
    match word {
        "slack" => Some(Planner::Slack),
        "fewest" => Some(Planner::Fewest),
        _ => None,
    }
}

/// The policy that the pairs name, if it is there.
fn policy_of<'a>(pairs: &[String], policies: &'a Policies<Policy>) -> Option<&'a Policy>
    ensures { option_map (λ policy. rank_by policy.now.answers) result
        ≡ policy_in (answers_in policies.now) (map string_bytes pairs.now) }
{
    policy_named(policies, value_or(pairs, "--policy", "critical")?)
}

/// The numbers of the script that the pairs name, each with the default of a trial.
pub fn script_shape_of(pairs: &[String]) -> Option<ScriptShape>
    ensures { result ≡ script_shape_in (map string_bytes pairs.now) }
{
    let seed = number_from(pairs, "--seed", "1", 0, LARGEST_SEED)?;
    let events = number_from(pairs, "--events", "1000", 0, MOST_EVENTS)?;
    Some(ScriptShape {
        seed,
        events: events as u32,
    })
}

/// The number that the pairs name, within its range; a default where they name none.
pub fn number_from(pairs: &[String], name: &str, default: &str, low: u64, high: u64) -> Option<u64>
    ensures value { result ≡ numbered name.now default.now low high (map string_bytes pairs.now) }
    ensures least { IfSome result (λ number. low ≤ number) }
    ensures most { IfSome result (λ number. number ≤ high) }
{
    in_range(low, high, long_number_in(value_or(pairs, name, default)?)?)
}

fn in_range(low: u64, high: u64, number: u64) -> Option<u64>
    ensures value { result ≡ in_range low high number }
    ensures least { IfSome result (λ number. low ≤ number) }
    ensures most { IfSome result (λ number. number ≤ high) }
{
    if number < low || number > high {
        return None;
    }
    Some(number)
}

/// A number below 2^64 in 1 to 19 decimal digits.
fn long_number_in(word: &str) -> Option<u64>
    ensures { result ≡ number_of 64 word.now }
{
    if word.len() > MOST_DIGITS || !are_digits(word.as_bytes()) {
        return None;
    }
    match word.parse::<u64>() {
        Ok(number) => Some(number),
        Err(_) => None,
    }
}

/// A number below 2^32 in 1 to 19 decimal digits.
pub fn number_in(word: &str) -> Option<u32>
    ensures { result ≡ number_in word.now }
{
    if word.len() > MOST_DIGITS || !are_digits(word.as_bytes()) {
        return None;
    }
    match word.parse::<u32>() {
        Ok(number) => Some(number),
        Err(_) => None,
    }
}

fn are_digits(bytes: &[u8]) -> bool
    ensures { result ≡ are_digits bytes.now }
{
    let mut rest = bytes;
    while let [byte, more @ ..] = rest {
        if !byte.is_ascii_digit() {
            return false;
        }
        rest = more;
    }
    true
}

/// The policy that stands first under a name.
fn policy_named<'a>(policies: &'a Policies<Policy>, name: &str) -> Option<&'a Policy>
    ensures { option_map (λ policy. rank_by policy.now.answers) result
        ≡ policy_named name.now (answers_in policies.now) }
{
    policies.find(name)
}

/// The value after a name, or the default where it isn't among the pairs; None where it stands there
/// twice.
pub fn value_or<'a>(pairs: &'a [String], name: &str, default: &'a str) -> Option<&'a str>
    ensures { option_map (λ value. value.now) result
        ≡ value_or name.now default.now (map string_bytes pairs.now) }
{
    let mut found = None;
    let mut rest = pairs;
    while let [word, value, more @ ..] = rest {
        if word.as_str() == name {
            if found.is_some() {
                return None;
            }
            found = Some(value.as_str());
        }
        rest = more;
    }
    Some(found.unwrap_or(default))
}
