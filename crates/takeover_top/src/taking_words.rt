//! The words of `takeover`.
ghost use Rattle.std.specs.Prelude.{◌≡◌, ◌<◌, bytes_eq, drop, map, option_map, string_bytes, IfOk, IfSome};
ghost use Rattle.std.specs.List.{list_any};
ghost use Rattle.order_policy.specs.Answers.{rank_by};
ghost use Rattle.order_policy.specs.Named.{answers_in, policy_named};
ghost use Rattle.swanroll_top.specs.Words.{limits_in, migration_in};
ghost use Rattle.text_commands.specs.Words.{are_pairs, policy_in};
ghost use Rattle.takeover_top.specs.TakingWords.{taking, taking_after, taking_at, taking_by, taking_in, taking_names, term_in, term_of, with_names};

use controller_run::Limits;
use order_policy::{Policies, Policy};
use text_commands::{Unread, begins_with_dash, number_from, number_in, value_or, words_of};

/// The largest term.
const MOST_TERM: u64 = 4_294_967_295;

/// How many workers a rollout may be asked for.
const MOST_WORKERS: u64 = 16;

/// In how many rounds a switch may be asked what it holds, and a worker offer commands.
const MOST_ROUNDS: u64 = 200_000;

/// What the words of a takeover ask for: a term, how the rollout is to be run, and under which policy.
#[derive(Clone, Copy)]
pub(crate) struct Taking<'a> {
    pub term: u32,
    pub limits: Limits,
    pub policy: &'a Policy,
}

/// For which term the arguments of the program, of which the first is its own name, ask for a takeover; None where
/// they ask for something else, or aren't the words of one.
pub fn takeover_asked(
    arguments: &Result<Vec<String>, Unread>,
    policies: &Policies<Policy>,
) -> Option<u32>
    ensures asked { IfOk arguments.now
        (λ all. result
        ≡ option_map term_of (taking_by (answers_in policies.now) (drop 1 all.items))) }
    ensures some { IfSome result (λ term. 0 < term) }
{
    match arguments {
        Ok(arguments) => term_asked(words_of(arguments.as_slice()), policies),
        Err(_) => None,
    }
}

fn term_asked(words: &[String], policies: &Policies<Policy>) -> Option<u32>
    ensures asked { result ≡ option_map term_of (taking_by (answers_in policies.now) words.now) }
    ensures some { IfSome result (λ term. 0 < term) }
{
    let taking = taking_of(words, policies)?;
    Some(taking.term)
}

/// What the words ask for, if they are those of a takeover.
#[tactic(auto, unfolding(crate::specs::TakingWords::taking_by))]
pub(crate) fn taking_of<'a>(words: &[String], policies: &'a Policies<Policy>) -> Option<Taking<'a>>
    ensures asked { option_map (λ t. taking t.term t.limits (rank_by t.policy.now.answers)) result
        ≡ taking_by (answers_in policies.now) words.now }
    ensures some { IfSome result (λ t. 0 < t.term) }
{
    match words {
        [word, pairs @ ..] => taking_at(word.as_str(), pairs, policies),
        [] => None,
    }
}

// What is asked for by this word and the pairs after it.
fn taking_at<'a>(word: &str, pairs: &[String], policies: &'a Policies<Policy>) -> Option<Taking<'a>>
    ensures asked { option_map (λ t. taking t.term t.limits (rank_by t.policy.now.answers)) result
        ≡ taking_at (answers_in policies.now) word.now (map string_bytes pairs.now) }
    ensures some { IfSome result (λ t. 0 < t.term) }
{
    if word == "takeover" {
        return taking_after(pairs, policies);
    }
    None
}

fn taking_after<'a>(pairs: &[String], policies: &'a Policies<Policy>) -> Option<Taking<'a>>
    ensures asked { option_map (λ t. taking t.term t.limits (rank_by t.policy.now.answers)) result
        ≡ taking_after (answers_in policies.now) (map string_bytes pairs.now) }
    ensures some { IfSome result (λ t. 0 < t.term) }
{
    if are_taking_pairs(pairs) {
        return with_names(pairs, policies);
    }
    None
}

fn with_names<'a>(pairs: &[String], policies: &'a Policies<Policy>) -> Option<Taking<'a>>
    ensures asked { option_map (λ t. taking t.term t.limits (rank_by t.policy.now.answers)) result
        ≡ with_names (answers_in policies.now) (map string_bytes pairs.now) }
    ensures some { IfSome result (λ t. 0 < t.term) }
{
    let term = term_in(pairs)?;
    let limits = limits_of(pairs)?;
    let policy = policy_of(pairs, policies)?;
    Some(Taking {
        term,
        limits,
        policy,
    })
}

// The term that the pairs name.
fn term_in(pairs: &[String]) -> Option<u32>
    ensures asked { result ≡ term_in (map string_bytes pairs.now) }
    ensures some { IfSome result (λ term. 0 < term) }
{
    let term = number_from(pairs, "--term", "0", 1, MOST_TERM)?;
    Some(term as u32)
}

// How the rollout is to be run, as the words of `run` say it.
fn limits_of(pairs: &[String]) -> Option<Limits>
    ensures { result ≡ limits_in (map string_bytes pairs.now) }
{
    let workers = number_from(pairs, "--workers", "2", 1, MOST_WORKERS)?;
    let rounds = number_from(pairs, "--rounds", "1000", 1, MOST_ROUNDS)?;
    let migration = migration_of(pairs)?;
    Some(Limits {
        workers: workers as u32,
        rounds: rounds as u32,
        migration,
    })
}

fn migration_of(pairs: &[String]) -> Option<u32>
    ensures { result ≡ migration_in (map string_bytes pairs.now) }
{
    number_in(value_or(pairs, "--migration", "0")?)
}

// The policy that is asked for. It is read here, since a call of a lower crate that gives one back gets no proof.
fn policy_of<'a>(pairs: &[String], policies: &'a Policies<Policy>) -> Option<&'a Policy>
    ensures { option_map (λ policy. rank_by policy.now.answers) result
        ≡ policy_in (answers_in policies.now) (map string_bytes pairs.now) }
{
    policy_named(policies, value_or(pairs, "--policy", "critical")?)
}

fn policy_named<'a>(policies: &'a Policies<Policy>, name: &str) -> Option<&'a Policy>
    ensures { option_map (λ policy. rank_by policy.now.answers) result
        ≡ policy_named name.now (answers_in policies.now) }
{
    policies.find(name)
}

// Whether the words are pairs, each of a name that is taken here and a value.
fn are_taking_pairs(words: &[String]) -> bool
    ensures { result ≡ are_pairs taking_names (map string_bytes words.now) }
{
    let mut rest = words;
    while let [name, value, more @ ..] = rest {
        if !takes(name.as_str()) || begins_with_dash(value.as_str()) {
            return false;
        }
        rest = more;
    }
    rest.is_empty()
}

fn takes(name: &str) -> bool
    ensures { result ≡ list_any (bytes_eq name.now) taking_names }
{
    matches!(
        name,
        "--term" | "--workers" | "--rounds" | "--policy" | "--migration"
    )
}
