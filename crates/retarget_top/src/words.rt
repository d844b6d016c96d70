//! The words that ask for another target, `retarget`.
ghost use Rattle.std.specs.Prelude.{◌≡◌, ◌+◌, ◌<◌, ◌^◌, bytes_eq, drop, map, option_map, string_bytes, IfOk, IfSome};
ghost use Rattle.std.specs.List.{list_any};
ghost use Rattle.text_commands.specs.Words.{are_pairs};
ghost use Rattle.retarget_top.specs.Words.{asked, before_last, migration_in, retarget_at, retarget_behind, retarget_in, retarget_names, retarget_pairs, shed_in};

use text_commands::{Planner, Unread, begins_with_dash, number_in, planner_of, value_or, words_of};

/// The largest number of a migration, which has no next one.
const LAST_MIGRATION: u32 = u32::MAX;

/// What the words ask for: as which migration the rollout was begun, who chooses a plan, and the link that is to be
/// shed, `FROM>TO`; an empty name is none.
#[derive(Clone, Copy, Debug)]
pub struct RetargetAsked<'a> {
    pub migration: u32,
    pub planner: Planner,
    pub shed: &'a str,
}

/// What the arguments of the program, of which the first is its own name, ask for, where they ask for another
/// target.
pub fn retarget_asked<'a>(arguments: &'a Result<Vec<String>, Unread>) -> Option<RetargetAsked<'a>>
    ensures asked { IfOk arguments.now
        (λ all. option_map asked result
        ≡ retarget_in (map string_bytes (drop 1 all.items))) }
    ensures next { IfSome result (λ a. a.migration + 1 < 2 ^ 32) }
{
    match arguments {
        Ok(arguments) => retarget_of(words_of(arguments.as_slice())),
        Err(_) => None,
    }
}

fn retarget_of<'a>(words: &'a [String]) -> Option<RetargetAsked<'a>>
    ensures asked { option_map asked result ≡ retarget_in (map string_bytes words.now) }
    ensures next { IfSome result (λ a. a.migration + 1 < 2 ^ 32) }
{
    match words {
        [word, rest @ ..] => retarget_at(word.as_str(), rest),
        [] => None,
    }
}

// What is asked for by this word and those after it.
fn retarget_at<'a>(word: &str, rest: &'a [String]) -> Option<RetargetAsked<'a>>
    ensures asked { option_map asked result ≡ retarget_at word.now (map string_bytes rest.now) }
    ensures next { IfSome result (λ a. a.migration + 1 < 2 ^ 32) }
{
    if word == "retarget" {
        return retarget_behind(rest);
    }
    None
}

fn retarget_behind<'a>(pairs: &'a [String]) -> Option<RetargetAsked<'a>>
    ensures asked { option_map asked result ≡ retarget_behind (map string_bytes pairs.now) }
    ensures next { IfSome result (λ a. a.migration + 1 < 2 ^ 32) }
{
    if are_retarget_pairs(pairs) {
        return retarget_pairs(pairs);
    }
    None
}

fn retarget_pairs<'a>(pairs: &'a [String]) -> Option<RetargetAsked<'a>>
    ensures asked { option_map asked result ≡ retarget_pairs (map string_bytes pairs.now) }
    ensures next { IfSome result (λ a. a.migration + 1 < 2 ^ 32) }
{
    let migration = migration_of(pairs)?;
    let planner = planner_of(pairs)?;
    let shed = shed_of(pairs)?;
    Some(RetargetAsked {
        migration,
        planner,
        shed,
    })
}

fn migration_of(pairs: &[String]) -> Option<u32>
    ensures value { result ≡ migration_in (map string_bytes pairs.now) }
    ensures next { IfSome result (λ m. m + 1 < 2 ^ 32) }
{
    before_last(number_in(value_or(pairs, "--migration", "0")?)?)
}

fn before_last(migration: u32) -> Option<u32>
    ensures value { result ≡ before_last migration }
    ensures next { IfSome result (λ m. m + 1 < 2 ^ 32) }
{
    if migration < LAST_MIGRATION {
        return Some(migration);
    }
    None
}

fn shed_of<'a>(pairs: &'a [String]) -> Option<&'a str>
    ensures { option_map (λ s. s.now) result ≡ shed_in (map string_bytes pairs.now) }
{
    value_or(pairs, "--shed", "")
}

// Whether the words are pairs, each of a name that is taken here and a value.
fn are_retarget_pairs(words: &[String]) -> bool
    ensures { result ≡ are_pairs retarget_names (map string_bytes words.now) }
{
    let mut rest = words;
    while let [name, value, more @ ..] = rest {
        if !takes(name.as_str()) || begins_with_dash(value.as_str()) {
            return false;
        }
        rest = more;
    }
    rest.is_empty()
}

fn takes(name: &str) -> bool
    ensures { result ≡ list_any (bytes_eq name.now) retarget_names }
{
    matches!(name, "--migration" | "--planner" | "--shed")
}
