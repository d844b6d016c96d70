//! The words that ask for a report of a journal as it stands, `report --live`.
ghost use Rattle.std.specs.Prelude.{◌≡◌, bytes_eq, drop, map, string_bytes, IfOk};
ghost use Rattle.std.specs.List.{list_any};
ghost use Rattle.swanroll_top.specs.LiveWords.{live_at, live_behind, live_in, live_names, live_pairs, live_with};
ghost use Rattle.text_commands.specs.Words.{are_pairs};

use crate::words::migration_of;
use text_commands::{Unread, begins_with_dash, number_from, words_of};

/// How many seconds may lie between two looks.
const MOST_SECONDS: u64 = 86_400;

/// What is asked for of a journal as it stands: a report as that of a migration of this number, once, or anew
/// each time that it is another one, with so many seconds between two looks; 0 for once.
#[derive(Clone, Copy, Debug, PartialEq, Eq)]
pub struct LiveAsked {
    pub migration: u32,
    pub seconds: u64,
}

/// What the arguments of the program, of which the first is its own name, ask for of a journal as it stands;
/// None where they ask for something else.
pub fn live_asked(arguments: &Result<Vec<String>, Unread>) -> Option<LiveAsked>
    ensures { IfOk arguments.now
        (λ all. result ≡ live_in (map string_bytes (drop 1 all.items))) }
{
    match arguments {
        Ok(arguments) => live_of(words_of(arguments.as_slice())),
        Err(_) => None,
    }
}

fn live_of(words: &[String]) -> Option<LiveAsked>
    ensures { result ≡ live_in (map string_bytes words.now) }
{
    match words {
        [word, rest @ ..] => live_at(word.as_str(), rest),
        [] => None,
    }
}

// What is asked for by this word and those after it.
fn live_at(word: &str, rest: &[String]) -> Option<LiveAsked>
    ensures { result ≡ live_at word.now (map string_bytes rest.now) }
{
    if word == "report" {
        return live_behind(rest);
    }
    None
}

// The same after the word of a report.
fn live_behind(words: &[String]) -> Option<LiveAsked>
    ensures { result ≡ live_behind (map string_bytes words.now) }
{
    match words {
        [word, pairs @ ..] => live_with(word.as_str(), pairs),
        [] => None,
    }
}

fn live_with(word: &str, pairs: &[String]) -> Option<LiveAsked>
    ensures { result ≡ live_with word.now (map string_bytes pairs.now) }
{
    if word == "--live" && are_live_pairs(pairs) {
        return live_pairs(pairs);
    }
    None
}

fn live_pairs(pairs: &[String]) -> Option<LiveAsked>
    ensures { result ≡ live_pairs (map string_bytes pairs.now) }
{
    let seconds = number_from(pairs, "--follow", "0", 0, MOST_SECONDS)?;
    let migration = migration_of(pairs)?;
    Some(LiveAsked { migration, seconds })
}

// Whether the words are pairs, each of a name that is taken here and a value.
fn are_live_pairs(words: &[String]) -> bool
    ensures { result ≡ are_pairs live_names (map string_bytes words.now) }
{
    let mut rest = words;
    while let [name, value, more @ ..] = rest {
        if !takes(name.as_str()) || begins_with_dash(value.as_str()) {
            return false;
        }
        rest = more;
    }
    rest.is_empty()
}

fn takes(name: &str) -> bool
    ensures { result ≡ list_any (bytes_eq name.now) live_names }
{
    matches!(name, "--follow" | "--migration")
}
