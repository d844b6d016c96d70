//! The words that ask for the problem that a rollout leaves, `left`.
ghost use Rattle.std.specs.Prelude.{◌≡◌, bytes_eq, drop, map, string_bytes, IfOk};
ghost use Rattle.std.specs.List.{list_any};
ghost use Rattle.swanroll_top.specs.LeftWords.{left_at, left_behind, left_in, left_names};
ghost use Rattle.text_commands.specs.Words.{are_pairs};

use crate::words::migration_of;
use text_commands::{Unread, begins_with_dash, words_of};

/// As which migration the arguments of the program, of which the first is its own name, ask for what a rollout
/// leaves; None where they ask for something else.
pub fn left_asked(arguments: &Result<Vec<String>, Unread>) -> Option<u32>
    ensures { IfOk arguments.now
        (λ all. result ≡ left_in (map string_bytes (drop 1 all.items))) }
{
    match arguments {
        Ok(arguments) => left_of(words_of(arguments.as_slice())),
        Err(_) => None,
    }
}

fn left_of(words: &[String]) -> Option<u32>
    ensures { result ≡ left_in (map string_bytes words.now) }
{
    match words {
        [word, rest @ ..] => left_at(word.as_str(), rest),
        [] => None,
    }
}

// What is asked for by this word and those after it.
fn left_at(word: &str, rest: &[String]) -> Option<u32>
    ensures { result ≡ left_at word.now (map string_bytes rest.now) }
{
    if word == "left" {
        return left_behind(rest);
    }
    None
}

fn left_behind(pairs: &[String]) -> Option<u32>
    ensures { result ≡ left_behind (map string_bytes pairs.now) }
{
    if are_left_pairs(pairs) {
        return migration_of(pairs);
    }
    None
}

// Whether the words are pairs, each of a name that is taken here and a value.
fn are_left_pairs(words: &[String]) -> bool
    ensures { result ≡ are_pairs left_names (map string_bytes words.now) }
{
    let mut rest = words;
    while let [name, value, more @ ..] = rest {
        if !takes(name.as_str()) || begins_with_dash(value.as_str()) {
            return false;
        }
        rest = more;
    }
    rest.is_empty()
}

fn takes(name: &str) -> bool
    ensures { result ≡ list_any (bytes_eq name.now) left_names }
{
    matches!(name, "--migration")
}
