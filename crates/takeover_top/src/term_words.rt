//! The words of a `run` that names a term, and the same words without it.
ghost use Rattle.std.specs.Prelude.{◌≡◌, ◌+◌, ◌<◌, ◌++◌, bytes_eq, codes, drop, length, map, string_bytes, take, IfOk};
ghost use Rattle.takeover_top.specs.TermWords.{IsTermPlace, named_term, run_term_at, run_term_by, without_term};

use text_commands::{Unread, number_in, value_or, words_of};

/// Which term the arguments of the program, of which the first is its own name, name for a `run`; None where they
/// name none, or are the words of something else.
pub fn run_asked(arguments: &Result<Vec<String>, Unread>) -> Option<u32>
    ensures { IfOk arguments.now (λ all. result ≡ run_term_by (drop 1 all.items)) }
{
    match arguments {
        Ok(arguments) => run_term_of(words_of(arguments.as_slice())),
        Err(_) => None,
    }
}

/// The same of the words of the program.
#[tactic(auto, unfolding(crate::specs::TermWords::run_term_by))]
pub(crate) fn run_term_of(words: &[String]) -> Option<u32>
    ensures { result ≡ run_term_by words.now }
{
    match words {
        [word, pairs @ ..] => run_term_at(word.as_str(), pairs),
        [] => None,
    }
}

// The term that is named by this word and the pairs after it.
fn run_term_at(word: &str, pairs: &[String]) -> Option<u32>
    ensures { result ≡ run_term_at word.now (map string_bytes pairs.now) }
{
    if word == "run" {
        return named_term(pairs);
    }
    None
}

fn named_term(pairs: &[String]) -> Option<u32>
    ensures { result ≡ named_term (map string_bytes pairs.now) }
{
    number_in(value_or(pairs, "--term", "")?)
}

/// The arguments without the pair that names a term first, where there is one.
pub(crate) fn without_term(arguments: Vec<String>) -> Vec<String>
    ensures { result.items ≡ without_term arguments.items }
{
    match term_place(arguments.as_slice()) {
        Some(place) => without_pair(arguments, place),
        None => arguments,
    }
}

// Without the two words from this place on.
fn without_pair(arguments: Vec<String>, place: usize) -> Vec<String>
    requires { place + 1 < length arguments.items }
    ensures { result.items ≡ take place arguments.items ++ drop (place + 2) arguments.items }
{
    let mut arguments = arguments;
    let name = arguments.remove(place);
    let value = arguments.remove(place);
    drop(name);
    drop(value);
    arguments
}

// Where the name of a term stands first, in front of its value: pairs begin at the third argument.
fn term_place(arguments: &[String]) -> Option<usize>
    ensures { IsTermPlace arguments.now result }
{
    let mut place = 2;
    while place < arguments.len() && place + 1 < arguments.len() {
        if is_term(arguments[place].as_str()) {
            return Some(place);
        }
        place += 2;
    }
    None
}

fn is_term(word: &str) -> bool
    ensures { result ≡ bytes_eq word.now (codes "--term") }
{
    word == "--term"
}
