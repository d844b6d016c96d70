//! The text of the lines.
ghost use Rattle.std.specs.Prelude.{◌≡◌, ◌++◌, ◌∷◌, IfOk, IfSome, OnOk};
ghost use Rattle.rollout_rules.specs.declared.op.Entry.TheVariants as kind;
ghost use Rattle.rollout_log.specs.Lines as spec;
ghost use Rattle.rollout_log.specs.Lines.{begin_line, done_line, entry_line, lines_at, lines_of, start_line};

use lists::{Memory, Text};
use rollout_rules::{Entry, Op};
use std::alloc::Global;

/// A line for each of the entries, and in front of them, where they are the first, that of a start.
pub(crate) fn text_of(
    alloc: Global,
    ms: u64,
    first: bool,
    found: usize,
    entries: &[Entry],
) -> Result<Text, Memory>
    ensures { IfOk result (λ text. text ≡ lines_of first ms found entries.now) }
{
    if first {
        first_text(alloc, ms, found, entries)
    } else {
        later_text(alloc, ms, entries)
    }
}

fn first_text(alloc: Global, ms: u64, found: usize, entries: &[Entry]) -> Result<Text, Memory>
    ensures { IfOk result (λ text. text ≡ start_line ms found ++ lines_at ms entries.now) }
{
    let mut text = Text::new(alloc);
    push_start(alloc, &mut text, ms, found)?;
    push_entries(alloc, &mut text, ms, entries)?;
    Ok(text)
}

fn later_text(alloc: Global, ms: u64, entries: &[Entry]) -> Result<Text, Memory>
    ensures { IfOk result (λ text. text ≡ lines_at ms entries.now) }
{
    let mut text = Text::new(alloc);
    push_entries(alloc, &mut text, ms, entries)?;
    Ok(text)
}

fn push_start(alloc: Global, text: &mut Text, ms: u64, found: usize) -> Result<(), Memory>
    ensures { OnOk result (text.new ≡ text.old ++ start_line ms found) }
{
    let part = format!(in alloc; "{ms} start {found}\n")?;
    text.push_str(&part)
}

#[tactic(auto, using(crate::proofs::Lining::line_off, crate::proofs::Lining::no_line_left))]
fn push_entries(alloc: Global, text: &mut Text, ms: u64, entries: &[Entry]) -> Result<(), Memory>
    ensures { OnOk result (text.new ≡ text.old ++ lines_at ms entries.now) }
{
    let mut rest = entries;
    while let [entry, later @ ..] = rest {
        push_entry(alloc, text, ms, entry)?;
        rest = later;
    }
    Ok(())
}

fn push_entry(alloc: Global, text: &mut Text, ms: u64, entry: &Entry) -> Result<(), Memory>
    ensures { OnOk result (text.new ≡ text.old ++ entry_line ms entry.now) }
{
    match entry {
        Entry::Begin(op) => push_begin(alloc, text, ms, op.item, op.number),
        Entry::Done(op) => push_done(alloc, text, ms, op.item, op.number),
    }
}

fn push_begin(alloc: Global, text: &mut Text, ms: u64, item: u32, number: u32) -> Result<(), Memory>
    ensures { OnOk result (text.new ≡ text.old ++ begin_line ms item number) }
{
    let part = format!(in alloc; "{ms} begin {item} {number}\n")?;
    text.push_str(&part)
}

fn push_done(alloc: Global, text: &mut Text, ms: u64, item: u32, number: u32) -> Result<(), Memory>
    ensures { OnOk result (text.new ≡ text.old ++ done_line ms item number) }
{
    let part = format!(in alloc; "{ms} done {item} {number}\n")?;
    text.push_str(&part)
}

/// The entries of a list after those of another, where it begins with them.
#[tactic(auto, using(crate::proofs::Lining::entry_off, crate::proofs::Lining::no_entry_left))]
pub(crate) fn behind<'e>(known: &[Entry], list: &'e [Entry]) -> Option<&'e [Entry]>
    ensures { IfSome result (λ more. list.now ≡ known.now ++ more.now) }
{
    let mut left = known;
    let mut rest = list;
    while let [entry, later @ ..] = left {
        match without(*entry, rest) {
            Some(more) => rest = more,
            None => return None,
        }
        left = later;
    }
    Some(rest)
}

// A list without its first entry, where that is this one.
#[tactic(auto, using(crate::proofs::Lining::entry_there))]
fn without<'e>(entry: Entry, list: &'e [Entry]) -> Option<&'e [Entry]>
    ensures { IfSome result (λ later. list.now ≡ entry ∷ later.now) }
{
    match list {
        [first, later @ ..] if is_same(*first, entry) => Some(later),
        _ => None,
    }
}

fn is_same(one: Entry, other: Entry) -> bool
    ensures { result ≡ spec.is_same one other }
{
    match one {
        Entry::Begin(op) => is_begin(op, other),
        Entry::Done(op) => is_done(op, other),
    }
}

fn is_begin(op: Op, other: Entry) -> bool
    ensures { result ≡ spec.is_same (kind.Begin op) other }
{
    match other {
        Entry::Begin(that) => is_same_op(op, that),
        Entry::Done(_that) => false,
    }
}

fn is_done(op: Op, other: Entry) -> bool
    ensures { result ≡ spec.is_same (kind.Done op) other }
{
    match other {
        Entry::Begin(_that) => false,
        Entry::Done(that) => is_same_op(op, that),
    }
}

fn is_same_op(op: Op, that: Op) -> bool
    ensures { result ≡ spec.is_same_op op that }
{
    op.item == that.item && op.number == that.number
}
