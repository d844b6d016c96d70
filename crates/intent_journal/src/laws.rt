//! What a list that was given and the bytes of an image say of one another.
ghost use Rattle.std.specs.Prelude.{◌≡◌, ◌<◌, ◌^◌, ℕ, List, [], Some, true};
ghost use Rattle.rollout_rules.specs.Wan.{Rollout};
ghost use Rattle.rollout_rules.specs.declared.op.Entry.{Entry};
ghost use Rattle.intent_journal.specs.declared.digest.Digest.{Digest};
ghost use Rattle.intent_journal.specs.Entries.{AllSmall, IsSmall, entry_rows};
ghost use Rattle.intent_journal.specs.Images.{is_blank, journal_in};
ghost use Rattle.intent_journal.specs.Parts.{Kept};
ghost use Rattle.intent_journal.specs.Reading.{Lists};
ghost use Rattle.intent_journal.specs.Verdicts.{Stands, verdict};

use rollout_rules::{Entry, Op};

/// An image of which this start and list were judged stands for that list.
pub fn what_was_judged_is_the_list_of_the_image()
    ensures { (r : Rollout) (digest : Digest) (image start : List ℕ) (list : List Entry)
        → verdict r digest image ≡ Stands start list
        → Lists list image }
{}

/// A blank image stands for the empty list.
#[tactic(auto, using(crate::proofs::Listings::blank_lists))]
pub fn a_blank_image_has_the_empty_list()
    ensures { (image : List ℕ) → is_blank image ≡ true → Lists [] image }
{}

/// A journal that keeps the rows of entries stands for these entries.
pub fn the_rows_of_entries_are_these_entries(entries: &[Entry])
    ensures { (kept : Kept) (image : List ℕ)
        → kept.rows ≡ entry_rows entries.now
        → journal_in image ≡ Some kept
        → Lists entries.now image }
{
    see_all(entries);
}

// Each number of an entry has four bytes.
fn see_all(entries: &[Entry])
    ensures { AllSmall entries.now }
{
    let mut rest = entries;
    while let [entry, later @ ..] = rest {
        see(entry);
        rest = later;
    }
}

fn see(entry: &Entry)
    ensures { IsSmall entry.now }
{
    match entry {
        Entry::Begin(op) => see_numbers(*op),
        Entry::Done(op) => see_numbers(*op),
    }
}

fn see_numbers(op: Op)
    ensures item { op.item < 2 ^ 32 }
    ensures number { op.number < 2 ^ 32 }
{}
