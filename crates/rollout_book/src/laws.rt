//! What an image that a book has left says to the next opening.
ghost use Rattle.std.specs.Prelude.{◌≡◌, ℕ, List, Some, length, true};
ghost use Rattle.rollout_rules.specs.Items.{item_count};
ghost use Rattle.rollout_rules.specs.Legal.{is_legal};
ghost use Rattle.rollout_rules.specs.Wan.{Rollout};
ghost use Rattle.intent_journal.specs.declared.digest.Digest.{Digest};
ghost use Rattle.intent_journal.specs.Entries.{entry_rows};
ghost use Rattle.intent_journal.specs.Images.{journal_in};
ghost use Rattle.intent_journal.specs.Parts.{Kept};
ghost use Rattle.intent_journal.specs.Verdicts.{Stands, verdict};

use intent_journal::laws::the_rows_of_entries_are_these_entries;
use rollout_rules::Entry;

/// A journal of this rollout's digest and migration that keeps a start and the rows of entries, legal
/// together, is judged to stand with just these: no opening refuses it.
pub fn a_legal_list_is_found_again(entries: &[Entry])
    ensures { (r : Rollout) (digest : Digest) (kept : Kept) (image start : List ℕ)
        → length start ≡ item_count r.problem
        → is_legal r.problem r.plan (record { start = start; entries = entries.now }) ≡ true
        → journal_in image ≡ Some kept
        → kept.digest ≡ digest.bytes
        → kept.migration ≡ digest.migration
        → kept.starts ≡ start
        → kept.rows ≡ entry_rows entries.now
        → verdict r digest image ≡ Stands start entries.now }
{
    the_rows_of_entries_are_these_entries(entries);
}
