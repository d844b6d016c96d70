ghost use Rattle.std.specs.Prelude.{◌≡◌, ◌<◌, length, slice_index};
ghost use Rattle.rollout_report.specs.Counts.{IsShort, entry_at, item_of};

use rollout_rules::Entry;
use std::marker::Model;

/// A history by its parts: how many operations of each item were settled at the start, and the entries
/// since. It need be neither legal nor of any one plan.
#[derive(Debug, Drop)]
pub struct History<'h> {
    start: &'h [u32],
    entries: &'h [Entry],
}

impl<'h> Model for History<'h> {
    ghost use Rattle.rollout_rules.specs.History as rules;
    ghost use Rattle.rollout_report.specs.Counts.{IsShort};

    ghost Value = { rules.History };

    ghost view = { λ h. record { start = h.start.now; entries = h.entries.now } };

    ghost invariant = { λ h. IsShort (record { start = h.start.now; entries = h.entries.now }) };
}

impl<'h> History<'h> {
    /// The history with this start and these entries.
    pub fn new(start: &'h [u32], entries: &'h [Entry]) -> History<'h>
        ensures { result ≡ record { start = start.now; entries = entries.now } }
    {
        History { start, entries }
    }

    /// How many operations of each item were settled at the start, by the item's number.
    pub fn start(&self) -> &[u32]
        ensures { result.now ≡ self.now.start }
    {
        self.start
    }

    /// The entries since the start, the oldest first.
    pub fn entries(&self) -> &[Entry]
        ensures { result.now ≡ self.now.entries }
    {
        self.entries
    }

    /// How many operations of an item were settled at the start: 0 where it says nothing.
    pub(crate) fn settled_at_start(&self, item: usize) -> u32
        ensures { result ≡ slice_index self.now.start item }
    {
        if item < self.start.len() {
            self.start[item]
        } else {
            0
        }
    }

    /// How many entries there are.
    pub(crate) fn len(&self) -> usize
        ensures { result ≡ length self.now.entries }
    {
        self.entries.len()
    }

    /// The entry at a place.
    pub(crate) fn entry(&self, place: usize) -> Entry
        requires { place < length self.now.entries }
        ensures entry { result ≡ entry_at self.now.entries place }
        ensures short { IsShort self.now }
    {
        let entries = self.entries;
        entries[place]
    }

    /// The number of the item of the entry at a place.
    pub(crate) fn item(&self, place: usize) -> u32
        requires { place < length self.now.entries }
        ensures { result ≡ item_of (entry_at self.now.entries place) }
    {
        match self.entry(place) {
            Entry::Begin(op) => op.item,
            Entry::Done(op) => op.item,
        }
    }
}
