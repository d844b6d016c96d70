//! What a start has read of a book's journal, and what it reads of what came since.
ghost use Rattle.std.specs.Prelude.{◌≡◌, ◌<◌, true, length};
ghost use Rattle.intent_journal.specs.States.{IsGate};

use disk_model::MemoryDisk;
use intent_journal::entries_behind;
use rollout_book::JournaledRounds;
use rollout_rules::{Entry, EntryList};
use std::alloc::Global;

/// How far the journal of a book was read: up to this gate, after so many entries.
#[derive(Clone, Copy)]
pub(crate) struct Mark {
    gate: usize,
    entries: usize,
}

impl Mark {
    /// All that a book's journal has.
    pub(crate) fn behind(book: &JournaledRounds<MemoryDisk>) -> Mark
        ensures gate { book.now.live ≡ true
            → IsGate result.gate book.now.disk.timeline.medium.bytes }
        ensures entries { result.entries ≡ length book.now.entries }
    {
        Mark {
            gate: book.gate() as usize,
            entries: book.entries().len(),
        }
    }
}

/// Whether the batches that stand on a book's disk after a mark are read as the entries that the book has after
/// it. Not where no memory is found to read them. Time: those batches.
pub(crate) fn tells_the_same(
    alloc: Global,
    book: &JournaledRounds<MemoryDisk>,
    mark: Mark,
) -> bool {
    let image = book.disk().bytes();
    if mark.gate < image.len() {
        has_behind(alloc, image, mark, book.entries())
    } else {
        false
    }
}

/// The same of an image and of entries.
fn has_behind(alloc: Global, image: &[u8], mark: Mark, entries: &[Entry]) -> bool
    requires { mark.gate < length image.now }
{
    match entries_behind(alloc, image, mark.gate) {
        Ok(new) => are_behind(new, entries, mark.entries),
        Err(_) => false,
    }
}

/// Whether these are all entries after the first so many.
fn are_behind(new: Option<EntryList>, entries: &[Entry], count: usize) -> bool {
    match new {
        Some(new) => count <= entries.len() && &entries[count..] == new.as_slice(),
        None => false,
    }
}
