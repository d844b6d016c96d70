ghost use Rattle.std.specs.Prelude.{◌≡◌, OnOk};
ghost use Rattle.intent_journal.specs.Entries.{entry_in};
ghost use Rattle.intent_journal.specs.Parts.{rows};
ghost use Rattle.intent_journal.specs.Reading.{is_empty, nothing_read, with_row, with_rows};

use disk_model::bytes::{byte_in, from_place, number_of_4, up_to};
use lists::Memory;
use rollout_rules::{Entry, EntryList, Op};
use std::alloc::Global;
use std::marker::Model;

const ENTRY: usize = 9;

const BEGIN: u8 = 1;

const DONE: u8 = 2;

/// The entries of rows that were read, up to the first row that is none.
#[derive(Drop)]
pub(crate) struct Listed {
    pub entries: EntryList,
    /// Whether each row is an entry.
    pub whole: bool,
}

impl Model for Listed {
    ghost use Rattle.intent_journal.specs.Reading.{Listed};

    ghost Value = { Listed };

    ghost view = { λ l. record { entries = l.entries; whole = l.whole } };
}

impl Listed {
    pub(crate) fn new(alloc: Global) -> Self
        ensures { result ≡ nothing_read }
    {
        Listed {
            entries: EntryList::new(alloc),
            whole: true,
        }
    }

    /// Whether no row was read.
    pub(crate) fn is_empty(&self) -> bool
        ensures { result ≡ is_empty self.now }
    {
        self.whole && self.entries.as_slice().is_empty()
    }

    /// Adds rows of nine bytes.
    pub(crate) fn add_rows(&mut self, count: u32, bytes: &[u8]) -> Result<(), Memory>
        ensures { OnOk result (self.new ≡ with_rows self.old (rows count bytes.now)) }
    {
        let mut rest = bytes;
        for _row in 0..count {
            self.add(entry_of(up_to(rest, ENTRY)))?;
            rest = from_place(rest, ENTRY);
        }
        Ok(())
    }

    fn add(&mut self, entry: Option<Entry>) -> Result<(), Memory>
        ensures { OnOk result (self.new ≡ with_row self.old entry) }
    {
        match entry {
            Some(entry) if self.whole => self.entries.push(entry)?,
            Some(_) => {}
            None => self.whole = false,
        }
        Ok(())
    }
}

// The entry that a row is, where it is one.
fn entry_of(row: &[u8]) -> Option<Entry>
    ensures { result ≡ entry_in row.now }
{
    let op = Op {
        item: number_of_4(from_place(row, 1)),
        number: number_of_4(from_place(row, 5)),
    };
    match byte_in(row, 0) {
        BEGIN => Some(Entry::Begin(op)),
        DONE => Some(Entry::Done(op)),
        _ => None,
    }
}
