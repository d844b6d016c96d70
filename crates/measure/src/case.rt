//! One call of a journal, as a line says it: the call, the number of the migration, the image in hexadecimal
//! digits (`-` for none), the call of the disk at which it stops, or after a `!` the one call that fails
//! (`-` for none), and then the entries of a batch, each `b:ITEM:NUMBER` or `d:ITEM:NUMBER`.
use anyhow::{Context, Result, bail};
use disk_model::MemoryDisk;
use rollout_rules::{Entry, EntryList, Op};
use std::alloc::Global;
use std::str::SplitWhitespace;
use wan_edge::{Nums8, Turns};

/// One call over an image.
#[derive(Drop)]
pub(crate) struct Case {
    pub call: Call,
    pub migration: u32,
    image: Nums8,
    trouble: Trouble,
    /// What is added to an open journal.
    pub batch: EntryList,
}

#[derive(Clone, Copy)]
pub(crate) enum Call {
    Recover,
    Place,
}

/// What the disk does beside its work.
#[derive(Clone, Copy)]
enum Trouble {
    Nothing,
    /// It stops at this call.
    Stops(u64),
    /// This call alone fails.
    Fails(u64),
}

impl Case {
    pub(crate) fn of(alloc: Global, line: &str) -> Result<Case> {
        let mut words = line.split_whitespace();
        let call = call_of(next(&mut words)?)?;
        let migration = number(next(&mut words)?)?;
        let digits = next(&mut words)?;
        let trouble = trouble_of(next(&mut words)?)?;
        let image = image_of(alloc, digits)?;
        match batch_of(alloc, words) {
            Ok(batch) => Ok(Case {
                call,
                migration,
                image,
                trouble,
                batch,
            }),
            Err(error) => {
                drop(image);
                Err(error)
            }
        }
    }

    /// A disk in memory with the image and with this trouble.
    pub(crate) fn disk(&self, alloc: Global) -> Result<MemoryDisk> {
        let mut image = Nums8::new(alloc);
        image.extend_from_slice(self.image.as_slice())?;
        let mut fails = Turns::new(alloc);
        if let Trouble::Fails(call) = self.trouble {
            fails.push(call)?;
        }
        let mut disk = MemoryDisk::new(alloc, image, fails);
        if let Trouble::Stops(call) = self.trouble {
            disk.stop_at(call);
        }
        Ok(disk)
    }
}

fn next<'a>(words: &mut SplitWhitespace<'a>) -> Result<&'a str> {
    words.next().context("a case has four words at least")
}

fn call_of(word: &str) -> Result<Call> {
    match word {
        "recover" => Ok(Call::Recover),
        "place" => Ok(Call::Place),
        _ => bail!("recover or place"),
    }
}

fn number(word: &str) -> Result<u32> {
    word.parse::<u32>().context("a whole number")
}

fn image_of(alloc: Global, word: &str) -> Result<Nums8> {
    let mut image = Nums8::new(alloc);
    if word != "-" {
        image.extend_from_slice(&hex::decode(alloc, word)?)?;
    }
    Ok(image)
}

fn trouble_of(word: &str) -> Result<Trouble> {
    if word == "-" {
        return Ok(Trouble::Nothing);
    }
    match word.strip_prefix('!') {
        Some(call) => Ok(Trouble::Fails(u64::from(number(call)?))),
        None => Ok(Trouble::Stops(u64::from(number(word)?))),
    }
}

fn batch_of(alloc: Global, words: SplitWhitespace<'_>) -> Result<EntryList> {
    let mut batch = EntryList::new(alloc);
    match add_entries(&mut batch, words) {
        Ok(()) => Ok(batch),
        Err(error) => {
            drop(batch);
            Err(error)
        }
    }
}

fn add_entries(batch: &mut EntryList, words: SplitWhitespace<'_>) -> Result<()> {
    for word in words {
        batch.push(entry_of(word)?)?;
    }
    Ok(())
}

fn entry_of(word: &str) -> Result<Entry> {
    let (kind, rest) = word.split_once(':').context("an entry")?;
    let (item, nth) = rest.split_once(':').context("an item and a number")?;
    let op = Op {
        item: number(item)?,
        number: number(nth)?,
    };
    match kind {
        "b" => Ok(Entry::Begin(op)),
        "d" => Ok(Entry::Done(op)),
        _ => bail!("b or d"),
    }
}
