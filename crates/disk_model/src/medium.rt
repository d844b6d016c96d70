ghost use Rattle.std.specs.Prelude.{◌≡◌, ◌<◌, length, take, IfOk, OnErr, OnOk};
ghost use Rattle.disk_model.specs.Memory.{after_write, at_rest};
ghost use Rattle.disk_model.specs.Logs.{applied};

use crate::overwriting::overwrite;
use lists::Memory;
use std::alloc::Global;
use std::marker::Model;
use wan_edge::Nums8;

/// Bytes, and what a crash needs to know of them: those at first, each write since then, and how many of
/// these writes were synced.
#[derive(Drop)]
pub struct Medium {
    first: Nums8,
    // What a read gives; of no account before the first write.
    bytes: Vec<u8>,
    writes: Vec<Write>,
    synced: usize,
}

/// Bytes that were written from a place on.
#[derive(Drop)]
pub struct Write {
    at: u64,
    bytes: Nums8,
}

impl Model for Medium {
    ghost use Rattle.std.specs.Prelude.{drop, map, take};
    ghost use Rattle.disk_model.specs.Logs.{IsLogged, applied, range_of};
    ghost use Rattle.disk_model.specs.Memory.{Medium};

    ghost Value = { Medium };

    ghost view = { λ m. record {
      bytes = applied m.first m.writes.items;
      synced = applied m.first (take m.synced m.writes.items);
      pending = map range_of (drop m.synced m.writes.items);
    } };

    ghost invariant = { λ m. IsLogged m.first m.bytes.items m.writes.items m.synced };
}

impl Medium {
    /// All the bytes are on the disk.
    pub fn new(alloc: Global, bytes: Nums8) -> Self
        ensures { result ≡ at_rest bytes }
    {
        Medium {
            first: bytes,
            bytes: Vec::new(alloc),
            writes: Vec::new(alloc),
            synced: 0,
        }
    }

    pub fn bytes(&self) -> &[u8]
        ensures { result.now ≡ self.now.bytes }
    {
        if self.writes.is_empty() {
            self.first.as_slice()
        } else {
            self.bytes.as_slice()
        }
    }

    /// The bytes at the last sync. Time: all that was written until then.
    pub fn synced(&self, alloc: Global) -> Result<Vec<u8>, Memory>
        ensures { IfOk result (λ bytes. bytes.items ≡ self.now.synced) }
    {
        let mut bytes = Vec::new(alloc);
        bytes.extend_from_slice(self.first.as_slice())?;
        write_each(&mut bytes, &self.writes[..self.synced])?;
        Ok(bytes)
    }

    /// Writes the bytes, which are not synced. Lack of memory changes nothing. Time: the bytes; at the first
    /// write and where the disk grows, all that there are.
    pub fn write(&mut self, alloc: Global, at: u64, from: &[u8]) -> Result<(), Memory>
        ensures ok { OnOk result (self.new ≡ after_write at from.now self.old) }
        ensures err { OnErr result (self.new ≡ self.old) }
    {
        let write = write_of(alloc, at, from)?;
        self.writes.reserve(1)?;
        begin(&mut self.bytes, self.first.as_slice(), &self.writes)?;
        overwrite(&mut self.bytes, at, from)?;
        self.writes.push_reserved(write);
        Ok(())
    }

    /// What was written since the last sync is on the disk.
    pub fn sync(&mut self)
        ensures { self.new ≡ at_rest self.old.bytes }
    {
        self.synced = self.writes.len();
    }
}

fn write_of(alloc: Global, at: u64, from: &[u8]) -> Result<Write, Memory>
    ensures at { IfOk result (λ write. write.at ≡ at) }
    ensures bytes { IfOk result (λ write. write.bytes ≡ from.now) }
{
    let mut bytes = Nums8::new(alloc);
    bytes.extend_from_slice(from)?;
    Ok(Write { at, bytes })
}

// Before the first write the bytes are those at first.
fn begin(bytes: &mut Vec<u8>, first: &[u8], writes: &[Write]) -> Result<(), Memory>
    requires { 0 < length writes.now → bytes.old.items ≡ applied first.now writes.now }
    ensures ok { OnOk result (bytes.new.items ≡ applied first.now writes.now) }
    ensures later { 0 < length writes.now → bytes.new.items ≡ applied first.now writes.now }
{
    if writes.is_empty() {
        return copy_over(bytes, first);
    }
    Ok(())
}

// These bytes in the place of others.
fn copy_over(bytes: &mut Vec<u8>, from: &[u8]) -> Result<(), Memory>
    ensures { OnOk result (bytes.new.items ≡ from.now) }
{
    bytes.clear();
    bytes.extend_from_slice(from)?;
    Ok(())
}

// Writes one after the other.
fn write_each(bytes: &mut Vec<u8>, writes: &[Write]) -> Result<(), Memory>
    ensures { OnOk result (bytes.new.items ≡ applied bytes.old.items writes.now) }
{
    for write in writes {
        overwrite(bytes, write.at, write.bytes.as_slice())?;
    }
    Ok(())
}
