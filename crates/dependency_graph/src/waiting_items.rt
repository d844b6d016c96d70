ghost use Rattle.std.specs.Prelude.{◌≡◌, ◌+◌, ◌<◌, length, slice_index, slice_set, IfOk, MatchOption};
ghost use Rattle.dependency_graph.specs.Wakes.{AreFree, AreFreeOf};

use lists::Memory;
use std::alloc::Global;
use std::marker::Model;

/// At each resource a list of items that are kept there, each item at one resource at most. The lists go
/// through the items, each of which has the next one, so to keep one takes no memory. Items and resources
/// are told by their numbers and 1, and 0 is none.
#[derive(Drop)]
pub(crate) struct WaitingItems {
    lacks: Vec<u32>,
    heads: Vec<u32>,
    nexts: Vec<u32>,
}

impl Model for WaitingItems {
    ghost use Rattle.std.specs.Prelude.{length};
    ghost use Rattle.dependency_graph.specs.Wakes.{Keeping, AreKept};

    ghost Value = { Keeping };

    ghost view = { λ k. record { resources = length k.heads.items; lacks = k.lacks.items } };

    ghost invariant = { λ k. AreKept k.lacks.items k.heads.items k.nexts.items };
}

impl WaitingItems {
    /// None of so many items at any of so many resources.
    pub(crate) fn new(alloc: Global, items: u32, resources: u32) -> Result<WaitingItems, Memory>
        ensures resources { IfOk result (λ kept. kept.resources ≡ resources) }
        ensures items { IfOk result (λ kept. length kept.lacks ≡ items) }
        ensures free { IfOk result (λ kept. AreFree kept.lacks) }
    {
        Ok(WaitingItems {
            lacks: zeros(alloc, items)?,
            heads: zeros(alloc, resources)?,
            nexts: zeros(alloc, items)?,
        })
    }

    /// Keeps none at any resource.
    pub(crate) fn clear(&mut self)
        ensures resources { self.new.resources ≡ self.old.resources }
        ensures items { length self.new.lacks ≡ length self.old.lacks }
        ensures free { AreFree self.new.lacks }
    {
        self.lacks.fill(0);
        self.heads.fill(0);
    }

    pub(crate) fn resources(&self) -> u32
        ensures { result ≡ self.now.resources }
    {
        self.heads.len() as u32
    }

    /// Where an item is kept: the number of the resource and 1, or 0.
    pub(crate) fn place(&self, item: u32) -> u32
        requires { item < length self.now.lacks }
        ensures { result ≡ slice_index self.now.lacks item }
    {
        self.lacks[item as usize]
    }

    /// Keeps an item that is kept nowhere.
    pub(crate) fn keep(&mut self, item: u32, resource: u32)
        requires item { item < length self.old.lacks }
        requires resource { resource < self.old.resources }
        requires free { slice_index self.old.lacks item ≡ 0 }
        ensures { self.new
            ≡ record self.old { lacks = slice_set self.old.lacks item (resource + 1) } }
    {
        self.nexts[item as usize] = self.heads[resource as usize];
        self.heads[resource as usize] = item + 1;
        self.lacks[item as usize] = resource + 1;
    }

    /// Gives one that is kept at a resource, and keeps it no more. None where there is none.
    pub(crate) fn pop(&mut self, resource: u32) -> Option<u32>
        requires { resource < self.old.resources }
        ensures none { MatchOption result (AreFreeOf resource self.old.lacks)
            (λ n. n < length self.old.lacks) }
        ensures some { MatchOption result (self.new ≡ self.old)
            (λ n. self.new ≡ record self.old { lacks = slice_set self.old.lacks n 0 }) }
        ensures own { MatchOption result (self.new ≡ self.old)
            (λ n. slice_index self.old.lacks n ≡ resource + 1) }
    {
        let head = self.heads[resource as usize];
        if head == 0 {
            return None;
        }
        let item = head - 1;
        self.heads[resource as usize] = self.nexts[item as usize];
        self.lacks[item as usize] = 0;
        Some(item)
    }
}

fn zeros(alloc: Global, count: u32) -> Result<Vec<u32>, Memory>
    ensures all { IfOk result (λ row. length row.items ≡ count) }
    ensures free { IfOk result (λ row. AreFree row.items) }
{
    Ok(vec![in alloc; 0u32; count as usize]?)
}
