ghost use Rattle.std.specs.Prelude.{◌≡◌, ℕ, ◌<◌, ◌≤◌, ◌&&◌, ◌||◌, ◌==◌, not, [], length, slice_index, IfOk};
ghost use Rattle.dependency_graph.specs.Cells.{has, AreOnce};
ghost use Rattle.dependency_graph.specs.Wakes.{AreInverse, AreExchanged, AreNumbers};

use lists::Memory;
use std::alloc::Global;
use std::marker::Model;

/// Some of the items, as the first so many of all in an order of its own. An item is put in or taken out by
/// one exchange, and takes no memory.
#[derive(Drop)]
pub(crate) struct Woken {
    order: Vec<u32>,
    places: Vec<u32>,
    count: u32,
}

impl Model for Woken {
    ghost use Rattle.std.specs.Prelude.{length, take};
    ghost use Rattle.dependency_graph.specs.Wakes.{ItemSet, IsOrder};

    ghost Value = { ItemSet };

    ghost view = { λ w. record { items = length w.order.items; row = take w.count w.order.items } };

    ghost invariant = { λ w. IsOrder w.order.items w.places.items w.count };
}

impl Woken {
    /// None of so many items.
    pub(crate) fn new(alloc: Global, items: u32) -> Result<Woken, Memory>
        ensures { IfOk result (λ woken. woken ≡ record { items = items; row = [] }) }
    {
        Ok(Woken {
            order: numbers(alloc, items)?,
            places: numbers(alloc, items)?,
            count: 0,
        })
    }

    /// Takes all out.
    pub(crate) fn clear(&mut self)
        ensures { self.new ≡ record self.old { row = [] } }
    {
        self.count = 0;
    }

    /// Those that are in.
    pub(crate) fn row(&self) -> &[u32]
        ensures row { result.now ≡ self.now.row }
        ensures inside { (j : ℕ)
            → j < length result.now
            → slice_index result.now j < self.now.items }
        ensures once { AreOnce result.now }
        ensures few { length result.now ≤ self.now.items }
    {
        &self.order[..self.count as usize]
    }

    pub(crate) fn has(&self, item: u32) -> bool
        requires { item < self.now.items }
        ensures { result ≡ has self.now.row item }
    {
        self.places[item as usize] < self.count
    }

    pub(crate) fn insert(&mut self, item: u32)
        requires { item < self.old.items }
        ensures items { self.new.items ≡ self.old.items }
        ensures row { (n : ℕ)
            → n < self.old.items
            → has self.new.row n ≡ (has self.old.row n || (item == n)) }
    {
        let place = self.places[item as usize];
        if place >= self.count {
            exchange(&mut self.order, &mut self.places, place, self.count);
            self.count += 1;
        }
    }

    pub(crate) fn remove(&mut self, item: u32)
        requires { item < self.old.items }
        ensures items { self.new.items ≡ self.old.items }
        ensures row { (n : ℕ)
            → n < self.old.items
            → has self.new.row n ≡ (has self.old.row n && not (item == n)) }
    {
        let place = self.places[item as usize];
        if place < self.count {
            self.count -= 1;
            exchange(&mut self.order, &mut self.places, place, self.count);
        }
    }
}

/// The numbers below this one, in order.
fn numbers(alloc: Global, items: u32) -> Result<Vec<u32>, Memory>
    ensures { IfOk result (λ row. AreNumbers items row.items) }
{
    let mut row = Vec::new(alloc);
    for n in 0..items {
        row.push(n)?;
    }
    Ok(row)
}

/// Exchanges the items at two places.
fn exchange(order: &mut Vec<u32>, places: &mut Vec<u32>, a: u32, b: u32)
    requires inverse { AreInverse order.old.items places.old.items }
    requires first { a < length order.old.items }
    requires second { b < length order.old.items }
    ensures all { length order.new.items ≡ length order.old.items }
    ensures inverse { AreInverse order.new.items places.new.items }
    ensures places { AreExchanged a b places.old.items places.new.items }
{
    let first = order[a as usize];
    let second = order[b as usize];
    order[a as usize] = second;
    order[b as usize] = first;
    places[first as usize] = b;
    places[second as usize] = a;
}
