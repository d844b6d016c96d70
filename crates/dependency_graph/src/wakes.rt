ghost use Rattle.std.specs.Prelude.{◌≡◌, ℕ, ◌+◌, ◌<◌, ◌≤◌, true, [], length, slice_index, IfOk, IsTrue};
ghost use Rattle.dependency_graph.specs.Cells.{has, AreOnce};
ghost use Rattle.dependency_graph.specs.Wakes.{AreFree, Rouses, IsWokenOrKept, AreWokenFrom, IsLetGo, joined, AreAwake};

use crate::waiting_items::WaitingItems;
use crate::woken::Woken;
use lists::Memory;
use std::alloc::Global;
use std::marker::Model;

/// The items that are woken, and at which resource each of the others is kept, if at any.
#[derive(Drop)]
pub(crate) struct Wakes {
    woken: Woken,
    kept: WaitingItems,
}

impl Model for Wakes {
    ghost use Rattle.dependency_graph.specs.Wakes.{Awake, AreAwake, joined};

    ghost Value = { Awake };

    ghost view = { λ w. joined w.woken w.kept };

    ghost invariant = { λ w. AreAwake w.woken w.kept };
}

impl Wakes {
    /// None of so many items is woken or kept.
    pub(crate) fn new(alloc: Global, items: u32, resources: u32) -> Result<Wakes, Memory>
        ensures resources { IfOk result (λ wakes. wakes.resources ≡ resources) }
        ensures items { IfOk result (λ wakes. length wakes.lacks ≡ items) }
        ensures free { IfOk result (λ wakes. AreFree wakes.lacks) }
    {
        Ok(Wakes {
            woken: Woken::new(alloc, items)?,
            kept: WaitingItems::new(alloc, items, resources)?,
        })
    }

    /// Wakes and keeps none.
    pub(crate) fn clear(&mut self)
        ensures resources { self.new.resources ≡ self.old.resources }
        ensures items { length self.new.lacks ≡ length self.old.lacks }
        ensures free { AreFree self.new.lacks }
    {
        self.woken.clear();
        self.kept.clear();
    }

    /// The items that are woken.
    pub(crate) fn row(&self) -> &[u32]
        ensures row { result.now ≡ self.now.row }
        ensures inside { (j : ℕ)
            → j < length result.now
            → slice_index result.now j < length self.now.lacks }
        ensures once { AreOnce result.now }
        ensures few { length result.now ≤ length self.now.lacks }
    {
        self.woken.row()
    }

    pub(crate) fn has(&self, item: u32) -> bool
        requires { item < length self.now.lacks }
        ensures { result ≡ has self.now.row item }
    {
        self.woken.has(item)
    }

    /// Wakes an item, but where it is kept.
    pub(crate) fn wake(&mut self, item: u32)
        requires { item < length self.old.lacks }
        ensures rouses { Rouses self.old self.new }
        ensures here { IsWokenOrKept self.new item }
    {
        if self.kept.place(item) == 0 {
            self.woken.insert(item);
        }
    }

    /// Wakes all that are kept at a resource.
    pub(crate) fn free(&mut self, resource: u32)
        requires { resource < self.old.resources }
        ensures rouses { Rouses self.old self.new }
        ensures freed { AreWokenFrom resource self.new }
    {
        free(&mut self.woken, &mut self.kept, resource);
    }

    /// Wakes all that are kept at any resource.
    pub(crate) fn free_all(&mut self)
        ensures rouses { Rouses self.old self.new }
        ensures freed { (q : ℕ) → q < self.old.resources → AreWokenFrom q self.new }
    {
        for resource in 0..self.kept.resources() {
            self.free(resource);
        }
    }

    /// Lets an item go that is woken.
    pub(crate) fn rest(&mut self, item: u32)
        requires item { item < length self.old.lacks }
        requires woken { IsTrue (has self.old.row item) }
        ensures { IsLetGo item 0 self.old self.new }
    {
        self.woken.remove(item);
    }

    /// Keeps an item at a resource that was woken.
    pub(crate) fn keep(&mut self, item: u32, resource: u32)
        requires item { item < length self.old.lacks }
        requires resource { resource < self.old.resources }
        requires woken { IsTrue (has self.old.row item) }
        ensures { IsLetGo item (resource + 1) self.old self.new }
    {
        self.woken.remove(item);
        self.kept.keep(item, resource);
    }
}

fn free(woken: &mut Woken, kept: &mut WaitingItems, resource: u32)
    requires resource { resource < kept.old.resources }
    requires awake { AreAwake woken.old kept.old }
    ensures awake { AreAwake woken.new kept.new }
    ensures rouses { Rouses (joined woken.old kept.old) (joined woken.new kept.new) }
    ensures freed { AreWokenFrom resource (joined woken.new kept.new) }
{
    while let Some(item) = kept.pop(resource) {
        woken.insert(item);
    }
}
