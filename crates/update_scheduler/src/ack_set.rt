ghost use Rattle.std.specs.Prelude.{◌≡◌, ℕ, ◌<◌, [], ◌∷◌, ◌++◌, List, All, IfOk, false, length, nat_lt, slice_index_or};
ghost use Rattle.update_scheduler.specs.Rows.{bit, times, HasSame, Rises};

use lists::Memory;
use std::alloc::Global;
use std::marker::Model;

/// Items that were noted, each once; with a mark for each item there is.
#[derive(Drop)]
pub(crate) struct AckSet {
    marks: Vec<bool>,
    row: Vec<u32>,
}

impl Model for AckSet {
    ghost use Rattle.std.specs.Prelude.{length, vec_capacity};
    ghost use Rattle.update_scheduler.specs.Rows.{Row, AreMarks};

    ghost Value = { Row };

    ghost view = { λ t. record { items = length t.marks.items; row = t.row.items } };

    ghost invariant = { λ t. AreMarks t.marks.items t.row.items (vec_capacity t.row) };
}

impl AckSet {
    /// Nothing noted, with room for so many items.
    pub(crate) fn new(alloc: Global, items: u32) -> Result<AckSet, Memory>
        ensures { IfOk result (λ noted. noted ≡ record { items = items; row = [] }) }
    {
        Ok(AckSet {
            marks: vec![in alloc; false; items as usize]?,
            row: Vec::with_capacity(alloc, items as usize)?,
        })
    }

    pub(crate) fn has(&self, item: u32) -> bool
        requires { item < self.now.items }
        ensures { result ≡ nat_lt 0 (times item self.now.row) }
    {
        self.marks[item as usize]
    }

    /// Notes an item that isn't noted.
    pub(crate) fn add(&mut self, item: u32)
        requires item { item < self.old.items }
        requires new { times item self.old.row ≡ 0 }
        ensures { self.new ≡ record self.old { row = self.old.row ++ item ∷ [] } }
    {
        self.marks[item as usize] = true;
        self.row.push_reserved(item);
    }

    /// Puts the items in order.
    pub(crate) fn put_in_order(&mut self)
        ensures { (ns : List ℕ)
            → Rises ns
            → HasSame self.old.row ns
            → self.new ≡ record self.old { row = ns } }
    {
        self.row.sort_unstable();
    }

    pub(crate) fn row(&self) -> &[u32]
        ensures value { result.now ≡ self.now.row }
        ensures items { All (λ n. n < self.now.items) result.now }
    {
        self.row.as_slice()
    }

    /// Forgets all. Time: what was noted.
    pub(crate) fn clear(&mut self)
        ensures { self.new ≡ record self.old { row = [] } }
    {
        unmark(&mut self.marks, &self.row);
        self.row.clear();
    }
}

/// Takes away the marks of these items, which are all that have one.
fn unmark(marks: &mut [bool], row: &[u32])
    requires { (n : ℕ) → times n row.now ≡ bit (slice_index_or marks.old n false) }
    ensures none { (n : ℕ) → slice_index_or marks.new n false ≡ false }
    ensures len { length marks.new ≡ length marks.old }
{
    for item in row {
        marks[*item as usize] = false;
    }
}
