ghost use Rattle.std.specs.Prelude.{◌≡◌, ◌==◌, [], ◌∷◌, ◌++◌, length, IfOk, OnOk};
ghost use Rattle.dependency_graph.specs.Index.{AreEmpty};

use lists::Memory;
use std::alloc::Global;
use std::marker::Model;

/// Numbers in a row, which is emptied and filled again in the memory that it has.
#[derive(Drop)]
pub(crate) struct ScratchRow {
    numbers: Vec<u32>,
}

impl Model for ScratchRow {
    ghost use Rattle.std.specs.Prelude.{List, ℕ};

    ghost Value = { List ℕ };

    ghost view = { λ s. s.numbers.items };
}

impl ScratchRow {
    pub(crate) fn new(alloc: Global) -> ScratchRow
        ensures { result ≡ [] }
    {
        ScratchRow {
            numbers: Vec::new(alloc),
        }
    }

    pub(crate) fn is_empty(&self) -> bool
        ensures { result ≡ (length self.now == 0) }
    {
        self.numbers.is_empty()
    }

    pub(crate) fn as_slice(&self) -> &[u32]
        ensures { result.now ≡ self.now }
    {
        self.numbers.as_slice()
    }

    pub(crate) fn push(&mut self, number: u32) -> Result<(), Memory>
        ensures { OnOk result (self.new ≡ self.old ++ number ∷ []) }
    {
        self.numbers.push(number)?;
        Ok(())
    }

    pub(crate) fn clear(&mut self)
        ensures { self.new ≡ [] }
    {
        self.numbers.clear();
    }
}

/// So many of these.
pub(crate) fn scratch_rows(alloc: Global, count: usize) -> Result<Vec<ScratchRow>, Memory>
    ensures { IfOk result (λ rows. AreEmpty count rows.items) }
{
    let mut rows = Vec::new(alloc);
    for _row in 0..count {
        rows.push(ScratchRow::new(alloc))?;
    }
    Ok(rows)
}
