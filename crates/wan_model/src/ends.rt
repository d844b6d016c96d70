ghost use Rattle.std.specs.Prelude.{◌≡◌, [], ◌∷◌, ◌++◌, None, OnOk, OnErr};
ghost use Rattle.wan_model.specs.Numbered.{find_ends};

use indexmap::IndexSet;
use lists::Memory;
use std::alloc::Global;
use std::marker::Model;

/// The ends of links, each pair once, numbered in order of appearance.
#[derive(Debug, Drop)]
pub(crate) struct Ends {
    numbered: IndexSet<(u32, u32)>,
}

impl Model for Ends {
    ghost use Rattle.std.specs.Prelude.{List, ℕ};

    ghost Value = { List (ℕ × ℕ) };

    ghost view = { λ e. e.numbered.keys };
}

impl Ends {
    pub(crate) fn new(alloc: Global) -> Ends
        ensures { result ≡ [] }
    {
        Ends {
            numbered: IndexSet::new(alloc),
        }
    }

    /// The number of the link between two switches, where there is one.
    pub(crate) fn find(&self, from: u32, to: u32) -> Option<usize>
        ensures { result ≡ find_ends self.now from to }
    {
        self.numbered.get_index_of(&(from, to))
    }

    /// Gives a new link the next number. Lack of memory changes nothing.
    pub(crate) fn add(&mut self, from: u32, to: u32) -> Result<(), Memory>
        requires { find_ends self.old from to ≡ None }
        ensures ok { OnOk result (self.new ≡ self.old ++ (from, to) ∷ []) }
        ensures err { OnErr result (self.new ≡ self.old) }
    {
        self.numbered.insert((from, to))?;
        Ok(())
    }
}
