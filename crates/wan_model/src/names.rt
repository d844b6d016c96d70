ghost use Rattle.std.specs.Prelude.{◌≡◌, [], ◌∷◌, ◌++◌, None, OnOk, OnErr};
ghost use Rattle.wan_model.specs.Numbered.{find_name};

use indexmap::IndexSet;
use lists::Memory;
use std::alloc::Global;
use std::marker::Model;

/// Names that come once each, numbered in order of appearance.
#[derive(Debug, Drop)]
pub(crate) struct Names {
    numbered: IndexSet<String>,
}

impl Model for Names {
    ghost use Rattle.std.specs.Prelude.{List, ℕ, map, string_bytes};

    ghost Value = { List (List ℕ) };

    ghost view = { λ n. map string_bytes n.numbered.keys };
}

impl Names {
    pub(crate) fn new(alloc: Global) -> Names
        ensures { result ≡ [] }
    {
        Names {
            numbered: IndexSet::new(alloc),
        }
    }

    /// The number of a name, where it stands among these.
    pub(crate) fn find(&self, name: &str) -> Option<usize>
        ensures { result ≡ find_name self.now name.now }
    {
        self.numbered.get_index_of(name)
    }

    /// Gives a new name the next number. Lack of memory changes nothing.
    pub(crate) fn add(&mut self, alloc: Global, name: &str) -> Result<(), Memory>
        requires { find_name self.old name.now ≡ None }
        ensures ok { OnOk result (self.new ≡ self.old ++ name.now ∷ []) }
        ensures err { OnErr result (self.new ≡ self.old) }
    {
        let name = String::from_str(alloc, name)?;
        self.numbered.insert(name)?;
        Ok(())
    }
}
