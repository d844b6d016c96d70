ghost use Rattle.std.specs.Prelude.{◌≡◌, ◌≢◌, ℕ, ◌==◌, [], true, false, Some, if◌then◌else◌, IfOk, OnErr, OnOk};
ghost use Rattle.lossy_link.specs.Names.{is_called, name_at};
ghost use Rattle.wan_edge.specs.Fleets.{with_one};

use indexmap::IndexMap;
use lists::{Memory, Text};
use std::alloc::Global;
use std::marker::Model;

/// The names of switches, by their numbers.
#[derive(Debug, Drop)]
pub(crate) struct Names {
    names: IndexMap<u32, Text>,
}

impl Model for Names {
    ghost use Rattle.lossy_link.specs.Names.{NameRows};

    ghost Value = { NameRows };

    ghost view = { λ n. n.names.entries };
}

impl Names {
    pub(crate) fn new(alloc: Global) -> Self
        ensures { result ≡ [] }
    {
        Names {
            names: IndexMap::new(alloc),
        }
    }

    /// Calls a switch by this name, and by no other. Lack of memory changes nothing.
    pub(crate) fn give_name(&mut self, switch: u32, name: Text) -> Result<(), Memory>
        ensures ok { OnOk result (name_at self.new ≡ with_one (name_at self.old) switch name) }
        ensures err { OnErr result (self.new ≡ self.old) }
    {
        self.set(switch, name)?;
        Ok(())
    }

    /// Whether a switch is called so.
    pub(crate) fn has_name(&self, switch: u32, name: &str) -> bool
        ensures yes { result ≡ true
            → name_at self.now ≡ with_one (name_at self.now) switch name.now }
        ensures own { result ≡ true → name_at self.now switch ≡ Some name.now }
        ensures no { result ≡ false → name_at self.now switch ≢ Some name.now }
    {
        self.is_named(switch, name)
    }

    // The same as a test.
    fn is_named(&self, switch: u32, name: &str) -> bool
        ensures { result ≡ is_called (name_at self.now switch) name.now }
    {
        match self.names.get(&switch) {
            Some(own) => own.as_str() == name,
            None => false,
        }
    }

    // Sets the name of a switch, and gives the one before.
    fn set(&mut self, switch: u32, name: Text) -> Result<Option<Text>, Memory>
        ensures before { IfOk result (λ before. before ≡ name_at self.old switch) }
        ensures updates { OnOk result
            ((n : ℕ)
            → name_at self.new n ≡ (if n == switch then Some name else name_at self.old n)) }
        ensures err { OnErr result (self.new ≡ self.old) }
    {
        Ok(self.names.insert(switch, name)?)
    }
}
