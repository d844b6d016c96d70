ghost use Rattle.std.specs.Prelude.{◌≡◌, [], ◌∷◌, ◌++◌, OnOk, OnErr};

use std::alloc::{AllocError, Global};
use std::marker::Model;

/// Elements in a row, which contracts see as the list of them.
#[derive(Debug, Drop)]
pub struct Many<T> {
    elements: Vec<T>,
}

impl<T> Model for Many<T> {
    ghost use Rattle.std.specs.Prelude.{List};

    ghost Value = { List T };

    ghost view = { λ m. m.elements.items };
}

/// Numbers of switches, links, tunnels or items.
pub type Ids = Many<u32>;

/// Rates in units of 1/scale, loads, capacities.
pub type Nums = Many<u64>;

/// A mark per tunnel: whether it is installed.
pub type Marks = Many<bool>;

impl<T> Many<T> {
    pub fn new(alloc: Global) -> Self
        ensures { result ≡ [] }
    {
        Many {
            elements: Vec::new(alloc),
        }
    }

    /// Adds an element at the end. Lack of memory changes nothing.
    pub fn push(&mut self, element: T) -> Result<(), AllocError>
    where
        T: Drop,
        ensures ok { OnOk result (self.new ≡ self.old ++ element ∷ []) }
        ensures err { OnErr result (self.new ≡ self.old) }
    {
        self.elements.push(element)?;
        Ok(())
    }

    /// Adds a row of elements at the end, in one growth. Lack of memory changes nothing.
    pub fn extend_from_slice(&mut self, elements: &[T]) -> Result<(), AllocError>
    where
        T: Copy,
        ensures ok { OnOk result (self.new ≡ self.old ++ elements.now) }
        ensures err { OnErr result (self.new ≡ self.old) }
    {
        self.elements.extend_from_slice(elements)?;
        Ok(())
    }

    pub fn as_slice(&self) -> &[T]
        ensures { result.now ≡ self.now }
    {
        self.elements.as_slice()
    }
}
