ghost use Rattle.std.specs.Prelude.{◌≡◌, drop};
ghost use Rattle.lossy_link.specs.Traffic.{first_fate};

use crate::{Fate, FateList};
use std::marker::Model;

/// The fates that are still to come.
#[derive(Debug, Drop)]
pub(crate) struct Fates {
    list: FateList,
    met: usize,
}

impl Model for Fates {
    ghost use Rattle.std.specs.Prelude.{List, drop};
    ghost use Rattle.lossy_link.specs.declared.fate.Fate.{Fate};

    ghost Value = { List Fate };

    ghost view = { λ f. drop f.met f.list };
}

impl Fates {
    pub(crate) fn new(list: FateList) -> Self
        ensures { result ≡ list }
    {
        Fates { list, met: 0 }
    }

    /// The next fate, which then is met: the plain one, where none is left.
    pub(crate) fn next(&mut self) -> Fate
        ensures fate { result ≡ first_fate self.old }
        ensures left { self.new ≡ drop 1 self.old }
    {
        match self.list.as_slice().get(self.met) {
            Some(fate) => {
                self.met += 1;
                *fate
            }
            None => Fate::PLAIN,
        }
    }
}
