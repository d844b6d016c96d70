ghost use Rattle.std.specs.Prelude.{◌≡◌, [], ◌∷◌, ◌++◌, OnOk, OnErr, find, option_map, bytes_eq};
ghost use Rattle.order_policy.specs.Named.{policy_named};

use lists::{Memory, Text};
use std::alloc::Global;
use std::marker::Model;

/// A policy under a name.
#[derive(Drop)]
struct Named<P> {
    name: Text,
    policy: P,
}

impl<P> Model for Named<P> {
    ghost use Rattle.std.specs.Prelude.{List, ℕ};

    ghost Value = { List ℕ × P };

    ghost view = { λ n. (n.name, n.policy) };
}

/// Policies by name, in the order in which they were added: a list of names with what stands under each.
#[derive(Drop)]
pub struct Policies<P> {
    alloc: Global,
    all: Vec<Named<P>>,
}

impl<P> Model for Policies<P> {
    ghost use Rattle.std.specs.Prelude.{List, ℕ};

    ghost Value = { List (List ℕ × P) };

    ghost view = { λ p. p.all.items };
}

impl<P> Policies<P> {
    /// No policies.
    pub fn new(alloc: Global) -> Self
        ensures { result ≡ [] }
    {
        Policies {
            alloc,
            all: Vec::new(alloc),
        }
    }

    /// Adds a policy under a name. Lack of memory changes nothing.
    pub fn add(&mut self, name: &str, policy: P) -> Result<(), Memory>
    where
        P: Drop,
        ensures ok { OnOk result (self.new ≡ self.old ++ (name.now, policy) ∷ []) }
        ensures err { OnErr result (self.new ≡ self.old) }
    {
        let mut text = Text::new(self.alloc);
        text.push_str(name)?;
        self.all.push(Named { name: text, policy })?;
        Ok(())
    }

    /// The policy that was added first under a name; None where no policy has it.
    pub fn find(&self, name: &str) -> Option<&P>
        ensures { option_map (λ policy. policy.now) result ≡ policy_named name.now self.now }
    {
        match first_named(self.all.as_slice(), name) {
            Some(named) => Some(&named.policy),
            None => None,
        }
    }
}

fn first_named<'a, P>(all: &'a [Named<P>], name: &str) -> Option<&'a Named<P>>
    ensures { option_map (λ named. named.now) result
        ≡ find (λ named. bytes_eq named.0 name.now) all.now }
{
    for named in all {
        if named.name.as_str() == name {
            return Some(named);
        }
    }
    None
}
