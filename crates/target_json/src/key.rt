use std::fmt;

/// A key of an object in a target, and the key of the target itself.
#[derive(Clone, Copy, Debug, Drop, PartialEq, Eq)]
pub enum TargetKey {
    Target,
    Flows,
    Name,
    New,
    Capacities,
    From,
    To,
    Capacity,
}

impl TargetKey {
    ghost use Rattle.std.specs.Prelude.{◌≡◌};
    ghost use Rattle.target_json.specs.Keys.{key_text};

    pub fn as_str(self) -> &'static str
        ensures { result.now ≡ key_text self }
    {
        match self {
            TargetKey::Target => "target",
            TargetKey::Flows => "flows",
            TargetKey::Name => "name",
            TargetKey::New => "new",
            TargetKey::Capacities => "capacities",
            TargetKey::From => "from",
            TargetKey::To => "to",
            TargetKey::Capacity => "capacity",
        }
    }
}

impl fmt::Display for TargetKey {
    ghost use Rattle.std.specs.Prelude.{Some};
    ghost use Rattle.target_json.specs.Keys.{key_text};

    ghost output = { λ key. Some (key_text key) };

    fn fmt<W: fmt::Write>(&self, f: &mut fmt::Formatter<W>) -> fmt::Result {
        let text = self.as_str();
        write!(f, "{text}")
    }
}
