use std::fmt;

/// A key of an object in an input.
#[derive(Clone, Copy, Debug, Drop, PartialEq, Eq)]
pub enum Key {
    Capacity,
    Flows,
    Format,
    From,
    Installed,
    Least,
    Link,
    Links,
    Name,
    New,
    Old,
    Path,
    Plan,
    Problem,
    Rates,
    Rows,
    Scale,
    Script,
    Stages,
    Steps,
    Switches,
    Table,
    To,
    Tunnels,
    Width,
}

impl Key {
    ghost use Rattle.std.specs.Prelude.{◌≡◌};
    ghost use Rattle.problem_json.specs.Keys.{key_text};

    pub fn as_str(self) -> &'static str
        ensures { result.now ≡ key_text self }
    {
        match self {
            Key::Capacity => "capacity",
            Key::Flows => "flows",
            Key::Format => "format",
            Key::From => "from",
            Key::Installed => "installed",
            Key::Least => "least",
            Key::Link => "link",
            Key::Links => "links",
            Key::Name => "name",
            Key::New => "new",
            Key::Old => "old",
            Key::Path => "path",
            Key::Plan => "plan",
            Key::Problem => "problem",
            Key::Rates => "rates",
            Key::Rows => "rows",
            Key::Scale => "scale",
            Key::Script => "script",
            Key::Stages => "stages",
            Key::Steps => "steps",
            Key::Switches => "switches",
            Key::Table => "table",
            Key::To => "to",
            Key::Tunnels => "tunnels",
            Key::Width => "width",
        }
    }
}

impl fmt::Display for Key {
    ghost use Rattle.std.specs.Prelude.{Some};
    ghost use Rattle.problem_json.specs.Keys.{key_text};

    ghost output = { λ key. Some (key_text key) };

    fn fmt<W: fmt::Write>(&self, f: &mut fmt::Formatter<W>) -> fmt::Result {
        let text = self.as_str();
        write!(f, "{text}")
    }
}
