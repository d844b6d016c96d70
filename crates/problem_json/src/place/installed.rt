ghost use Rattle.std.specs.Prelude.{◌++◌, codes, decimal};
ghost use Rattle.std.specs.Fmt.{WritesOnOk};
ghost use Rattle.problem_json.specs.PlaceTexts.{installed_text};

use std::fmt;

/// A stage's list of marks as a place, by the stage's number.
#[derive(Clone, Copy, Drop)]
struct InstalledPlace {
    stage: u32,
}

impl fmt::Display for InstalledPlace {
    ghost use Rattle.std.specs.Prelude.{Some};
    ghost use Rattle.problem_json.specs.PlaceTexts.{installed_text};

    ghost output = { λ place. Some (installed_text place.stage) };

    #[tactic(auto, unfolding(crate::specs::PlaceTexts::installed_text))]
    fn fmt<W: fmt::Write>(&self, f: &mut fmt::Formatter<W>) -> fmt::Result {
        let stage = self.stage;
        write!(f, "plan.stages[{stage}].installed")
    }
}

pub(super) fn write_installed<W: fmt::Write>(f: &mut fmt::Formatter<W>, stage: u32) -> fmt::Result
    ensures { WritesOnOk W.write_str_gives f.old result (installed_text stage) f.new }
{
    let installed = InstalledPlace { stage };
    write!(f, "{installed}")
}

pub(super) fn write_mark<W: fmt::Write>(
    f: &mut fmt::Formatter<W>,
    stage: u32,
    mark: u32,
) -> fmt::Result
    ensures { WritesOnOk W.write_str_gives f.old result
        (installed_text stage ++ codes "[" ++ decimal mark ++ codes "]") f.new }
{
    let installed = InstalledPlace { stage };
    write!(f, "{installed}[{mark}]")
}
