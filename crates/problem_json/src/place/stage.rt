ghost use Rattle.std.specs.Prelude.{◌++◌, codes, decimal};
ghost use Rattle.std.specs.Fmt.{WritesOnOk};
ghost use Rattle.problem_json.specs.PlaceTexts.{stage_text};

use std::fmt;

/// A stage as a place, by its number.
#[derive(Clone, Copy, Drop)]
struct StagePlace {
    number: u32,
}

impl fmt::Display for StagePlace {
    ghost use Rattle.std.specs.Prelude.{Some};
    ghost use Rattle.problem_json.specs.PlaceTexts.{stage_text};

    ghost output = { λ place. Some (stage_text place.number) };

    #[tactic(auto, unfolding(crate::specs::PlaceTexts::stage_text))]
    fn fmt<W: fmt::Write>(&self, f: &mut fmt::Formatter<W>) -> fmt::Result {
        let number = self.number;
        write!(f, "plan.stages[{number}]")
    }
}

pub(super) fn write_stage<W: fmt::Write>(f: &mut fmt::Formatter<W>, number: u32) -> fmt::Result
    ensures { WritesOnOk W.write_str_gives f.old result (stage_text number) f.new }
{
    let stage = StagePlace { number };
    write!(f, "{stage}")
}

/// A stage's list of rates.
pub(super) fn write_rates<W: fmt::Write>(f: &mut fmt::Formatter<W>, number: u32) -> fmt::Result
    ensures { WritesOnOk W.write_str_gives f.old result
        (stage_text number ++ codes ".rates") f.new }
{
    let stage = StagePlace { number };
    write!(f, "{stage}.rates")
}

pub(super) fn write_rate<W: fmt::Write>(
    f: &mut fmt::Formatter<W>,
    number: u32,
    rate: u32,
) -> fmt::Result
    ensures { WritesOnOk W.write_str_gives f.old result
        (stage_text number ++ codes ".rates[" ++ decimal rate ++ codes "]") f.new }
{
    let stage = StagePlace { number };
    write!(f, "{stage}.rates[{rate}]")
}
