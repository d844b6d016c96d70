ghost use Rattle.std.specs.Prelude.{◌≡◌};
ghost use Rattle.lossy_link.specs.Traffic.{answers_of};

use lists::Many;

/// What becomes of a command that is offered: it comes to the switch so many times, its answer is brought
/// back so many times, and that after so many further hears. A command that never comes has no answer.
#[derive(Clone, Copy, Debug, PartialEq, Eq)]
pub struct Fate {
    pub times: u8,
    pub answers: u8,
    pub late: u8,
}

/// The fates of commands, in order.
pub type FateList = Many<Fate>;

impl Fate {
    // The fate of a command for which none was given: it comes once, and is answered once and at once.
    pub(crate) const PLAIN: Fate = Fate {
        times: 1,
        answers: 1,
        late: 0,
    };

    // How often the answer sets out.
    pub(crate) fn answers(self) -> u8
        ensures { result ≡ answers_of self }
    {
        if self.times == 0 { 0 } else { self.answers }
    }
}
