/// Why it isn't shown that fewer rate steps are impossible.
#[derive(Clone, Copy, Debug, PartialEq, Eq, Drop)]
pub enum Unshown {
    /// There is a plan of fewer, or rates for it.
    Fewer,
    /// The linear program is too large, or of too many steps.
    Wide,
    /// A number left its type.
    Overflow,
    /// The pivots were spent.
    Spent,
}

impl Unshown {
    ghost use Rattle.std.specs.Prelude.{◌≡◌};
    ghost use Rattle.text_commands.specs.Unshown.{unshown_line};

    /// The line of the notes, with its line feed.
    pub fn told(self) -> &'static str
        ensures { result.now ≡ unshown_line self }
    {
        match self {
            Unshown::Fewer => "least: fewer steps fit\n",
            Unshown::Wide => "least: too wide\n",
            Unshown::Overflow => "least: overflow\n",
            Unshown::Spent => "least: pivots spent\n",
        }
    }
}
