//! The pieces that lines are made of: numbers, names of switches, links.
ghost use Rattle.std.specs.Prelude.{◌≡◌};
ghost use Rattle.rollout_rules.specs.Wan as wan;
ghost use Rattle.rollout_rules.specs.Wan.{link_at};
ghost use Rattle.wan_text.specs.Named.{AreNamesOf};
ghost use Rattle.wan_text.specs.Names.{link_text, switch_text};

use itoa::{Buffer, Integer};
use text_writer::Pieces;
use wan_model::Problem;
use wan_text::Names;

/// Pushes a number.
pub(crate) fn push_number<P: Pieces, I: Integer>(text: &mut P, number: I)
    ensures { P.pushes text.old (I.text number) text.new }
{
    let mut buffer = Buffer::new();
    text.push_str(buffer.format(number));
}

/// Pushes a switch: its name.
pub(crate) fn push_switch<P: Pieces>(text: &mut P, names: &Names, switch: usize)
    ensures { (p : wan.Problem)
        → AreNamesOf names.now p
        → P.pushes text.old (switch_text p switch) text.new }
{
    text.push_str(names.switch(switch));
}

/// Pushes a link: the names of its ends with `>` between them.
pub(crate) fn push_link<P: Pieces>(text: &mut P, names: &Names, problem: &Problem, link: usize)
    requires { AreNamesOf names.now problem.now }
    ensures { P.pushes text.old (link_text problem.now link) text.new }
{
    let (from, to) = ends_of(problem, link);
    push_switch(text, names, from);
    text.push_str(">");
    push_switch(text, names, to);
}

fn ends_of(problem: &Problem, link: usize) -> (usize, usize)
    ensures from { result.0 ≡ (link_at problem.now link).from }
    ensures to { result.1 ≡ (link_at problem.now link).to }
{
    let links = problem.links();
    if link < links.len() {
        let row = &links[link];
        return (row.from as usize, row.to as usize);
    }
    (0, 0)
}
