ghost use Rattle.std.specs.Prelude.{◌≡◌, ◌<◌, codes, map, slice_index_or, IfOk};
ghost use Rattle.wan_text.specs.Named.{quoted_flow, quoted_name};
ghost use Rattle.wan_text.specs.Names.{name_text};

use crate::switch::quote;
use lists::{Many, Memory, Text};
use std::alloc::Global;
use wan_model::{Flow, Problem, Switch};

/// The names of the switches and of the flows of a problem, each as its JSON text. They are made before any text
/// that says them, which names a switch again and again, and since then takes no memory for them.
#[derive(Debug, Drop)]
pub struct Names {
    switches: Many<Text>,
    flows: Many<Text>,
}

impl Names {
    ghost use Rattle.std.specs.Prelude.{◌≡◌, IfOk};
    ghost use Rattle.rollout_rules.specs.Wan as wan;
    ghost use Rattle.wan_text.specs.Names.{name_text, switch_text};
    ghost use Rattle.wan_text.specs.Named.{AreNamesOf};

    /// The names of a problem. An Err is lack of memory.
    pub fn of(alloc: Global, problem: &Problem) -> Result<Self, Memory>
        ensures { IfOk result (λ names. AreNamesOf names problem.now) }
    {
        Ok(Names {
            switches: quoted_switches(alloc, problem.switches())?,
            flows: quoted_flows(alloc, problem.flows())?,
        })
    }

    /// Those of the switches, in their order.
    pub fn switches(&self) -> &[Text]
        ensures { result.now ≡ self.now.switches }
    {
        self.switches.as_slice()
    }

    /// Those of the flows, in their order.
    pub fn flows(&self) -> &[Text]
        ensures { result.now ≡ self.now.flows }
    {
        self.flows.as_slice()
    }

    /// The name of the switch with a number. A number that the problem hasn't gives a name without letters.
    pub fn switch(&self, number: usize) -> &str
        ensures { (p : wan.Problem)
            → AreNamesOf self.now p
            → result.now ≡ switch_text p number }
    {
        name_at(self.switches.as_slice(), number)
    }

    /// The name of the flow with a number, likewise.
    pub fn flow(&self, number: usize) -> &str
        ensures { (p : wan.Problem)
            → AreNamesOf self.now p
            → result.now ≡ name_text (wan.flow_at p number).name }
    {
        name_at(self.flows.as_slice(), number)
    }
}

/// The name with a number, or the one without letters.
fn name_at(names: &[Text], number: usize) -> &str
    ensures { result.now ≡ slice_index_or names.now number (codes "\"\"") }
{
    if number < names.len() {
        return names[number].as_str();
    }
    "\"\""
}

fn quoted_switches(alloc: Global, switches: &[Switch]) -> Result<Many<Text>, Memory>
    ensures { IfOk result (λ names. names ≡ map quoted_name switches.now) }
{
    let mut names = Many::new(alloc);
    for switch in switches {
        names.push(quoted(alloc, switch.name.as_str())?)?;
    }
    Ok(names)
}

fn quoted_flows(alloc: Global, flows: &[Flow]) -> Result<Many<Text>, Memory>
    ensures { IfOk result (λ names. names ≡ map quoted_flow flows.now) }
{
    let mut names = Many::new(alloc);
    for flow in flows {
        names.push(quoted(alloc, flow.name.as_str())?)?;
    }
    Ok(names)
}

/// A name as its JSON text, between quotes and escaped (RFC 8259, section 7). An Err is lack of memory.
pub fn quoted(alloc: Global, name: &str) -> Result<Text, Memory>
    ensures { IfOk result (λ text. text ≡ name_text name.now) }
{
    let piece = quote(alloc, name)?;
    Ok(Text::from(piece))
}
