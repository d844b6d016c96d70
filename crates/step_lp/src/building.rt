ghost use Rattle.std.specs.Prelude.{◌≡◌, ◌≤◌, [], ◌∷◌, ◌++◌, IfOk, OnOk};
ghost use Rattle.step_lp.specs.Program as program;

use crate::limit::Limit;
use crate::limits::limits;
use crate::row::{bound, coefficients};
use crate::size::unknowns;
use crate::used::used_tunnels;
use fraction_lp::Rows;
use lists::Memory;
use std::alloc::Global;
use wan_model::Problem;

/// The linear program whose points are moves from the old split to the new one in `q` rate steps. The
/// unknowns are the rates of the used tunnels at each stage between, by stage and tunnel, and then their
/// tops in each step, by step and tunnel.
pub fn build(alloc: Global, problem: &Problem, q: u32) -> Result<Rows, Memory>
    requires least { 2 ≤ q }
    requires most { q ≤ 8 }
    ensures { IfOk result (λ rows. rows ≡ program.move_program problem.now q) }
{
    let used = used_tunnels(alloc, problem)?;
    let limits = limits(alloc, problem, q)?;
    let mut rows = Rows::new(alloc, unknowns(problem, q));
    for limit in limits.as_slice() {
        add_row(alloc, &mut rows, problem, q, used.as_slice(), *limit)?;
    }
    Ok(rows)
}

fn add_row(
    alloc: Global,
    rows: &mut Rows,
    problem: &Problem,
    q: u32,
    used: &[u32],
    limit: Limit,
) -> Result<(), Memory>
    requires least { 2 ≤ q }
    requires most { q ≤ 8 }
    requires unknowns { rows.old.unknowns ≡ program.unknowns problem.now q }
    requires used { used.now ≡ program.used_tunnels problem.now }
    requires limit { program.IsLimit problem.now q limit }
    ensures { OnOk result
        (rows.new
        ≡ record rows.old { rows = rows.old.rows ++ program.row_of problem.now q limit ∷ [] }) }
{
    let row = coefficients(alloc, problem, q, used, limit)?;
    rows.add(row.as_slice(), bound(problem, q, limit))
}
