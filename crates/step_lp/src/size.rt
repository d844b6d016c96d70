ghost use Rattle.std.specs.Prelude.{◌≡◌, ◌≤◌, length};
ghost use Rattle.step_lp.specs.Program as program;

use crate::used::used_count;
use wan_model::Problem;

/// The most cells that a program is built with.
pub const MOST_CELLS: u64 = 10_000;

/// The cells of the program for `q` steps: its rows times one more than its unknowns. None exactly where
/// they exceed [`MOST_CELLS`]. Takes no memory.
pub fn cells(problem: &Problem, q: u32) -> Option<u64>
    requires least { 2 ≤ q }
    requires most { q ≤ 8 }
    ensures { result ≡ program.cells problem.now q }
{
    let cells = rows(problem, q) * (u64::from(unknowns(problem, q)) + 1);
    if cells <= MOST_CELLS {
        Some(cells)
    } else {
        None
    }
}

/// The unknowns of the program for `q` steps.
pub(crate) fn unknowns(problem: &Problem, q: u32) -> u32
    requires least { 2 ≤ q }
    requires most { q ≤ 8 }
    ensures value { result ≡ program.unknowns problem.now q }
    ensures few { result ≤ 61440 }
{
    (2 * q - 1) * used_count(problem)
}

/// Its rows: two for each used tunnel and step, one for each link and step, and two for each flow and
/// stage between.
fn rows(problem: &Problem, q: u32) -> u64
    requires least { 2 ≤ q }
    requires most { q ≤ 8 }
    ensures value { result ≡ length (program.move_program problem.now q).rows }
    ensures few { result ≤ 96256 }
{
    let steps = u64::from(q);
    let used = u64::from(used_count(problem));
    let links = problem.links().len() as u64;
    let flows = problem.flows().len() as u64;
    2 * used * steps + steps * links + 2 * flows * (steps - 1)
}
