ghost use Rattle.std.specs.Prelude.{◌≡◌};
ghost use Rattle.controller_run.specs.RolloutEnds.{outcome_for};

use crate::RunEnd;
use dependency_graph::Graph;
use wan_model::CheckedPlan;

/// What the run of a rollout has come to whose journal was opened: how it ended, and what the book that it left
/// tells besides.
#[derive(Debug, Drop)]
pub struct RunOutcome {
    pub plan: CheckedPlan,
    /// So many operations there are.
    pub operations: u32,
    /// So many entries the journal had at first.
    pub found: u32,
    /// So many operations aren't settled.
    pub left: u64,
    pub end: RunEnd,
}

impl RunOutcome {
    /// What a run has come to that ended so. It left the graph of a rollout of which so many entries were found.
    pub fn of(graph: Graph, found: u32, end: RunEnd) -> RunOutcome
        ensures { result ≡ outcome_for graph.rollout found graph.history end }
    {
        let operations = graph.op_total();
        let left = graph.unsettled();
        RunOutcome {
            plan: graph.into_plan(),
            operations,
            found,
            left,
            end,
        }
    }
}
