ghost use Rattle.std.specs.Prelude.{◌≡◌, ◌<◌, not, length};
ghost use Rattle.std.specs.List.{list_any};
ghost use Rattle.rollout_rules.specs.Wan.{tunnel_at};
ghost use Rattle.scratch_plan.specs.Groups.{is_in};

use wan_model::Problem;

/// The tunnels that a stage has installed, or that ask for a stage of their own.
#[derive(Clone, Copy, Debug, PartialEq, Eq)]
pub(crate) enum Group {
    /// Installed at first.
    WasThere,
    /// Installed in the end.
    Wanted,
    /// Wanted, or carrying traffic at first.
    Used,
    /// Installed at first and used.
    Kept,
    /// Installed at first and not used.
    Idle,
    /// Wanted and not installed at first.
    Fresh,
    /// Carrying traffic at first and not wanted.
    Left,
}

impl Group {
    pub(crate) fn has(self, problem: &Problem, t: usize) -> bool
        requires { t < length problem.now.tunnels }
        ensures { result ≡ is_in self (tunnel_at problem.now t) }
    {
        let was_there = problem.was_installed(t);
        let wanted = problem.is_wanted(t);
        let used = wanted || problem.old_rate(t) > 0;
        match self {
            Group::WasThere => was_there,
            Group::Wanted => wanted,
            Group::Used => used,
            Group::Kept => was_there && used,
            Group::Idle => was_there && !used,
            Group::Fresh => wanted && !was_there,
            Group::Left => used && !wanted,
        }
    }

    pub(crate) fn is_empty(self, problem: &Problem) -> bool
        ensures { result ≡ not (list_any (is_in self) problem.now.tunnels) }
    {
        for t in 0..problem.tunnels().len() {
            if self.has(problem, t) {
                return false;
            }
        }
        true
    }
}
