ghost use Rattle.std.specs.Prelude.{◌≡◌, ℕ, ◌+◌, ◌*◌, ◌<◌, ◌≤◌, length, slice_index, if◌then◌else◌};
ghost use Rattle.rollout_rules.specs.declared.limits.TheConstants.{LARGEST_RATE, MOST_HOPS};
ghost use Rattle.fewest_plan.specs.Marked as spec;

use wan_model::{Problem, Side};

/// What a flow loads the marked links with in a split.
pub(crate) fn borne(problem: &Problem, marks: &[bool], side: Side, f: usize) -> u64
    requires count { length marks.now ≡ length problem.now.links }
    requires flow { f < length problem.now.flows }
    ensures { result ≡ spec.borne problem.now marks.now side f }
{
    let mut sum = 0;
    for j in 0..problem.tunnel_count(f) {
        sum += borne_by(problem, marks, side, problem.tunnel_of(f, j));
    }
    sum
}

fn borne_by(problem: &Problem, marks: &[bool], side: Side, t: usize) -> u64
    requires count { length marks.now ≡ length problem.now.links }
    requires tunnel { t < length problem.now.tunnels }
    ensures value { result ≡ spec.borne_by problem.now marks.now side t }
    ensures most { result ≤ LARGEST_RATE * MOST_HOPS }
{
    times(
        problem.rate_on(side, t).unwrap_or(0),
        count_crossed(problem, marks, t),
    )
}

fn times(rate: u64, often: u64) -> u64
    requires rate { rate ≤ LARGEST_RATE }
    requires often { often ≤ MOST_HOPS }
    ensures value { result ≡ rate * often }
    ensures most { result ≤ LARGEST_RATE * MOST_HOPS }
{
    rate * often
}

/// How many marked links are on the path of a tunnel.
pub(crate) fn count_crossed(problem: &Problem, marks: &[bool], t: usize) -> u64
    requires count { length marks.now ≡ length problem.now.links }
    requires tunnel { t < length problem.now.tunnels }
    ensures value { result ≡ spec.crossed problem.now marks.now t }
    ensures most { result ≤ MOST_HOPS }
{
    marked_in(problem.links_of(t), marks)
}

// How many numbers of a row have a mark.
fn marked_in(row: &[u32], marks: &[bool]) -> u64
    requires { (h : ℕ) → h < length row.now → slice_index row.now h < length marks.now }
    ensures value { result ≡ spec.marked_in marks.now row.now }
    ensures most { result ≤ length row.now }
{
    let mut sum = 0;
    for link in row {
        sum += one_where(marks[*link as usize]);
    }
    sum
}

/// 1 where it is so, else 0.
pub(crate) fn one_where(test: bool) -> u64
    ensures value { result ≡ (if test then 1 else 0) }
    ensures most { result ≤ 1 }
{
    if test { 1 } else { 0 }
}
