ghost use Rattle.std.specs.Prelude.{◌≡◌, ℕ, ◌+◌, ◌^◌, ◌<◌, ◌≤◌, length, slice_index, IfOk};
ghost use Rattle.rollout_rules.specs.declared.limits.TheConstants.{LARGEST_PLAN_RATE};
ghost use Rattle.rollout_rules.specs.Sums.{list_below};
ghost use Rattle.rollout_rules.specs.Items.{load};
ghost use Rattle.plan_check.specs.Parts.{GrownBy, largest_share, rate_share};

use crate::sums::add_along;
use lists::{Memory, Nums};
use std::alloc::Global;
use wan_model::Problem;

/// Per link the sum of the rates of the tunnels that cross it. There is a rate per tunnel, within the
/// limit of a plan's.
pub fn loads(alloc: Global, problem: &Problem, rates: &[u64]) -> Result<Nums, Memory>
    requires count { length rates.now ≡ length problem.now.tunnels }
    requires within { (t : ℕ) → t < length rates.now → slice_index rates.now t ≤ LARGEST_PLAN_RATE }
    ensures { IfOk result
        (λ sums. sums
        ≡ list_below (length problem.now.links) (load problem.now (slice_index rates.now))) }
{
    let sums = wide_loads(alloc, problem, rates)?;
    nums_of(alloc, sums.as_slice())
}

fn wide_loads(alloc: Global, problem: &Problem, rates: &[u64]) -> Result<Vec<u128>, Memory>
    requires count { length rates.now ≡ length problem.now.tunnels }
    requires within { (t : ℕ) → t < length rates.now → slice_index rates.now t ≤ LARGEST_PLAN_RATE }
    ensures sums { IfOk result
        (λ sums. sums.items
        ≡ list_below (length problem.now.links) (load problem.now (slice_index rates.now))) }
    ensures small { IfOk result
        (λ sums. (k : ℕ) → k < length sums.items → slice_index sums.items k < 2 ^ 64) }
{
    let mut sums = vec![in alloc; 0u128; problem.links().len()]?;
    for t in 0..problem.tunnels().len() {
        add_rate(sums.as_mut_slice(), problem, rates, t);
    }
    Ok(sums)
}

fn add_rate(sums: &mut [u128], problem: &Problem, rates: &[u64], t: usize)
    requires rates { length rates.now ≡ length problem.now.tunnels }
    requires tunnel { t < length problem.now.tunnels }
    requires count { length sums.old ≡ length problem.now.links }
    requires room { (k : ℕ)
        → k < length sums.old
        → slice_index sums.old k + largest_share < 2 ^ 128 }
    ensures { GrownBy sums.old sums.new (rate_share problem.now (slice_index rates.now) t)
        largest_share }
{
    add_along(sums, problem.links_of(t), rates[t]);
}

// A list of the same numbers.
fn nums_of(alloc: Global, sums: &[u128]) -> Result<Nums, Memory>
    requires { (k : ℕ) → k < length sums.now → slice_index sums.now k < 2 ^ 64 }
    ensures { IfOk result (λ nums. nums ≡ sums.now) }
{
    let mut nums = Nums::new(alloc);
    for sum in sums {
        nums.push(*sum as u64)?;
    }
    Ok(nums)
}
