//! What the trips on a ring need: capacities and tables.
ghost use Rattle.std.specs.Prelude.{◌≡◌, ℕ, ◌+◌, ◌*◌, ◌^◌, ◌<◌, ◌≤◌, IfOk, length, slice_index};
ghost use Rattle.rollout_rules.specs.Sums.{list_below};
ghost use Rattle.rollout_rules.specs.Wan.{old_rate, new_rate, tunnel_at};
ghost use Rattle.rollout_rules.specs.declared.limits.TheConstants.{LARGEST_TABLE, LARGEST_CAPACITY};
ghost use Rattle.plan_check.specs.Parts.{GrownBy, added};
ghost use Rattle.case_gen.specs.Cases.{capacity_for, least_capacity, table_for};
ghost use Rattle.case_gen.specs.Conditions.{HasSmallRates};

use lists::{Memory, Nums};
use plan_check::SplitLoads;
use std::alloc::Global;
use wan_model::Problem;

/// Per link the least capacity of which both splits leave a share 1/k free.
pub(crate) fn capacities_for(alloc: Global, k: u32, problem: &Problem) -> Result<Nums, Memory>
    requires least { 2 ≤ k }
    requires most { k ≤ 64 }
    requires rates { HasSmallRates problem.now }
    ensures value { IfOk result
        (λ capacities. capacities
        ≡ list_below (length problem.now.links) (capacity_for k problem.now)) }
    ensures within { IfOk result
        (λ capacities. (l : ℕ)
        → l < length capacities
        → slice_index capacities l ≤ LARGEST_CAPACITY) }
{
    let loads = SplitLoads::of(alloc, problem)?;
    let old = loads.old.as_slice();
    let new = loads.new.as_slice();
    let mut capacities = Nums::new(alloc);
    for l in 0..problem.links().len() {
        let load = old[l].max(new[l]);
        capacities.push(least_capacity(u64::from(k), load))?;
    }
    Ok(capacities)
}

// The least capacity of which a load leaves a share 1/k free.
fn least_capacity(k: u64, load: u64) -> u64
    requires least { 2 ≤ k }
    requires most { k ≤ 64 }
    requires small { load ≤ 4_096_000 }
    ensures value { result ≡ least_capacity k load }
    ensures within { result ≤ LARGEST_CAPACITY }
{
    (k * load + (k - 2)) / (k - 1)
}

/// Per switch how many entries its table takes where every tunnel is installed.
pub(crate) fn tables_for(alloc: Global, problem: &Problem) -> Result<Vec<u32>, Memory>
    requires { problem.now.format ≡ 1 }
    ensures value { IfOk result
        (λ tables. tables.items
        ≡ list_below (length problem.now.switches) (table_for problem.now)) }
    ensures within { IfOk result
        (λ tables. (w : ℕ) → w < length tables.items → slice_index tables.items w ≤ LARGEST_TABLE) }
{
    let mut tables = vec![in alloc; 0u32; problem.switches().len()]?;
    for t in 0..problem.tunnels().len() {
        count_along(tables.as_mut_slice(), problem.path(t));
    }
    Ok(tables)
}

fn count_along(tables: &mut [u32], path: &[u32])
    requires known { (h : ℕ) → h < length path.now → slice_index path.now h < length tables.old }
    requires room { (w : ℕ)
        → w < length tables.old
        → slice_index tables.old w + length path.now < 2 ^ 32 }
    ensures { GrownBy tables.old tables.new (added path.now 1) (length path.now) }
{
    for switch in path {
        tables[*switch as usize] += 1;
    }
}
