ghost use Rattle.std.specs.Prelude.{◌≡◌, ◌+◌, ◌<◌, ◌==◌, [], ◌∷◌, ◌++◌, length, slice_index_or, slice_set, vec_len, if◌then◌else◌, IfOk, OnOk};
ghost use Rattle.rollout_rules.specs.Wan as wan;
ghost use Rattle.rollout_rules.specs.declared.item.Item.TheVariants as variants;
ghost use Rattle.dependency_graph.specs.Index.{AreEmpty};
ghost use Rattle.dependency_graph.specs.Touched.{IsItemRow, AreGathered};

use crate::item_row::ItemRow;
use crate::scratch_row::ScratchRow;
use lists::{Ids, Many, Memory};
use std::alloc::Global;
use wan_model::CheckedPlan;

/// What a flow takes of: the links of its tunnels, each once, with the tunnels that cross each. There is a
/// scratch for each link, empty before and after. Time: the links of its tunnels.
pub(crate) fn row_of_flow(
    alloc: Global,
    plan: &CheckedPlan,
    scratch: &mut Vec<ScratchRow>,
    f: usize,
) -> Result<ItemRow, Memory>
    requires flow { f < length plan.now.problem.flows }
    requires scratch { AreEmpty (length plan.now.problem.links) scratch.old.items }
    ensures row { IfOk result (λ row. IsItemRow plan.now.problem (variants.Flow f) row) }
    ensures scratch { OnOk result (AreEmpty (length plan.now.problem.links) scratch.new.items) }
{
    let mut links = Ids::new(alloc);
    gather(&mut links, plan, scratch, f)?;
    taken_out(alloc, plan, scratch, f, links)
}

/// Gathers the links of a flow's tunnels, each once, and in each link's scratch the tunnels that cross it.
fn gather(
    links: &mut Ids,
    plan: &CheckedPlan,
    scratch: &mut Vec<ScratchRow>,
    f: usize,
) -> Result<(), Memory>
    requires flow { f < length plan.now.problem.flows }
    requires links { links.old ≡ [] }
    requires scratch { AreEmpty (length plan.now.problem.links) scratch.old.items }
    ensures { OnOk result
        (AreGathered plan.now.problem f (wan.flow_at plan.now.problem f).tunnels 0 links.new
        scratch.new.items) }
{
    for j in 0..plan.tunnel_count(f) {
        gather_tunnel(links, plan, scratch, f, j)?;
    }
    Ok(())
}

fn gather_tunnel(
    links: &mut Ids,
    plan: &CheckedPlan,
    scratch: &mut Vec<ScratchRow>,
    f: usize,
    j: u32,
) -> Result<(), Memory>
    requires flow { f < length plan.now.problem.flows }
    requires tunnel { j < (wan.flow_at plan.now.problem f).tunnels }
    requires before { AreGathered plan.now.problem f j 0 links.old scratch.old.items }
    ensures { OnOk result (AreGathered plan.now.problem f (j + 1) 0 links.new scratch.new.items) }
{
    let t = plan.tunnel_of(f, j);
    let along = plan.links_of(t);
    for k in 0..along.len() {
        gather_link(links, scratch, along[k], t as u32)?;
    }
    Ok(())
}

/// Adds a tunnel to the scratch of a link, and with the first one the link to the row.
fn gather_link(
    links: &mut Ids,
    scratch: &mut Vec<ScratchRow>,
    l: u32,
    tunnel: u32,
) -> Result<(), Memory>
    requires { l < vec_len scratch.old }
    ensures links { OnOk result
        (links.new
        ≡ (if length (slice_index_or scratch.old.items l [])
        == 0 then links.old ++ l ∷ [] else links.old)) }
    ensures scratch { OnOk result
        (scratch.new.items
        ≡ slice_set scratch.old.items l (slice_index_or scratch.old.items l [] ++ tunnel ∷ [])) }
{
    if scratch[l as usize].is_empty() {
        links.push(l)?;
    }
    scratch[l as usize].push(tunnel)
}

/// The row of a flow whose links and tunnels were gathered.
fn taken_out(
    alloc: Global,
    plan: &CheckedPlan,
    scratch: &mut Vec<ScratchRow>,
    f: usize,
    links: Ids,
) -> Result<ItemRow, Memory>
    requires { AreGathered plan.now.problem f (wan.flow_at plan.now.problem f).tunnels 0 links
        scratch.old.items }
    ensures row { IfOk result (λ row. IsItemRow plan.now.problem (variants.Flow f) row) }
    ensures scratch { OnOk result (AreEmpty (length plan.now.problem.links) scratch.new.items) }
{
    let mut tunnels = Ids::new(alloc);
    let mut bounds = Many::new(alloc);
    bounds.push(0usize)?;
    for k in 0..links.as_slice().len() {
        take_out(&mut tunnels, scratch, links.as_slice()[k] as usize)?;
        bounds.push(tunnels.as_slice().len())?;
    }
    Ok(ItemRow::new(links, tunnels, bounds))
}

/// Takes what stands in a link's scratch out of it.
fn take_out(tunnels: &mut Ids, scratch: &mut Vec<ScratchRow>, l: usize) -> Result<(), Memory>
    requires { l < vec_len scratch.old }
    ensures tunnels { OnOk result
        (tunnels.new ≡ tunnels.old ++ slice_index_or scratch.old.items l []) }
    ensures scratch { OnOk result (scratch.new.items ≡ slice_set scratch.old.items l []) }
{
    tunnels.extend_from_slice(scratch[l].as_slice())?;
    scratch[l].clear();
    Ok(())
}
