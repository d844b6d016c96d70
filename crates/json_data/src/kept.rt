ghost use Rattle.std.specs.Prelude.{◌≡◌, ◌≢◌, ℕ, List, [], ◌∷◌, ◌++◌, OnOk, IfOk, Err, map};
ghost use Rattle.json_data.specs.Nodes.{entry, entry_of};
ghost use Rattle.json_data.specs.declared.spot.Spot.TheVariants as a_spot;

use crate::fault::DataFault;
use crate::node::Node;
use crate::spot::Spot;
use std::alloc::Global;

/// The nodes that name each of those that are kept.
pub(crate) fn kept_spots(alloc: Global, kept: &Vec<Node<'_>>) -> Result<Vec<Spot>, DataFault>
    ensures ok { IfOk result (λ spots. (text : List ℕ)
        → map (entry_of text kept.now.items) spots.items ≡ map entry kept.now.items) }
    ensures err { result ≢ Err DataFault.NotJson }
{
    let count = kept.len();
    if count >= 4_294_967_296 {
        return Err(DataFault::Memory);
    }
    let mut spots = Vec::new(alloc);
    for index in 0..count {
        keep(&mut spots, index as u32)?;
    }
    Ok(spots)
}

fn keep(spots: &mut Vec<Spot>, index: u32) -> Result<(), DataFault>
    ensures ok { OnOk result (spots.new.items ≡ spots.old.items ++ a_spot.Kept index ∷ []) }
    ensures err { result ≢ Err DataFault.NotJson }
{
    spots.push(Spot::Kept(index))?;
    Ok(())
}
