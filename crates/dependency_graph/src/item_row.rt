ghost use Rattle.std.specs.Prelude.{◌≡◌, ◌+◌, ◌<◌, [], length, slice_index};
ghost use Rattle.dependency_graph.specs.Touched.{AreBounds, tunnels_at};

use lists::{Ids, Many};
use std::alloc::Global;
use std::marker::Model;

/// What an item takes of: the resources, each once, and of each link the tunnels by which the flow takes of
/// it. The tunnels of all stand in one list, with the place at which those of each begin.
#[derive(Drop)]
pub(crate) struct ItemRow {
    resources: Ids,
    tunnels: Ids,
    bounds: Many<usize>,
}

impl Model for ItemRow {
    ghost use Rattle.dependency_graph.specs.Touched as touched;

    ghost Value = { touched.ItemRow };

    ghost view = { λ r. record {
      resources = r.resources;
      tunnels = r.tunnels;
      bounds = r.bounds;
    } };

    ghost invariant = { λ r. touched.AreBounds r.tunnels r.bounds };
}

impl ItemRow {
    pub(crate) fn new(resources: Ids, tunnels: Ids, bounds: Many<usize>) -> ItemRow
        requires { AreBounds tunnels bounds }
        ensures { result ≡ record { resources = resources; tunnels = tunnels; bounds = bounds } }
    {
        ItemRow {
            resources,
            tunnels,
            bounds,
        }
    }

    /// The row of an entry: it takes of its table, and by no tunnel's rate.
    pub(crate) fn of_table(alloc: Global, table: Ids) -> ItemRow
        ensures { result ≡ record { resources = table; tunnels = []; bounds = [] } }
    {
        ItemRow {
            resources: table,
            tunnels: Ids::new(alloc),
            bounds: Many::new(alloc),
        }
    }

    pub(crate) fn resources(&self) -> &[u32]
        ensures { result.now ≡ self.now.resources }
    {
        self.resources.as_slice()
    }

    /// The tunnels by which a flow takes of the k-th link.
    pub(crate) fn tunnels(&self, k: usize) -> &[u32]
        requires { k + 1 < length self.now.bounds }
        ensures { result.now ≡ tunnels_at self.now k }
    {
        let bounds = self.bounds.as_slice();
        let tunnels = self.tunnels.as_slice();
        &tunnels[bounds[k]..bounds[k + 1]]
    }
}
