ghost use Rattle.std.specs.Prelude.{◌≡◌, [], ◌∷◌, ◌++◌, slice_index_or, slice_set, vec_len, IfOk, OnOk, ◌<◌};
ghost use Rattle.dependency_graph.specs.Index.{AreEmpty};

use lists::{Many, Memory};
use std::alloc::Global;

/// So many rows with nothing in them.
pub(crate) fn empty_rows<T: Drop>(alloc: Global, count: usize) -> Result<Vec<Many<T>>, Memory>
    ensures { IfOk result (λ rows. AreEmpty count rows.items) }
{
    let mut rows = Vec::new(alloc);
    for _row in 0..count {
        rows.push(Many::new(alloc))?;
    }
    Ok(rows)
}

/// Adds an element at the end of one of the rows.
pub(crate) fn push_at<T: Drop>(rows: &mut Vec<Many<T>>, at: usize, element: T) -> Result<(), Memory>
    requires { at < vec_len rows.old }
    ensures { OnOk result
        (rows.new.items
        ≡ slice_set rows.old.items at (slice_index_or rows.old.items at [] ++ element ∷ [])) }
{
    rows[at].push(element)
}
