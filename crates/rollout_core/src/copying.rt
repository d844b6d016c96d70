ghost use Rattle.std.specs.Prelude.{◌≡◌, IfOk};

use lists::Memory;
use std::alloc::Global;

/// The same values once more.
pub(crate) fn copy_values<T: Copy>(alloc: Global, values: &[T]) -> Result<Vec<T>, Memory>
    ensures { IfOk result (λ copy. copy.items ≡ values.now) }
{
    let mut copy = Vec::new(alloc);
    copy.extend_from_slice(values)?;
    Ok(copy)
}
