ghost use Rattle.std.specs.Prelude.{◌≡◌};

use crate::counted::Counted;
use crate::steps::Rule;
use crate::view::View;
use atomic_table::Table;
use std::alloc::Global;

/// A value that one pass at a time takes out, in the order of the tickets that they drew.
pub struct TurnLock<V: Counted> {
    pub(crate) table: Table<Option<V>, View<V::Entry>, (), Rule<V>, Global>,
    pub ghost words: { table.shared.table_id.words ≡ 3 },
    pub ghost slots: { table.shared.table_id.slots ≡ 1 },
}
