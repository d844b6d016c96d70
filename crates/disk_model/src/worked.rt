//! Worked examples of writes, whole and torn: some that may be, and some that may not.
ghost use Rattle.std.specs.Prelude.{◌≡◌, [], ◌∷◌};
ghost use Rattle.disk_model.specs.Memory.{Reaches};
ghost use Rattle.disk_model.specs.Writes.{Torn, written};

pub fn a_gap_past_the_end_is_zeros()
    ensures { written 4 (7 ∷ []) (1 ∷ 2 ∷ []) ≡ 1 ∷ 2 ∷ 0 ∷ 0 ∷ 7 ∷ [] }
{}

pub fn a_write_replaces_its_range_alone()
    ensures { written 1 (8 ∷ 9 ∷ []) (1 ∷ 2 ∷ 3 ∷ 4 ∷ []) ≡ 1 ∷ 8 ∷ 9 ∷ 4 ∷ [] }
{}

pub fn a_torn_write_may_leave_any_byte_in_its_range()
    ensures { Torn 1 1 (1 ∷ 2 ∷ 3 ∷ []) (1 ∷ 9 ∷ 3 ∷ []) }
{}

pub fn a_torn_write_leaves_no_other_byte_behind_it()
    ensures { Torn 1 1 (1 ∷ 2 ∷ 3 ∷ []) (1 ∷ 2 ∷ 9 ∷ []) → ⊥ }
{}

pub fn a_torn_write_cuts_nothing_off()
    ensures { Torn 1 1 (1 ∷ 2 ∷ 3 ∷ []) (1 ∷ 2 ∷ []) → ⊥ }
{}

pub fn a_torn_write_past_the_end_may_fill_the_gap_in_part()
    ensures { Torn 4 1 (1 ∷ 2 ∷ []) (1 ∷ 2 ∷ 5 ∷ []) }
{}

/// The second of two writes that were not synced may be there without the first.
pub fn a_later_write_may_be_left_alone()
    ensures { Reaches (1 ∷ 2 ∷ []) ((0, 1) ∷ (1, 1) ∷ []) (1 ∷ 9 ∷ []) }
{}
