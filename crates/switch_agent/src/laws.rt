//! That an agent has room for the items of every document within the limits.
ghost use Rattle.std.specs.Prelude.{◌≡◌, ◌≤◌, ◌<◌, ℕ, false, true, length, nat_eq};
ghost use Rattle.std.specs.List.{IsDistinct};
ghost use Rattle.std.specs.Map.{keys_of};
ghost use Rattle.rollout_rules.specs.Items.{item_count};
ghost use Rattle.rollout_rules.specs.Network.{IsNetwork};
ghost use Rattle.rollout_rules.specs.Wan.{Problem};
ghost use Rattle.switch_agent.specs.Items.{Items, most_items, seen};

/// No document within the limits has more items than an agent keeps.
pub fn a_document_has_no_more_items()
    ensures { (p : Problem) → IsNetwork p → item_count p ≤ most_items }
{}

/// An agent that saw items of such documents alone has a place for each further one, however many there
/// were.
pub fn there_is_room_for_every_document()
    ensures { (items : Items)
        → IsDistinct nat_eq (keys_of items)
        → ((q : ℕ) → seen items q ≡ true → q < most_items)
        → (item : ℕ)
        → item < most_items
        → seen items item ≡ false
        → length items < most_items }
{}
