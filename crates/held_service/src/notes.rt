//! What is noted of items, by their numbers.
ghost use Rattle.std.specs.Prelude.{◌≡◌, ◌++◌, ◌<◌, [], ◌∷◌, length, slice_set, is_some, Some, IfOk, OnOk};
ghost use Rattle.wan_edge.specs.Switches.{pair_given};
ghost use Rattle.held_service.specs.Noting.{first_of, noted_at, untold};

use lists::{Ids, Memory};
use rollout_rules::Held;
use std::alloc::Global;
use wire_frames::Answer;

/// What is noted of an item.
pub(crate) fn noted_at(notes: &[Option<Held>], item: u32) -> Option<Held>
    ensures { result ≡ noted_at notes.now item }
{
    *notes.get(item as usize)?
}

/// Notes the pair that is held of an item, in the place of what was noted.
pub(crate) fn note(notes: &mut [Option<Held>], item: u32, held: Held)
    requires { item < length notes.old }
    ensures { notes.new ≡ slice_set notes.old item (Some held) }
{
    notes[item as usize] = Some(held);
}

/// The pair that an answer of a migration gives.
pub(crate) fn pair_of(frame: &(u32, Answer)) -> Held
    ensures { result ≡ pair_given frame.now }
{
    Held {
        migration: frame.0,
        number: held_of(&frame.1),
    }
}

fn held_of(answer: &Answer) -> u32
    ensures { result ≡ answer.now.held }
{
    answer.held
}

/// The item that an answer tells of.
pub(crate) fn item_of(answer: &Answer) -> u32
    ensures { result ≡ answer.now.item }
{
    answer.item
}

/// Whether something is noted of an item.
pub(crate) fn is_told(notes: &[Option<Held>], item: u32) -> bool
    ensures { result ≡ is_some (noted_at notes.now item) }
{
    noted_at(notes, item).is_some()
}

/// Those of the items of which nothing is noted, in their order.
pub(crate) fn list_untold(
    alloc: Global,
    notes: &[Option<Held>],
    items: &[u32],
) -> Result<Ids, Memory>
    ensures { IfOk result (λ left. left ≡ untold notes.now items.now) }
{
    let mut left = Ids::new(alloc);
    for &item in items {
        add_untold(notes, item, &mut left)?;
    }
    Ok(left)
}

// Adds an item, where nothing is noted of it.
fn add_untold(notes: &[Option<Held>], item: u32, left: &mut Ids) -> Result<(), Memory>
    ensures { OnOk result (left.new ≡ left.old ++ untold notes.now (item ∷ [])) }
{
    if !is_told(notes, item) {
        left.push(item)?;
    }
    Ok(())
}

/// The first of the items of which nothing is noted.
pub(crate) fn first_untold(notes: &[Option<Held>], items: &[u32]) -> Option<u32>
    ensures { result ≡ first_of (untold notes.now items.now) }
{
    for &item in items {
        if !is_told(notes, item) {
            return Some(item);
        }
    }
    None
}
