//! The values of a table that no thread shares any more.
ghost use Rattle.std.specs.Prelude.{◌≡◌, ℕ, ◌<◌, ◌≤◌, [], map, length, vec_capacity, Some};
ghost use lib.ListN.{get_elem?};
ghost use mathlib.Core.Option.{some};
ghost use Rattle.std.specs.Slots.{slots_items, slots_len, IsFull};

use atomic_table::Closed;
use std::alloc::Global;

// Takes the values out of their slots, in order, into `room`.
pub(crate) fn take_all<T>(
    mut closed: Closed<Option<T>, Global>,
    mut room: Vec<T>,
    count: usize,
) -> Vec<T>
    requires full { IsFull closed.slots × IsFull closed.words × (slots_len closed.slots ≡ count) × (length (slots_items closed.slots) ≡ count) }
    requires values { (item : ℕ) → item < count → (value : T) × (get_elem? (slots_items closed.slots) item ≡ some (Some value)) }
    requires room { (room.items ≡ []) × (count ≤ vec_capacity room) }
    ensures { map Some result.items ≡ slots_items closed.slots }
{
    for item in 0..count {
        let Some(value) = closed.take(item) else {
            unreachable!()
        };
        room.push_reserved(value);
    }
    closed.free();
    room
}
