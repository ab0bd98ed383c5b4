// A heap of numbered items by their distances, in a slice that the caller lends. An item knows its seat, so
// that its distance can be lowered where it stands. The slice is in no struct of the heap: the search stores
// in it too, past the heap. The layout and what each function does are in specs/Heaps.antt.
#![tactic(auto)]

ghost use Rattle.std.specs.Prelude.{◌<◌};
ghost use Rattle.heap.specs.Heaps.{greatest_key, Heaped, Lowered, Removed};

pub mod cells;
mod sift;

use cells::{SLOTS, item_at, key_at, settle};
use sift::{sift_down, sift_up};

// Puts an item in, or lowers its distance; answers the heap's size. Nothing changes where the item is settled
// or its distance is no greater.
#[tactic(auto, unfolding(crate::specs::Heaps::key_of, crate::specs::Heaps::slot_of))]
pub fn lower(work: &mut [u64], n: usize, size: usize, item: usize, distance: u64) -> usize
    requires { (Heaped n size work.old) × (item < n) × (distance < greatest_key) }
    ensures { Lowered n size item distance work.old work.new result }
{
    let entry = work[item];
    let key = entry / SLOTS;
    let slot = (entry % SLOTS) as usize;
    if key == 0 {
        sift_up(work, n, size + 1, size, item, distance + 1);
        return size + 1;
    }
    if key <= distance + 1 {
        return size;
    }
    if n <= slot {
        return size;
    }
    sift_up(work, n, size, slot, item, distance + 1);
    size
}

// Takes out an item with the least distance, and answers it. Its entry keeps its distance, and the last
// seat's word becomes zero.
pub fn remove_least(work: &mut [u64], n: usize, size: usize) -> usize
    requires { (Heaped n size work.old) × (0 < size) }
    ensures { Removed n size result work.old work.new }
{
    let item = item_at(work, n, 0);
    let rest = size - 1;
    let last = item_at(work, n, rest);
    settle(work, item);
    if 0 < rest {
        sift_down(work, n, rest, 0, last, key_at(work, n, rest));
    }
    work[n + rest] = 0;
    item
}
