// Words of the heap: the entry of an item, and the item at a seat.
ghost use Rattle.std.specs.Prelude.{◌≡◌, ◌+◌, ◌≤◌, ◌<◌, length, get_or, set};
ghost use Rattle.heap.specs.Heaps.{settled_slot, most_items, greatest_key, key_of, word_of, item_at, key_at};
ghost use Rattle.heap.specs.Sifts.{placed};

// How many slots an entry can name. Key and slot stand in one number: an entry is a word of the slice that C
// lends.
pub const SLOTS: u64 = 1048576;

// The slot of an item that has left the heap: no seat has this number.
pub const SETTLED: u64 = 1048575;

// The key of an item.
#[tactic(auto, unfolding(crate::specs::Heaps::key_of))]
pub fn key_of(work: &[u64], item: usize) -> u64
    requires { item < length work.now }
    ensures { result ≡ key_of (get_or work.now item 0) }
{
    work[item] / SLOTS
}

// The word of a seat.
pub fn word_at(work: &[u64], n: usize, at: usize) -> u64
    requires { (n ≤ most_items) × (at < n) × (n + at < length work.now) }
    ensures { result ≡ get_or work.now (n + at) 0 }
{
    work[n + at]
}

// The item at a seat.
#[tactic(auto, unfolding(crate::specs::Heaps::slot_of))]
pub fn item_at(work: &[u64], n: usize, at: usize) -> usize
    requires { (n ≤ most_items) × (at < n) × (n + at < length work.now) }
    ensures { result ≡ item_at work.now n at }
{
    (work[n + at] % SLOTS) as usize
}

// The key of the item at a seat.
#[tactic(auto, unfolding(crate::specs::Heaps::key_of))]
pub fn key_at(work: &[u64], n: usize, at: usize) -> u64
    requires { (n ≤ most_items) × (at < n) × (n + at < length work.now)
        × (key_of (get_or work.now (n + at) 0) ≡ key_at work.now n at) }
    ensures { result ≡ key_at work.now n at }
{
    work[n + at] / SLOTS
}

// Puts an item with a key at a seat: the entry and the heap's word together.
#[tactic(auto, unfolding(crate::specs::Sifts::placed, crate::specs::Heaps::word_of))]
pub fn put(work: &mut [u64], n: usize, at: usize, item: usize, key: u64)
    requires { (n ≤ most_items) × (n + n ≤ length work.old) × (at < n) × (item < n) × (key ≤ greatest_key) }
    ensures { work.new ≡ placed work.old n at item key }
{
    work[item] = key * SLOTS + at as u64;
    work[n + at] = key * SLOTS + item as u64;
}

// Moves an item of the heap from one seat to another.
pub fn shift(work: &mut [u64], n: usize, from: usize, to: usize)
    requires { (n ≤ most_items) × (n + n ≤ length work.old) × (from < n) × (to < n) × (item_at work.old n from < n)
        × (key_at work.old n from ≤ greatest_key) × (key_of (get_or work.old (n + from) 0) ≡ key_at work.old n from) }
    ensures { work.new ≡ placed work.old n to (item_at work.old n from) (key_at work.old n from) }
{
    let item = item_at(work, n, from);
    let key = key_at(work, n, from);
    put(work, n, to, item, key);
}

// The item has left the heap: its slot says so.
#[tactic(auto, unfolding(crate::specs::Heaps::key_of, crate::specs::Heaps::word_of))]
pub fn settle(work: &mut [u64], item: usize)
    requires { (item < length work.old) × (key_of (get_or work.old item 0) ≤ greatest_key) }
    ensures { work.new ≡ set work.old item (word_of (key_of (get_or work.old item 0)) settled_slot) }
{
    work[item] = work[item] / SLOTS * SLOTS + SETTLED;
}
