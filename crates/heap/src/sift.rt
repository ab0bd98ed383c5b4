// An item finds its seat in the heap: it goes up while the one above it has a greater key, or down while one
// below has a lesser. The others move into the hole that it leaves, and it is put at the end.
ghost use Rattle.std.specs.Prelude.{◌+◌, ◌*◌, ◌<◌};
ghost use Rattle.heap.specs.Sifts.{placed, Lifted, Dropped, Held, Sifted, Keyed, Lowest, Climbs, Least, Sinks};

use crate::cells::{key_at, put, shift, word_at};

// The seat above, where its item has a greater key.
#[tactic(auto, unfolding(crate::specs::Sifts::Climbs))]
fn greater_above(work: &[u64], n: usize, size: usize, at: usize, key: u64) -> Option<usize>
    requires { Held n size at work.now }
    ensures { Climbs n at key work.now result }
{
    if at == 0 {
        return None;
    }
    let up = (at - 1) / 4;
    if key < key_at(work, n, up) {
        Some(up)
    } else {
        None
    }
}

// Puts an item at a seat of a heap of `size`, or higher.
#[tactic(auto, unfolding(crate::specs::Sifts::Climbs))]
pub fn sift_up(work: &mut [u64], n: usize, size: usize, from: usize, item: usize, key: u64)
    requires { Lifted n size from item key work.old }
    ensures { Sifted n size (placed work.old n from item key) work.new }
{
    let mut at = from;
    while let Some(up) = greater_above(work, n, size, at, key) {
        shift(work, n, up, at);
        at = up;
    }
    put(work, n, at, item, key);
}

// Of four seats in a row the one with the least key: the lesser of each pair, then of the two. Each word is
// read once, with no branch. Words are compared whole: the lesser has no greater key.
fn least_of_four(work: &[u64], n: usize, first: usize) -> usize
    requires { Keyed n first (first + 4) work.now }
    ensures { Lowest n first (first + 4) work.now result }
{
    let a = word_at(work, n, first);
    let b = word_at(work, n, first + 1);
    let c = word_at(work, n, first + 2);
    let d = word_at(work, n, first + 3);
    let i = first + usize::from(b < a);
    let j = first + 2 + usize::from(d < c);
    if c.min(d) < a.min(b) { j } else { i }
}

// Of the seats from one to the heap's end the one with the least key.
fn least_of_few(work: &[u64], n: usize, first: usize, size: usize) -> usize
    requires { (Keyed n first size work.now) × (first < size) }
    ensures { Lowest n first size work.now result }
{
    let mut least = first;
    for seat in first + 1..size {
        if key_at(work, n, seat) < key_at(work, n, least) {
            least = seat;
        }
    }
    least
}

// Below a seat that has a seat below it, the seat with the least key.
fn lesser_child(work: &[u64], n: usize, size: usize, at: usize) -> usize
    requires { (Held n size at work.now) × (4 * at + 1 < size) }
    ensures { Least n size at work.now result }
{
    let first = 4 * at + 1;
    if size < first + 4 {
        return least_of_few(work, n, first, size);
    }
    least_of_four(work, n, first)
}

// The seat below with the least key, where that is lesser.
#[tactic(auto, unfolding(crate::specs::Sifts::Sinks))]
fn lesser_below(work: &[u64], n: usize, size: usize, at: usize, key: u64) -> Option<usize>
    requires { Held n size at work.now }
    ensures { Sinks n size at key work.now result }
{
    if size <= 4 * at + 1 {
        return None;
    }
    let down = lesser_child(work, n, size, at);
    if key_at(work, n, down) < key {
        Some(down)
    } else {
        None
    }
}

// Puts an item at a seat of a heap of `size`, or lower.
#[tactic(auto, unfolding(crate::specs::Sifts::Sinks))]
pub fn sift_down(work: &mut [u64], n: usize, size: usize, from: usize, item: usize, key: u64)
    requires { Dropped n size from item key work.old }
    ensures { Sifted n size (placed work.old n from item key) work.new }
{
    let mut at = from;
    while let Some(down) = lesser_below(work, n, size, at, key) {
        shift(work, n, down, at);
        at = down;
    }
    put(work, n, at, item, key);
}
