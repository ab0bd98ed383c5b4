// Makes zero what a search has touched: the entries of the places in the heap and its words, then the settled
// places and their list.
ghost use Rattle.std.specs.Prelude.{◌≡◌, ℕ, ◌+◌, ◌-◌, ◌≤◌, ◌<◌, length, get_or, set};
ghost use Rattle.heap.specs.Heaps.{most_items, item_at, Seated};
ghost use Rattle.metal.specs.Codes.{Beyond, Bare};
ghost use Rattle.search.specs.Lists.{list_at, Laid};

use heap::cells::item_at;

// Makes two words zero.
fn forget(work: &mut [u64], item: usize, word: usize)
    requires { (item < length work.old) × (word < length work.old) }
    ensures { work.new ≡ set (set work.old item 0) word 0 }
{
    work[item] = 0;
    work[word] = 0;
}

// The entries of the places in the heap, and its words.
fn clear_heap(work: &mut [u64], n: usize, size: usize)
    requires { Seated n size work.old }
    ensures { ((i : ℕ) → i < size → get_or work.new (item_at work.old n i) 0 ≡ 0)
        × ((i : ℕ) → i < size → get_or work.new (n + i) 0 ≡ 0)
        × ((j : ℕ) → n + size ≤ j → get_or work.new j 0 ≡ get_or work.old j 0)
        × ((j : ℕ) → get_or work.old j 0 ≡ 0 → get_or work.new j 0 ≡ 0) }
{
    for at in 0..size {
        let item = item_at(work, n, at);
        forget(work, item, n + at);
    }
}

// The settled places, and their list.
fn clear_list(work: &mut [u64], n: usize, settled: usize)
    requires { (n ≤ most_items) × (n + n ≤ length work.old) × (settled ≤ n) × ((i : ℕ) → i < settled → list_at n work.old i < n) }
    ensures { ((i : ℕ) → i < settled → get_or work.new (list_at n work.old i) 0 ≡ 0)
        × ((i : ℕ) → i < settled → get_or work.new (n + n - 1 - i) 0 ≡ 0)
        × ((j : ℕ) → n + n ≤ j → get_or work.new j 0 ≡ get_or work.old j 0)
        × ((j : ℕ) → get_or work.old j 0 ≡ 0 → get_or work.new j 0 ≡ 0) }
{
    for at in 0..settled {
        let word = n + n - 1 - at;
        let item = work[word] as usize;
        forget(work, item, word);
    }
}

// After it every word of the search is zero, and what is past them is as found.
pub fn clear(work: &mut [u64], n: usize, size: usize, settled: usize)
    requires { (last : ℕ) × Laid n size settled last work.old }
    ensures bare { Bare (n + n) work.new }
    ensures kept { Beyond (n + n) work.new work.old }
{
    clear_heap(work, n, size);
    clear_list(work, n, settled);
}
