// The tree, put into the heap: it costs nothing.
ghost use Rattle.std.specs.Prelude.{◌≡◌, List, false, ℕ, ◌+◌, ◌≤◌, ◌<◌, min, get_or};
ghost use Rattle.job.specs.Grid.{vertices};
ghost use Rattle.job.specs.Structs.{grid_of};
ghost use Rattle.heap.specs.Heaps.{Heaped, Lowered};
ghost use Rattle.metal.specs.Codes.{Beyond};
ghost use Rattle.rules.specs.Joins.{places};
ghost use Rattle.rules.specs.Walks.{start_at};
ghost use Rattle.rules.specs.Places.{place_code};
ghost use Rattle.rules.specs.Structs.{tech_by};
ghost use Rattle.search.specs.Fronts.{left_at};
ghost use Rattle.search.specs.Lists.{Laid};
ghost use Rattle.search.specs.Charts.{Blank};
ghost use Rattle.search.specs.Spreads.{keys, Seeded, Seeding};

use crate::places::code_of;
use bounds::bound::Bounds;
use heap::lower;
use rules::price::Prices;
use rules::segment::Segment;
use rules::step::Place;
use tree::ON_TREE;

// A join starts paid with no direction.
fn seed_vertex(
    prices: &Prices,
    spots: &[u8; 16384],
    bounds: &Bounds,
    work: &mut [u64],
    size: usize,
    vertex: usize,
) -> usize
    requires { (Heaped (places (tech_by prices.now.tech)) size work.old) × (vertex < vertices (grid_of prices.now.tech.grid)) }
    ensures off { (get_or spots.now vertex 0 ≡ 1 → ⊥) → (result ≡ size) × (work.new ≡ work.old) }
    ensures on { get_or spots.now vertex 0 ≡ 1
        → Lowered (places (tech_by prices.now.tech)) size (place_code (tech_by prices.now.tech) (start_at vertex)) (left_at (tech_by prices.now.tech) bounds.now.entries (place_code (tech_by prices.now.tech) (start_at vertex))) work.old work.new result }
{
    if spots[vertex] != ON_TREE {
        return size;
    }
    let place = Place {
        vertex,
        segment: Segment::Paid,
    };
    let code = code_of(prices.tech.largest, place);
    lower(
        work,
        prices.places(),
        size,
        code,
        bounds.at(prices.tech.grid, vertex),
    )
}

// Whether a block of vertices has a byte that is not 0: most have none, and are passed over. `any` leaves at
// the first byte, and so takes one at a time: it was tried, and takes twice as long.
fn some_in(spots: &[u8; 16384], from: usize) -> bool
    requires { from + 128 ≤ 16384 }
    ensures { result ≡ false → (v : ℕ) → from ≤ v → v < from + 128 → get_or spots.now v 0 ≡ 0 }
{
    let mut some: u8 = 0;
    for i in 0..128 {
        if spots[from + i] != 0 {
            some = 1;
        }
    }
    some != 0
}

// Where the block of a vertex ends.
fn block_end(from: usize, count: usize) -> usize
    requires { from ≤ 16384 }
    ensures { result ≡ min count (from + 128) }
{
    count.min(from + 128)
}

// The vertices from one to another.
fn seed_block(
    prices: &Prices,
    spots: &[u8; 16384],
    bounds: &Bounds,
    work: &mut [u64],
    before: usize,
    from: usize,
    to: usize,
) -> usize
    requires { (from + 128 ≤ 16384) × (from ≤ to) × (to ≤ from + 128)
        × (to ≤ vertices (grid_of prices.now.tech.grid)) × ((found : List ℕ) × Seeding (tech_by prices.now.tech) spots.now bounds.now.entries found work.old before from) }
    ensures { (found : List ℕ) → Seeding (tech_by prices.now.tech) spots.now bounds.now.entries found work.old before from
        → Seeding (tech_by prices.now.tech) spots.now bounds.now.entries found work.new result to }
{
    let mut size = before;
    if !some_in(spots, from) {
        return size;
    }
    for vertex in from..to {
        size = seed_vertex(prices, spots, bounds, work, size, vertex);
    }
    size
}

// Answers the heap's size. The needed part of the slice is lent zero.
pub fn seed(prices: &Prices, spots: &[u8; 16384], bounds: &Bounds, work: &mut [u64]) -> usize
    requires { (Blank (tech_by prices.now.tech) work.old) }
    ensures laid { Laid (places (tech_by prices.now.tech)) result 0 0 work.new }
    ensures seeded { Seeded (tech_by prices.now.tech) spots.now bounds.now.entries (vertices (grid_of prices.now.tech.grid)) (keys work.new) }
    ensures kept { Beyond (places (tech_by prices.now.tech) + places (tech_by prices.now.tech)) work.new work.old }
{
    let count = prices.tech.grid.vertices();
    let mut size = 0;
    for from in (0..count).step_by(128) {
        let to = block_end(from, count);
        size = seed_block(prices, spots, bounds, work, size, from, to);
    }
    size
}
