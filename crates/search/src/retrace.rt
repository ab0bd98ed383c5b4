// The places of cheapest joins get leads: from the last settled place to the first, one gets a lead where a
// move leads on. Each move raises the key, so that a place leads on only to places settled after it, and one
// pass suffices.
ghost use Rattle.std.specs.Prelude.{◌≡◌, ℕ, suc, ◌+◌, ◌-◌, ◌*◌, ◌/◌, ◌%◌, ◌≤◌, ◌<◌, ◌^◌, min, length, get_or};
ghost use Rattle.job.specs.Grid.{vertices};
ghost use Rattle.job.specs.Structs.{Sized, grid_of, vertex_struct};
ghost use Rattle.heap.specs.Heaps.{most_items, key_of};
ghost use Rattle.metal.specs.Codes.{Beyond};
ghost use Rattle.rules.specs.Tracks.{vertex_by, at, entered};
ghost use Rattle.rules.specs.Joins.{places};
ghost use Rattle.rules.specs.Places.{place_at, dearest_move};
ghost use Rattle.rules.specs.Structs.{tech_by, seen_by};
ghost use Rattle.bounds.specs.Bounds.{Bounding};
ghost use Rattle.search.specs.Fronts.{costs, with_lead, no_goal};
ghost use Rattle.search.specs.Lists.{Laid};
ghost use Rattle.search.specs.Spreads.{Ended};
ghost use Rattle.search.specs.Leads.{OnlyMoves, Answered};
ghost use Rattle.search.specs.Bits.{HasMove};
ghost use Rattle.search.specs.Charts.{Charted, lowest_led};

use crate::lead::{LED, lowest_among};
use crate::moves::with_move;
use crate::places::place_of;
use crate::settled::Settled;
use bounds::bound::Bounds;
use heap::cells::{SLOTS, key_of};
use job::grid::{Grid, Vertex};
use rules::price::Prices;
use rules::track::{entered_by, vertex_by};

// Sets the bit of the move back, at the vertex that a move enters.
fn light_one(near: &mut [u8; 16384], grid: Grid, v: usize, from: Vertex, number: usize)
    requires { (Sized grid) × (v < vertices (grid_of grid)) × (from ≡ vertex_struct (vertex_by (grid_of grid) v)) × (length near.old ≡ 16384) × (number < 4) }
    ensures lit { (u : ℕ) → entered (grid_of grid) v number ≡ at u → HasMove (get_or near.new u 0) (number + 1 - 2 * (number % 2)) }
    ensures stays { (u m : ℕ) → HasMove (get_or near.old u 0) m → HasMove (get_or near.new u 0) m }
    ensures long { length near.new ≡ 16384 }
{
    let Some(u) = entered_by(grid, v, from, number) else {
        return;
    };
    near[u] = with_move(near[u], number + 1 - 2 * (number % 2));
}

// Sets the bits of the moves that enter a vertex: each may lead on to it.
fn light(near: &mut [u8; 16384], grid: Grid, v: usize, from: Vertex)
    requires { (Sized grid) × (v < vertices (grid_of grid)) × (from ≡ vertex_struct (vertex_by (grid_of grid) v)) × (length near.old ≡ 16384) }
    ensures lit { (u m : ℕ) → u < vertices (grid_of grid) → entered (grid_of grid) u m ≡ at v → HasMove (get_or near.new u 0) m }
    ensures stays { (u m : ℕ) → HasMove (get_or near.old u 0) m → HasMove (get_or near.new u 0) m }
    ensures long { length near.new ≡ 16384 }
{
    for number in 0..4 {
        light_one(near, grid, v, from, number);
    }
}

// Puts a lead that tells a move on a settled place; its key stays.
fn put_lead(work: &mut [u64], item: usize, lead: usize)
    requires { (item < length work.old) × (key_of (get_or work.old item 0) ≤ 2 ^ 41) × (lead < 4) }
    ensures { work.new ≡ with_lead work.old item lead }
{
    work[item] = work[item] / SLOTS * SLOTS + (4 * LED + lead as u64);
}

// The lower start: a place of the tree costs nothing.
fn lower_start(settled: Settled, start: usize) -> usize
    ensures other { (settled.distance ≡ 0 → ⊥) → result ≡ start }
    ensures lower { settled.distance ≡ 0 → result ≡ min start settled.place.vertex }
{
    if settled.distance != 0 {
        return start;
    }
    start.min(settled.place.vertex)
}

// The place of a number gets a lead where a move of its vertex's byte leads on; answers the lower start. No
// other move does.
fn retrace_place(
    prices: &Prices,
    seen: &[u8; 16384],
    spots: &[u8; 16384],
    bounds: &Bounds,
    near: &mut [u8; 16384],
    work: &mut [u64],
    item: usize,
    best: u64,
    start: usize,
) -> usize
    requires known { (item < places (tech_by prices.now.tech)) × (places (tech_by prices.now.tech) ≤ length work.old) × (length near.old ≡ 16384)
        × (0 < costs (tech_by prices.now.tech) bounds.now.entries work.old item) × (key_of (get_or work.old item 0) ≤ 2 ^ 41) × (costs (tech_by prices.now.tech) bounds.now.entries work.old item ≤ suc (dearest_move * most_items)) }
    requires by_index { (e : ℕ) → costs (tech_by prices.now.tech) bounds.now.entries work.old item ≡ suc e
        → OnlyMoves (tech_by prices.now.tech) (seen_by prices.now.tech seen.now) spots.now bounds.now.entries work.old best (place_at prices.now.tech.largest item) e
        (get_or near.old (place_at prices.now.tech.largest item).vertex 0) }
    ensures { Answered (tech_by prices.now.tech) (seen_by prices.now.tech seen.now) spots.now bounds.now.entries best item
        (place_at prices.now.tech.largest item) near.old work.old near.new work.new start result }
{
    let place = place_of(prices.tech.largest, item);
    let v = place.vertex;
    let moves = near[v];
    if moves == 0 {
        return start;
    }
    let vertex = vertex_by(prices.tech.grid, v);
    let distance = (key_of(work, item) - 1 - bounds.of(vertex)) / 16;
    let settled = Settled {
        place,
        vertex,
        distance,
    };
    let Some(lead) = lowest_among(prices, seen, spots, bounds, work, settled, moves, best) else {
        return start;
    };
    put_lead(work, item, lead);
    light(near, prices.tech.grid, v, vertex);
    lower_start(settled, start)
}

// All places of cheapest joins get leads after a search that found an unjoined pin; answers the lowest vertex
// of the tree whose place has one. Before it no place has one. Only the moves of a vertex's byte may lead on.
pub fn retrace(
    prices: &Prices,
    seen: &[u8; 16384],
    spots: &[u8; 16384],
    bounds: &Bounds,
    near: &mut [u8; 16384],
    work: &mut [u64],
    settled: usize,
    best: u64,
) -> usize
    requires { (best < no_goal) × ((size : ℕ)
        × (Ended (tech_by prices.now.tech) (seen_by prices.now.tech seen.now) spots.now bounds.now.entries near.old work.old size settled best))
        × (Bounding (tech_by prices.now.tech) spots.now bounds.now.entries) }
    ensures charted { Charted (tech_by prices.now.tech) (seen_by prices.now.tech seen.now) spots.now bounds.now.entries work.new best }
    ensures start { result ≡ lowest_led (tech_by prices.now.tech) (seen_by prices.now.tech seen.now) spots.now work.new }
    ensures laid { (size last : ℕ) → Laid (places (tech_by prices.now.tech)) size settled last work.old → Laid (places (tech_by prices.now.tech)) size settled last work.new }
    ensures kept { Beyond (places (tech_by prices.now.tech) + places (tech_by prices.now.tech)) work.new work.old }
{
    let n = prices.places();
    // Above every vertex.
    let mut start = prices.tech.grid.vertices();
    for left in (0..settled).rev() {
        let item = work[n + n - 1 - left] as usize;
        start = retrace_place(prices, seen, spots, bounds, near, work, item, best, start);
    }
    start
}
