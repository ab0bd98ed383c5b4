// The moves of cheapest joins: each leads to an unjoined pin at the best cost, or on to a lead at its exact
// distance.
ghost use Rattle.std.specs.Prelude.{◌≡◌, ℕ, Some, None, ◌%◌, ◌≤◌, ◌<◌, length, get_or};
ghost use Rattle.rules.specs.Steps.{step, priced};
ghost use Rattle.rules.specs.Joins.{places};
ghost use Rattle.rules.specs.Structs.{tech_by, seen_by, place_of};
ghost use Rattle.heap.specs.Heaps.{slot_of};
ghost use Rattle.search.specs.Tries.{AtPlace};
ghost use Rattle.search.specs.Leads.{lead_by, lowest_by, OnlyMoves};

use crate::moves::has_move;
use crate::places::code_of;
use crate::settled::Settled;
use bounds::bound::Bounds;
use heap::cells::SLOTS;
use rules::price::Prices;
use rules::step::step_from;
use tree::UNJOINED;

// A quarter of the slots of places with a lead: the rest is the lowest move that leads on. No seat of the
// heap has such a number, and no settled place without a lead.
pub const LED: u64 = 262142;

// The move that the lead of a place tells.
pub fn lead_at(work: &[u64], code: usize) -> usize
    requires { code < length work.now }
    ensures { result ≡ slot_of (get_or work.now code 0) % 4 }
{
    (work[code] % 4) as usize
}

// Whether a move leads so, from a settled place.
fn leads(
    prices: &Prices,
    seen: &[u8; 16384],
    spots: &[u8; 16384],
    bounds: &Bounds,
    work: &[u64],
    settled: Settled,
    number: usize,
    best: u64,
) -> bool
    requires { (AtPlace prices.now settled) × (places (tech_by prices.now.tech) ≤ length work.now) }
    ensures { result ≡ lead_by (tech_by prices.now.tech) (seen_by prices.now.tech seen.now) spots.now bounds.now.entries work.now best settled.distance
        (priced (step (tech_by prices.now.tech) (seen_by prices.now.tech seen.now) (place_of settled.place) number)) }
{
    let grid = prices.tech.grid;
    let place = settled.place;
    let from = settled.vertex;
    let Some(made) = step_from(prices, seen, place, from, number) else {
        return false;
    };
    let next = made.next;
    let cost = settled.distance + (made.enter + made.over) as u64;
    let vertex = next.vertex;
    if spots[vertex] == UNJOINED {
        return cost == best;
    }
    let code = code_of(prices.tech.largest, next);
    let word = work[code];
    if word % SLOTS / 4 != LED {
        return false;
    }
    let left = bounds.entered(grid, from, number);
    word / 4 == (16 * cost + left + 1) * (SLOTS / 4) + LED
}

// The lowest move of a byte that does, where one does. No other move may lead so.
pub fn lowest_among(
    prices: &Prices,
    seen: &[u8; 16384],
    spots: &[u8; 16384],
    bounds: &Bounds,
    work: &[u64],
    settled: Settled,
    moves: u8,
    best: u64,
) -> Option<usize>
    requires { (AtPlace prices.now settled) × (places (tech_by prices.now.tech) ≤ length work.now) × (OnlyMoves (tech_by prices.now.tech) (seen_by prices.now.tech seen.now) spots.now bounds.now.entries work.now best (place_of settled.place) settled.distance moves) }
    ensures some { (m : ℕ) → result ≡ Some m
        → (m < 4) × (m ≡ lowest_by (tech_by prices.now.tech) (seen_by prices.now.tech seen.now) spots.now bounds.now.entries work.now best (place_of settled.place) settled.distance) }
    ensures none { result ≡ None → 4 ≡ lowest_by (tech_by prices.now.tech) (seen_by prices.now.tech seen.now) spots.now bounds.now.entries work.now best (place_of settled.place) settled.distance }
{
    for number in 0..4 {
        if has_move(moves, number) {
            if leads(prices, seen, spots, bounds, work, settled, number, best) {
                return Some(number);
            }
        }
    }
    None
}
