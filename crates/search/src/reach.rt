// The moves of a place that is settled: each may lower the entry of another place, or the best cost.
ghost use Rattle.std.specs.Prelude.{◌≡◌, ℕ, ◌+◌, ◌-◌, ◌*◌, ◌<◌, min};
ghost use Rattle.paths.specs.Systems.{to};
ghost use Rattle.heap.specs.Heaps.{Heaped};
ghost use Rattle.metal.specs.Codes.{Beyond};
ghost use Rattle.rules.specs.Views.{View};
ghost use Rattle.rules.specs.Steps.{step, priced};
ghost use Rattle.rules.specs.Joins.{places};
ghost use Rattle.rules.specs.Structs.{tech_by, seen_by, place_of};
ghost use Rattle.bounds.specs.Bounds.{Bounding};
ghost use Rattle.search.specs.Fronts.{left_at};
ghost use Rattle.search.specs.Tries.{AtPlace, OwedFor};
ghost use Rattle.search.specs.Spreads.{NoGoals, Turn, Reach};

use crate::moves::with_move;
use crate::places::{code_of, place_of};
use crate::settled::Settled;
use crate::tries::{Arrival, try_move};
use bounds::bound::Bounds;
use heap::lower;
use job::penalty::Penalty;
use rules::price::Prices;
use rules::track::vertex_by;
use tree::UNJOINED;

// The heap's size, and the cost of the cheapest goal found. Where none is found it is above every cost: so
// the lesser of two costs and the end of the search are asked in one comparison.
#[derive(Clone, Copy)]
pub struct Front {
    pub size: usize,
    pub best: u64,
}

// The same, and what a via owes, while the moves of a place are tried.
#[derive(Clone, Copy)]
pub struct Reaching {
    pub front: Front,
    pub owed: Option<Penalty>,
}

// Comes to a place by a legal move at a price. No route goes on from an unjoined pin.
fn arrive(
    prices: &Prices,
    spots: &[u8; 16384],
    bounds: &Bounds,
    near: &mut [u8; 16384],
    work: &mut [u64],
    settled: Settled,
    number: usize,
    arrival: Arrival,
    front: Front,
) -> Front
    requires { (AtPlace prices.now settled) × (Heaped (places (tech_by prices.now.tech)) front.size work.old) × ((view : View) × (priced (step (tech_by prices.now.tech) view (place_of settled.place) number) ≡ to arrival.price (place_of arrival.place))) }
    ensures { (view : View) → priced (step (tech_by prices.now.tech) view (place_of settled.place) number) ≡ to arrival.price (place_of arrival.place)
        → Reach (tech_by prices.now.tech) view spots.now bounds.now.entries (place_of settled.place) settled.distance number
        (priced (step (tech_by prices.now.tech) view (place_of settled.place) number))
        front.size front.best near.old work.old result.size result.best near.new work.new }
{
    let next = arrival.place;
    let cost = settled.distance + arrival.price as u64;
    let into = next.vertex;
    if spots[into] == UNJOINED {
        let vertex = settled.place.vertex;
        near[vertex] = with_move(near[vertex], number);
        return Front {
            size: front.size,
            best: front.best.min(cost),
        };
    }
    let code = code_of(prices.tech.largest, next);
    let left = bounds.entered(prices.tech.grid, settled.vertex, number);
    let n = prices.places();
    Front {
        size: lower(work, n, front.size, code, 16 * cost + left),
        best: front.best,
    }
}

// Tries one move.
fn reach(
    prices: &Prices,
    seen: &[u8; 16384],
    spots: &[u8; 16384],
    bounds: &Bounds,
    near: &mut [u8; 16384],
    work: &mut [u64],
    settled: Settled,
    number: usize,
    reaching: Reaching,
) -> Reaching
    requires { (AtPlace prices.now settled) × (Heaped (places (tech_by prices.now.tech)) reaching.front.size work.old) × (OwedFor (tech_by prices.now.tech) (seen_by prices.now.tech seen.now) (place_of settled.place) reaching.owed)
        × (NoGoals (tech_by prices.now.tech) spots.now work.old) }
    ensures reached { Reach (tech_by prices.now.tech) (seen_by prices.now.tech seen.now) spots.now bounds.now.entries (place_of settled.place) settled.distance number
        (priced (step (tech_by prices.now.tech) (seen_by prices.now.tech seen.now) (place_of settled.place) number))
        reaching.front.size reaching.front.best near.old work.old result.front.size result.front.best near.new work.new }
    ensures owed { OwedFor (tech_by prices.now.tech) (seen_by prices.now.tech seen.now) (place_of settled.place) result.owed }
{
    let front = reaching.front;
    let was = reaching.owed;
    let attempt = try_move(prices, seen, bounds, work, settled, number, was);
    let owed = attempt.owed;
    let Some(arrival) = attempt.tried else {
        return Reaching { front, owed };
    };
    let reached = arrive(
        prices, spots, bounds, near, work, settled, number, arrival, front,
    );
    Reaching {
        front: reached,
        owed,
    }
}

// Tries the four moves of the place with a number, whose key is 16 times its cost with what is left, and 1.
pub fn reach_all(
    prices: &Prices,
    seen: &[u8; 16384],
    spots: &[u8; 16384],
    bounds: &Bounds,
    near: &mut [u8; 16384],
    work: &mut [u64],
    item: usize,
    top: u64,
    front: Front,
) -> Front
    requires { ((settled distance : ℕ) × (top ≡ 16 * distance + left_at (tech_by prices.now.tech) bounds.now.entries item)
        × (Turn (tech_by prices.now.tech) (seen_by prices.now.tech seen.now) spots.now bounds.now.entries near.old work.old front.size settled front.best item distance 0))
        × (Bounding (tech_by prices.now.tech) spots.now bounds.now.entries) }
    ensures turned { (settled distance : ℕ) → top ≡ 16 * distance + left_at (tech_by prices.now.tech) bounds.now.entries item
        → Turn (tech_by prices.now.tech) (seen_by prices.now.tech seen.now) spots.now bounds.now.entries near.old work.old
        front.size settled front.best item distance 0
        → Turn (tech_by prices.now.tech) (seen_by prices.now.tech seen.now) spots.now bounds.now.entries near.new work.new
        result.size settled
        result.best item distance 4 }
    ensures kept { Beyond (places (tech_by prices.now.tech) + places (tech_by prices.now.tech)) work.new work.old }
{
    let place = place_of(prices.tech.largest, item);
    let vertex = vertex_by(prices.tech.grid, place.vertex);
    let distance = (top - bounds.of(vertex)) / 16;
    let settled = Settled {
        place,
        vertex,
        distance,
    };
    let mut reaching = Reaching { front, owed: None };
    for number in 0..4 {
        reaching = reach(
            prices, seen, spots, bounds, near, work, settled, number, reaching,
        );
    }
    reaching.front
}
