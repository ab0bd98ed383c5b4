// One move from a settled place: where it leads, at which price. The rules' own functions are asked.
ghost use Rattle.std.specs.Prelude.{◌≡◌, ℕ, true, ◌≤◌, ◌<◌, ◌^◌, length};
ghost use Rattle.job.specs.Structs.{grid_of};
ghost use Rattle.job.specs.declared.penalty.Penalty.TheVariants.{Price};
ghost use Rattle.rules.specs.Tracks.{at, entered};
ghost use Rattle.rules.specs.Segments.{along, kind_of};
ghost use Rattle.rules.specs.Steps.{step, priced};
ghost use Rattle.rules.specs.Joins.{places};
ghost use Rattle.rules.specs.Structs.{direction_of, Via, tech_by, seen_by, cost_of, owed_cost, by_owed, place_of};
ghost use Rattle.search.specs.Tries.{AtPlace, tried_of, OwedFor, fresh_code, Passed, Attempted};

use crate::places::code_of;
use crate::settled::Settled;
use bounds::bound::Bounds;
use heap::cells::key_of;
use job::penalty::Penalty;
use rules::overhead::{overhead_of, overhead_price};
use rules::price::Prices;
use rules::segment::{Direction, Segment, grow};
use rules::step::{Place, entry_of};
use rules::track::{Kind, kind_of, track_of};

// Where a move leads, and its price with the overhead.
#[derive(Clone, Copy)]
pub struct Arrival {
    pub place: Place,
    pub price: usize,
}

// A move that was tried: nothing where it leads nowhere, or would lower nothing there. What a via owes does
// not depend on the via: it is asked once for a settled place, and is nothing before.
#[derive(Clone, Copy)]
pub struct Attempt {
    pub tried: Option<Arrival>,
    pub owed: Option<Penalty>,
}

// A step along the track makes the segment longer.
fn try_along(
    prices: &Prices,
    seen: &[u8; 16384],
    settled: Settled,
    number: usize,
    toward: Direction,
) -> Option<Arrival>
    requires { (AtPlace prices.now settled) × (kind_of number ≡ along (direction_of toward)) }
    ensures { tried_of result ≡ priced (step (tech_by prices.now.tech) (seen_by prices.now.tech seen.now) (place_of settled.place) number) }
{
    let place = settled.place;
    let from = settled.vertex;
    let entry = entry_of(prices, seen, place.vertex, from, number)?;
    let segment = place.segment;
    let line = prices.line(from.layer);
    let longer = grow(line.least, toward, segment)?;
    let next = Place {
        vertex: entry.into,
        segment: longer,
    };
    Some(Arrival {
        place: next,
        price: entry.price,
    })
}

// Whether the fresh place at a vertex has a key that no via at this price lowers, whatever it owes.
fn passed_over(
    prices: &Prices,
    bounds: &Bounds,
    work: &[u64],
    settled: Settled,
    number: usize,
    into: usize,
    price: usize,
) -> bool
    requires { (AtPlace prices.now settled) × (places (tech_by prices.now.tech) ≤ length work.now)
        × (entered (grid_of prices.now.tech.grid) settled.place.vertex number ≡ at into) × (price < 2 ^ 20) }
    ensures { result ≡ true → Passed (tech_by prices.now.tech) bounds.now.entries work.now settled.distance price (fresh_code (tech_by prices.now.tech) into) }
{
    let fresh = Place {
        vertex: into,
        segment: Segment::Fresh,
    };
    let key = key_of(work, code_of(prices.tech.largest, fresh));
    if key == 0 {
        return false;
    }
    let left = bounds.entered(prices.tech.grid, settled.vertex, number);
    key <= 16 * (settled.distance + price as u64) + left + 1
}

// What a via owes, asked once.
fn ask_owed(prices: &Prices, seen: &[u8; 16384], settled: Settled, owed: Option<Penalty>) -> Penalty
    requires { (AtPlace prices.now settled) × (OwedFor (tech_by prices.now.tech) (seen_by prices.now.tech seen.now) (place_of settled.place) owed) }
    ensures { cost_of result ≡ owed_cost (tech_by prices.now.tech) (seen_by prices.now.tech seen.now) (place_of settled.place) }
{
    if let Some(asked) = owed {
        return asked;
    }
    let place = settled.place;
    let segment = place.segment;
    let from = settled.vertex;
    let track = track_of(prices.tech.grid, from);
    let overhead = overhead_of(track, prices, seen, place.vertex, from, segment);
    overhead_price(prices.line(from.layer), overhead)
}

// A via to a vertex at a price of entering, with what it owes.
fn to_fresh(into: usize, price: usize, owed: Penalty) -> Option<Arrival>
    requires { (price < 2 ^ 20) × ((over : ℕ) → owed ≡ Price over → over < 65536) }
    ensures { tried_of result ≡ by_owed into price (cost_of owed) }
{
    let Penalty::Price(over) = owed else {
        return None;
    };
    let next = Place {
        vertex: into,
        segment: Segment::Fresh,
    };
    Some(Arrival {
        place: next,
        price: price + over,
    })
}

// A via makes the segment fresh. One that is passed over is not asked what it owes.
fn try_via(
    prices: &Prices,
    seen: &[u8; 16384],
    bounds: &Bounds,
    work: &[u64],
    settled: Settled,
    number: usize,
    owed: Option<Penalty>,
) -> Attempt
    requires { (AtPlace prices.now settled) × (places (tech_by prices.now.tech) ≤ length work.now)
        × (OwedFor (tech_by prices.now.tech) (seen_by prices.now.tech seen.now) (place_of settled.place) owed) × (Via (kind_of number)) }
    ensures { Attempted (tech_by prices.now.tech) (seen_by prices.now.tech seen.now) bounds.now.entries work.now (place_of settled.place) settled.distance number result }
{
    let place = settled.place;
    let from = settled.vertex;
    let Some(entry) = entry_of(prices, seen, place.vertex, from, number) else {
        return Attempt { tried: None, owed };
    };
    let into = entry.into;
    let price = entry.price;
    if passed_over(prices, bounds, work, settled, number, into, price) {
        return Attempt { tried: None, owed };
    }
    let over = ask_owed(prices, seen, settled, owed);
    Attempt {
        tried: to_fresh(into, price, over),
        owed: Some(over),
    }
}

// The move's kind tells a step from a via.
pub fn try_move(
    prices: &Prices,
    seen: &[u8; 16384],
    bounds: &Bounds,
    work: &[u64],
    settled: Settled,
    number: usize,
    owed: Option<Penalty>,
) -> Attempt
    requires { (AtPlace prices.now settled) × (places (tech_by prices.now.tech) ≤ length work.now)
        × (OwedFor (tech_by prices.now.tech) (seen_by prices.now.tech seen.now) (place_of settled.place) owed) }
    ensures { Attempted (tech_by prices.now.tech) (seen_by prices.now.tech seen.now) bounds.now.entries work.now (place_of settled.place) settled.distance number result }
{
    let Kind::Along(toward) = kind_of(number) else {
        return try_via(prices, seen, bounds, work, settled, number, owed);
    };
    Attempt {
        tried: try_along(prices, seen, settled, number, toward),
        owed,
    }
}
