// The join that a search found: written into the plan, and walked; or a record that says none.
ghost use Rattle.std.specs.Prelude.{◌<◌, ◌≤◌, ◌^◌, length};
ghost use Rattle.job.specs.Grid.{vertices};
ghost use Rattle.job.specs.Structs.{grid_of};
ghost use Rattle.rules.specs.Structs.{tech_by, seen_by};
ghost use Rattle.joins.specs.Traces.{join_by_spots, Told};
ghost use Rattle.joins.specs.Joined.{Written};

use crate::record::{put_cost, put_none, put_start};
use crate::trace::count_moves;
use crate::write::{Route, write_moves};
use rules::price::Prices;
use walker::Walk;

// The walk of a join, and the bit after its record.
#[derive(Clone, Copy)]
pub struct Joined {
    pub walk: Walk,
    pub next: usize,
}

// Where the cheapest join starts, and what it costs.
#[derive(Clone, Copy)]
pub struct Cheapest {
    pub start: usize,
    pub cost: u64,
}

// The record of what a search found, from a bit of the plan on; of none, that there is none.
pub fn write_join(
    prices: &Prices,
    seen: &[u8; 16384],
    spots: &mut [u8; 16384],
    map: &mut [u16],
    work: &[u64],
    plan: &mut [u8],
    net: u16,
    at: usize,
    cheapest: Option<Cheapest>,
) -> Option<Joined>
    requires { (Told (tech_by prices.now.tech) (seen_by prices.now.tech seen.now) spots.old work.now cheapest)
        × (vertices (grid_of prices.now.tech.grid) ≤ length map.old) × (at < 2 ^ 39) }
    ensures { Written (tech_by prices.now.tech) (seen_by prices.now.tech seen.now) net at (record { spots = spots.old; codes = map.old }) plan.old result
        (join_by_spots (tech_by prices.now.tech) (seen_by prices.now.tech seen.now) spots.old) spots.new map.new plan.new }
{
    let Some(found) = cheapest else {
        put_none(plan, at);
        return None;
    };
    let start = found.start;
    let count = count_moves(prices, seen, spots, work, start);
    put_start(plan, prices.tech.grid, at, start, count);
    let route = Route { start, count };
    let walk = write_moves(prices, seen, spots, map, work, plan, net, at + 40, route);
    put_cost(plan, at + 40 + 2 * count, found.cost as usize);
    Some(Joined {
        walk,
        next: at + 2 * count + 80,
    })
}
