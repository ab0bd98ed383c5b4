// The next record of the net at hand: the cheapest join in what stands, found, written into the plan and
// walked.
ghost use Rattle.std.specs.Prelude.{◌≡◌, Some, List, ℕ, ◌+◌, ◌<◌, ◌≤◌, ◌^◌, length, get_or};
ghost use Rattle.job.specs.Grid.{vertices};
ghost use Rattle.job.specs.Structs.{grid_of};
ghost use Rattle.rules.specs.Apart.{Apart};
ghost use Rattle.rules.specs.Joins.{places, join_of};
ghost use Rattle.rules.specs.Structs.{tech_by, seen_by};
ghost use Rattle.metal.specs.Codes.{Beyond};
ghost use Rattle.tree.specs.Spots.{Spots};
ghost use Rattle.bounds.specs.Bounds.{Bounding};
ghost use Rattle.bounds.specs.Fills.{Among};
ghost use Rattle.search.specs.Charts.{Blank};
ghost use Rattle.search.specs.Fronts.{no_goal, best_of};
ghost use Rattle.search.specs.Lists.{Laid};
ghost use Rattle.search.specs.Spreads.{Ended};
ghost use Rattle.joins.specs.Traces.{Told};
ghost use Rattle.joins.specs.Joined.{JoinedFits, Written};

use crate::join::{Cheapest, Joined, write_join};
use bounds::bound::Bounds;
use bounds::fill::fill_bounds;
use rules::price::Prices;
use search::clear::clear;
use search::retrace::retrace;
use search::settle::{Found, settle};
use walker::NetAtHand;

// The join that a search found, by the leads in the work slice.
fn retrace_found(
    prices: &Prices,
    seen: &[u8; 16384],
    spots: &[u8; 16384],
    bounds: &Bounds,
    near: &mut [u8; 16384],
    work: &mut [u64],
    found: Found,
) -> Option<Cheapest>
    requires { (Ended (tech_by prices.now.tech) (seen_by prices.now.tech seen.now) spots.now bounds.now.entries near.old work.old found.size found.settled (best_of found.best))
        × ((cost : ℕ) → found.best ≡ Some cost → cost < no_goal) × (Bounding (tech_by prices.now.tech) spots.now bounds.now.entries) }
    ensures told { Told (tech_by prices.now.tech) (seen_by prices.now.tech seen.now) spots.now work.new result }
    ensures laid { (last : ℕ) × Laid (places (tech_by prices.now.tech)) found.size found.settled last work.new }
    ensures kept { Beyond (places (tech_by prices.now.tech) + places (tech_by prices.now.tech)) work.new work.old }
{
    let cost = found.best?;
    let settled = found.settled;
    let start = retrace(prices, seen, spots, bounds, near, work, settled, cost);
    Some(Cheapest { start, cost })
}

// The needed part of the work slice is lent zero, and left so.
pub fn next_join(
    prices: &Prices,
    seen: &[u8; 16384],
    spots: &mut [u8; 16384],
    map: &mut [u16],
    work: &mut [u64],
    plan: &mut [u8],
    hand: NetAtHand,
    pins: &[usize; 16],
    at: usize,
) -> Option<Joined>
    requires { (Blank (tech_by prices.now.tech) work.old) × (vertices (grid_of prices.now.tech.grid) ≤ length map.old)
        × (at < 2 ^ 39) × (Among (grid_of prices.now.tech.grid) spots.old pins.now hand.pins) }
    ensures written { (tree unjoined : List ℕ) → Spots (grid_of prices.now.tech.grid) tree unjoined spots.old → Apart (tech_by prices.now.tech) tree unjoined
        → Written (tech_by prices.now.tech) (seen_by prices.now.tech seen.now) hand.number at (record { spots = spots.old; codes = map.old }) plan.old result
        (join_of (tech_by prices.now.tech) (seen_by prices.now.tech seen.now) tree unjoined) spots.new map.new plan.new }
    ensures fits { JoinedFits (at + 2 ^ 22) result }
    ensures fewer { (v : ℕ) → get_or spots.new v 0 ≡ 2 → get_or spots.old v 0 ≡ 2 }
    ensures work { work.new ≡ work.old }
{
    let mut near = [0u8; 16384];
    let mut bounds = Bounds { entries: [0; 528] };
    fill_bounds(&mut bounds, prices, spots, pins, hand.pins);
    let found = settle(prices, seen, spots, &bounds, &mut near, work);
    let cheapest = retrace_found(prices, seen, spots, &bounds, &mut near, work, found);
    let joined = write_join(
        prices,
        seen,
        spots,
        map,
        work,
        plan,
        hand.number,
        at,
        cheapest,
    );
    let n = prices.places();
    clear(work, n, found.size, found.settled);
    joined
}
