// The search: places are settled in the order of their cost with what is left at least, until no open one is
// below the cheapest goal found.
ghost use Rattle.std.specs.Prelude.{◌≡◌, List, ℕ, Some, ◌≤◌, ◌+◌, ◌-◌, ◌<◌, length, set};
ghost use Rattle.heap.specs.Heaps.{Heaped, Removed};
ghost use Rattle.metal.specs.Codes.{Beyond};
ghost use Rattle.rules.specs.Joins.{places};
ghost use Rattle.rules.specs.Structs.{tech_by, seen_by};
ghost use Rattle.bounds.specs.Bounds.{Bounding};
ghost use Rattle.search.specs.Fronts.{no_goal, best_of};
ghost use Rattle.search.specs.Spreads.{Ended};
ghost use Rattle.search.specs.Charts.{Blank};

use crate::reach::{Front, reach_all};
use crate::seed::seed;
use bounds::bound::Bounds;
use heap::cells::key_at;
use heap::remove_least;
use rules::price::Prices;

// The cost of no goal.
pub const NONE: u64 = 1099511627775;

// The heap's size, how many places are settled, and the cost of the cheapest goal, where one is found.
#[derive(Clone, Copy)]
pub struct Found {
    pub size: usize,
    pub settled: usize,
    pub best: Option<u64>,
}

// The cost of the cheapest goal, where one is found.
fn cheapest(best: u64) -> Option<u64>
    requires { best ≤ no_goal }
    ensures is { best_of result ≡ best }
    ensures below { (cost : ℕ) → result ≡ Some cost → cost < no_goal }
{
    if best < NONE { Some(best) } else { None }
}

// Takes the open place with the least cost into the list.
fn settle_next(work: &mut [u64], n: usize, size: usize, settled: usize) -> usize
    requires { (Heaped n size work.old) × (0 < size) × (settled < n) }
    ensures { (mid : List ℕ) × (Removed n size result work.old mid) × (work.new ≡ set mid (n + n - 1 - settled) result) }
{
    let item = remove_least(work, n, size);
    work[n + n - 1 - settled] = item as u64;
    item
}

// The needed part of the slice is lent zero.
pub fn settle(
    prices: &Prices,
    seen: &[u8; 16384],
    spots: &[u8; 16384],
    bounds: &Bounds,
    near: &mut [u8; 16384],
    work: &mut [u64],
) -> Found
    requires { (Blank (tech_by prices.now.tech) work.old) × (length near.old ≡ 16384) × (Bounding (tech_by prices.now.tech) spots.now bounds.now.entries) }
    ensures found { Ended (tech_by prices.now.tech) (seen_by prices.now.tech seen.now) spots.now bounds.now.entries near.new work.new
        result.size result.settled (best_of result.best) }
    ensures below { (cost : ℕ) → result.best ≡ Some cost → cost < no_goal }
    ensures kept { Beyond (places (tech_by prices.now.tech) + places (tech_by prices.now.tech)) work.new work.old }
{
    let n = prices.places();
    let mut front = Front {
        size: seed(prices, spots, bounds, work),
        best: NONE,
    };
    let mut settled = 0;
    while 0 < front.size {
        let top = key_at(work, n, 0) - 1;
        let ended = 16 * front.best <= top;
        if ended {
            return Found {
                size: front.size,
                settled,
                best: cheapest(front.best),
            };
        }
        let item = settle_next(work, n, front.size, settled);
        settled += 1;
        let rest = Front {
            size: front.size - 1,
            best: front.best,
        };
        front = reach_all(prices, seen, spots, bounds, near, work, item, top, rest);
    }
    Found {
        size: front.size,
        settled,
        best: cheapest(front.best),
    }
}
