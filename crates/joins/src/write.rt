// The route of the join that a search found, written into the plan and walked: what it enters becomes metal
// and tree.
ghost use Rattle.std.specs.Prelude.{◌≡◌, List, ℕ, ◌<◌, ◌≤◌, ◌^◌, length};
ghost use Rattle.bits.specs.Bits.{field_bits};
ghost use Rattle.bits.specs.Puts.{put_bits};
ghost use Rattle.job.specs.Grid.{vertices};
ghost use mathlib.Core.List.{flat_map};
ghost use Rattle.job.specs.Structs.{grid_of};
ghost use Rattle.rules.specs.Structs.{tech_by, seen_by};
ghost use Rattle.walker.specs.Entering.{gone_at, enter_all, left_in};
ghost use Rattle.walker.specs.Structs.{WalkFits, IsEntered};
ghost use Rattle.search.specs.Charts.{Charted, lowest_led};
ghost use Rattle.joins.specs.Traces.{route_by};

use crate::led::led_move;
use bits::Cursor;
use rules::price::Prices;
use walker::{Walk, enter_move, walk_from, walk_on};

// Where a route starts, and how many moves it has.
#[derive(Clone, Copy)]
pub struct Route {
    pub start: usize,
    pub count: usize,
}

pub fn write_moves(
    prices: &Prices,
    seen: &[u8; 16384],
    spots: &mut [u8; 16384],
    map: &mut [u16],
    work: &[u64],
    plan: &mut [u8],
    net: u16,
    from: usize,
    route: Route,
) -> Walk
    requires { ((bounds : List ℕ) × (best : ℕ) × (Charted (tech_by prices.now.tech) (seen_by prices.now.tech seen.now) spots.old bounds work.now best))
        × (route.start ≡ lowest_led (tech_by prices.now.tech) (seen_by prices.now.tech seen.now) spots.old work.now)
        × (vertices (grid_of prices.now.tech.grid) ≤ length map.old) × (from < 2 ^ 40) × (route.count < 2 ^ 20)
        × (route.count ≡ length (route_by (tech_by prices.now.tech) (seen_by prices.now.tech seen.now) spots.old route.start)) }
    ensures walk { IsEntered result (enter_all (tech_by prices.now.tech) (seen_by prices.now.tech seen.now) net
        (route_by (tech_by prices.now.tech) (seen_by prices.now.tech seen.now) spots.old route.start) (gone_at route.start) (record { spots = spots.old; codes = map.old })) }
    ensures fits { WalkFits result }
    ensures spots { spots.new ≡ (left_in (record { spots = spots.old; codes = map.old })
        (enter_all (tech_by prices.now.tech) (seen_by prices.now.tech seen.now) net
        (route_by (tech_by prices.now.tech) (seen_by prices.now.tech seen.now) spots.old route.start) (gone_at route.start) (record { spots = spots.old; codes = map.old }))).spots }
    ensures map { map.new ≡ (left_in (record { spots = spots.old; codes = map.old })
        (enter_all (tech_by prices.now.tech) (seen_by prices.now.tech seen.now) net
        (route_by (tech_by prices.now.tech) (seen_by prices.now.tech seen.now) spots.old route.start) (gone_at route.start) (record { spots = spots.old; codes = map.old }))).codes }
    ensures plan { plan.new ≡ put_bits plan.old from (flat_map (field_bits 2)
        (route_by (tech_by prices.now.tech) (seen_by prices.now.tech seen.now) spots.old route.start)) }
{
    let mut walk = walk_from(route.start);
    let mut cursor = Cursor { at: from };
    for _turn in 0..route.count {
        let place = walk.place;
        let led = led_move(prices, seen, work, place);
        cursor = cursor.put(plan, 2, led.number);
        enter_move(map, spots, prices.tech.grid, place, led.made, net);
        walk = walk_on(walk, led.made);
    }
    walk
}
