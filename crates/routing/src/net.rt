// Routing one net.
ghost use Rattle.std.specs.Prelude.{◌≡◌, ℕ, ◌<◌, ◌≤◌, ◌+◌, ◌*◌, length, take, replicate};
ghost use Rattle.job.specs.Lists.{All};
ghost use Rattle.job.specs.Grid.{vertices};
ghost use Rattle.job.specs.Job.{Job};
ghost use Rattle.job.specs.Structs.{grid_of};
ghost use Rattle.rules.specs.Standings.{Standing};
ghost use Rattle.rules.specs.Routings.{route_net};
ghost use Rattle.rules.specs.Structs.{tech_by, seen_by};
ghost use Rattle.tree.specs.Spots.{Pins, begun_spots};
ghost use Rattle.walker.specs.Structs.{totals_of, Bounded};
ghost use Rattle.bounds.specs.Fills.{Among};
ghost use Rattle.search.specs.Charts.{Blank};
ghost use Rattle.routing.specs.Structs.{NetHere, IsRouted};

use crate::routed::Routed;
use joins::join::Joined;
use joins::next::next_join;
use rules::price::Prices;
use tree::{begin_tree, some_unjoined};
use walker::NetAtHand;

// Joins until every pin is joined, or a record that says none.
pub fn route_records(
    prices: &Prices,
    seen: &[u8; 16384],
    spots: &mut [u8; 16384],
    map: &mut [u16],
    work: &mut [u64],
    plan: &mut [u8],
    hand: NetAtHand,
    pins: &[usize; 16],
    before: Routed,
) -> Routed
    requires { (Blank (tech_by prices.now.tech) work.old) × (vertices (grid_of prices.now.tech.grid) ≤ length map.old)
        × (Among (grid_of prices.now.tech.grid) spots.old pins.now hand.pins) × (hand.number < 256)
        × (Bounded (16 * hand.number) before.totals before.bits) }
    ensures answer { (j : Job) (k : ℕ) (s : Standing)
        → NetHere j k s prices.now.tech (seen_by prices.now.tech seen.now) hand.number (take hand.pins pins.now) (record { spots = spots.old; codes = map.old })
        → IsRouted j (route_net j k hand.pins s (totals_of before.totals)) before.bits result plan.old plan.new map.old map.new }
    ensures fits { Bounded (16 * hand.number + 16) result.totals result.bits }
    ensures work { work.new ≡ work.old }
{
    let mut totals = before.totals;
    let mut bits = before.bits;
    for _turn in 0..hand.pins {
        if !some_unjoined(spots, pins, hand.pins) {
            return Routed {
                totals: totals.with_net(),
                bits,
            };
        }
        let joined = next_join(prices, seen, spots, map, work, plan, hand, pins, bits);
        let Some(Joined { walk, next }) = joined else {
            return Routed {
                totals,
                bits: bits + 1,
            };
        };
        totals = totals.with_join(walk.cost, walk.added, walk.penalties);
        bits = next;
    }
    Routed {
        totals: totals.with_net(),
        bits,
    }
}

// A net's tree starts as its first pin.
pub fn route_net(
    prices: &Prices,
    seen: &[u8; 16384],
    map: &mut [u16],
    work: &mut [u64],
    plan: &mut [u8],
    hand: NetAtHand,
    pins: &[usize; 16],
    before: Routed,
) -> Routed
    requires { (Blank (tech_by prices.now.tech) work.old) × (vertices (grid_of prices.now.tech.grid) ≤ length map.old)
        × (Pins pins.now hand.pins) × (hand.number < 256) × (Bounded (16 * hand.number) before.totals before.bits)
        × (All (λ v. v < vertices (grid_of prices.now.tech.grid)) (take hand.pins pins.now)) }
    ensures answer { (j : Job) (k : ℕ) (s : Standing)
        → NetHere j k s prices.now.tech (seen_by prices.now.tech seen.now) hand.number (take hand.pins pins.now)
        (record { spots = begun_spots (take hand.pins pins.now) (replicate 16384 0); codes = map.old })
        → IsRouted j (route_net j k hand.pins s (totals_of before.totals)) before.bits result plan.old plan.new map.old map.new }
    ensures fits { Bounded (16 * hand.number + 16) result.totals result.bits }
    ensures work { work.new ≡ work.old }
{
    let mut spots = [0u8; 16384];
    begin_tree(&mut spots, pins, hand.pins);
    route_records(
        prices, seen, &mut spots, map, work, plan, hand, pins, before,
    )
}
