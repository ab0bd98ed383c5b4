// Reading the records of a net.
ghost use Rattle.std.specs.Prelude.{◌≡◌, ◌<◌, ◌≤◌, ◌^◌, ◌+◌, ◌*◌, length, take};
ghost use Rattle.bits.specs.Bits.{bits_of};
ghost use Rattle.job.specs.Grid.{vertices};
ghost use Rattle.job.specs.Structs.{grid_of};
ghost use Rattle.rules.specs.Structs.{tech_by, seen_by};
ghost use Rattle.counts.specs.Structs.{CountsFit};
ghost use Rattle.job.specs.Refusals.{read_of};
ghost use Rattle.tree.specs.Spots.{Pins};
ghost use Rattle.walker.specs.Structs.{totals_of, Bounded};
ghost use Rattle.replay.specs.Following.{arrays_of, net_from};
ghost use Rattle.replay.specs.Structs.{flag_of, IsNet, CountedNet, NetFits};

use crate::join::read_join;
use bits::Cursor;
use job::refusal::{Refusal, Refused};
use rules::price::Prices;
use rules::totals::Totals;
use tree::some_unjoined;
use walker::NetAtHand;

// The totals after a net's records, and the next bit.
#[derive(Clone, Copy)]
pub struct Ended {
    pub totals: Totals,
    pub next: usize,
}

// The bit before a record: whether a join follows.
pub fn read_flag(plan: &[u8], at: usize) -> Result<bool, Refused>
    requires { at < 2 ^ 40 }
    ensures { read_of result ≡ flag_of (bits_of plan.now) at }
{
    let start = Cursor { at };
    if !start.whole(plan, 1) {
        return Err(Refusal::PlanCut.at(at));
    }
    let flag = start.field(plan, 1);
    Ok(flag.value != 0)
}

// Joins until every pin is joined, or a record that says none.
pub fn read_records(
    prices: &Prices,
    seen: &[u8; 16384],
    spots: &mut [u8; 16384],
    map: &mut [u16],
    counts: &mut [usize; 48],
    plan: &[u8],
    hand: NetAtHand,
    pins: &[usize; 16],
    from: usize,
    before: Totals,
) -> Result<Ended, Refused>
    requires { (vertices (grid_of prices.now.tech.grid) ≤ length map.old)
        × (Pins pins.now hand.pins) × (hand.number < 256) × (Bounded (16 * hand.number) before from)
        × (CountsFit (2 ^ 22 * from) counts.old) }
    ensures answer { IsNet result (net_from (bits_of plan.now) (tech_by prices.now.tech) (seen_by prices.now.tech seen.now) hand.number
        (take hand.pins pins.now) hand.pins from (totals_of before) counts.old
        (record { spots = spots.old; codes = map.old })) }
    ensures fits { NetFits (16 * hand.number + 16) result }
    ensures map { map.new ≡ (arrays_of (net_from (bits_of plan.now) (tech_by prices.now.tech)
        (seen_by prices.now.tech seen.now) hand.number (take hand.pins pins.now) hand.pins from (totals_of before) counts.old
        (record { spots = spots.old; codes = map.old }))).codes }
    ensures counts { CountedNet (net_from (bits_of plan.now) (tech_by prices.now.tech)
        (seen_by prices.now.tech seen.now) hand.number (take hand.pins pins.now) hand.pins from (totals_of before) counts.old
        (record { spots = spots.old; codes = map.old })) counts.new }
{
    let mut totals = before;
    let mut at = from;
    for _record in 0..hand.pins {
        if !some_unjoined(spots, pins, hand.pins) {
            return Ok(Ended {
                totals: totals.with_net(),
                next: at,
            });
        }
        let more = read_flag(plan, at)?;
        if !more {
            return Ok(Ended {
                totals,
                next: at + 1,
            });
        }
        let joined = read_join(prices, seen, spots, map, counts, plan, hand.number, at + 1)?;
        let walk = joined.walk;
        totals = totals.with_join(walk.cost, walk.added, walk.penalties);
        at = joined.next;
    }
    Ok(Ended {
        totals: totals.with_net(),
        next: at,
    })
}
