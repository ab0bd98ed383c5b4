// Reading a plan net by net.
ghost use Rattle.std.specs.Prelude.{◌≡◌, ◌<◌, ◌≤◌, ◌+◌, ◌*◌, ◌^◌, length, take, replicate};
ghost use Rattle.bits.specs.Bits.{bits_of};
ghost use Rattle.job.specs.Grid.{vertices};
ghost use Rattle.job.specs.Job.{Job};
ghost use Rattle.job.specs.Reading.{good, read_job};
ghost use Rattle.job.specs.Structs.{grid_of};
ghost use Rattle.rules.specs.Standings.{metal_at_first};
ghost use Rattle.rules.specs.Routings.{no_totals};
ghost use Rattle.rules.specs.Structs.{tech_by, seen_by};
ghost use Rattle.plan.specs.Reading.{read_nets};
ghost use Rattle.counts.specs.Structs.{CountsFit};
ghost use Rattle.metal.specs.Codes.{Beyond};
ghost use Rattle.tree.specs.Spots.{Pins, begun_spots};
ghost use Rattle.walker.specs.Structs.{totals_of, Bounded, NetsHeld};
ghost use Rattle.replay.specs.Following.{arrays_of, net_from};
ghost use Rattle.replay.specs.Structs.{IsNet, CountedNet, NetFits, IsNets, CountedNets};

use crate::net::{Ended, read_records};
use job::refusal::Refused;
use reader::load::load_net;
use rules::list::prices_of;
use rules::price::{Prices, Tech};
use rules::totals::Totals;
use tree::begin_tree;
use views::sight::see_net;
use walker::NetAtHand;

// A net's tree starts as its first pin.
pub fn read_net(
    prices: &Prices,
    seen: &[u8; 16384],
    map: &mut [u16],
    counts: &mut [usize; 48],
    plan: &[u8],
    hand: NetAtHand,
    pins: &[usize; 16],
    from: usize,
    before: Totals,
) -> Result<Ended, Refused>
    requires { (vertices (grid_of prices.now.tech.grid) ≤ length map.old)
        × (Pins pins.now hand.pins) × (hand.number < 256) × (Bounded (16 * hand.number) before from)
        × (CountsFit (2 ^ 22 * from) counts.old) }
    ensures answer { IsNet result (net_from (bits_of plan.now) (tech_by prices.now.tech) (seen_by prices.now.tech seen.now) hand.number
        (take hand.pins pins.now) hand.pins from (totals_of before) counts.old
        (record { spots = begun_spots (take hand.pins pins.now) (replicate 16384 0); codes = map.old })) }
    ensures fits { NetFits (16 * hand.number + 16) result }
    ensures map { map.new ≡ (arrays_of (net_from (bits_of plan.now) (tech_by prices.now.tech)
        (seen_by prices.now.tech seen.now) hand.number (take hand.pins pins.now) hand.pins from (totals_of before) counts.old
        (record { spots = begun_spots (take hand.pins pins.now) (replicate 16384 0); codes = map.old }))).codes }
    ensures counts { CountedNet (net_from (bits_of plan.now) (tech_by prices.now.tech)
        (seen_by prices.now.tech seen.now) hand.number (take hand.pins pins.now) hand.pins from (totals_of before) counts.old
        (record { spots = begun_spots (take hand.pins pins.now) (replicate 16384 0); codes = map.old })) counts.new }
{
    let mut spots = [0u8; 16384];
    begin_tree(&mut spots, pins, hand.pins);
    read_records(
        prices, seen, &mut spots, map, counts, plan, hand, pins, from, before,
    )
}

// All nets, in job order.
pub fn read_nets(
    s: &[u8],
    tech: Tech,
    occupants: &[u8; 16384],
    map: &mut [u16],
    counts: &mut [usize; 48],
    plan: &[u8],
    nets: usize,
    from: usize,
) -> Result<Ended, Refused>
    requires { (NetsHeld s.now tech occupants.now map.old nets from) × (CountsFit 0 counts.old) }
    ensures answer { (j : Job) → read_job s.now ≡ good j
        → IsNets (grid_of tech.grid) result (read_nets (bits_of plan.now) j 0 j.nets (metal_at_first j) no_totals 0) map.new }
    ensures fits { NetFits 4112 result }
    ensures kept { Beyond (vertices (grid_of tech.grid)) map.new map.old }
    ensures counts { (j : Job) → read_job s.now ≡ good j
        → CountedNets j (read_nets (bits_of plan.now) j 0 j.nets (metal_at_first j) no_totals 0) counts.old counts.new }
{
    let mut seen = [0u8; 16384];
    let mut pins: [usize; 16] = [0; 16];
    let mut boxes: [u8; 90] = [0; 90];
    let mut position = from;
    let mut at: usize = 0;
    let mut totals = Totals::default();
    let prices = prices_of(tech);
    for done in 0..nets {
        let loaded = load_net(s, tech.grid, position, &mut pins, &mut boxes);
        let net = (done + 1) as u16;
        see_net(
            &mut seen,
            occupants,
            map,
            tech.grid,
            &pins,
            loaded.pins,
            &boxes,
            loaded.boxes,
            net,
        );
        let hand = NetAtHand {
            number: net,
            pins: loaded.pins,
        };
        let ended = read_net(&prices, &seen, map, counts, plan, hand, &pins, at, totals)?;
        totals = ended.totals;
        at = ended.next;
        position = loaded.next;
    }
    Ok(Ended { totals, next: at })
}
