// Routing net by net.
ghost use Rattle.std.specs.Prelude.{◌≡◌};
ghost use Rattle.job.specs.Job.{Job};
ghost use Rattle.job.specs.Reading.{good, read_job};
ghost use Rattle.rules.specs.Routings.{routing};
ghost use Rattle.rules.specs.Structs.{tech_by};
ghost use Rattle.walker.specs.Structs.{Bounded, NetsHeld};
ghost use Rattle.search.specs.Charts.{Blank};
ghost use Rattle.routing.specs.Structs.{IsRouted};

use crate::net::route_net;
use crate::routed::Routed;
use reader::load::load_net;
use rules::list::prices_of;
use rules::price::Tech;
use views::sight::see_net;
use walker::NetAtHand;

// All nets, in job order.
pub fn route_nets(
    s: &[u8],
    tech: Tech,
    occupants: &[u8; 16384],
    map: &mut [u16],
    work: &mut [u64],
    plan: &mut [u8],
    nets: usize,
    from: usize,
) -> Routed
    requires { (NetsHeld s.now tech occupants.now map.old nets from) × (Blank (tech_by tech) work.old) }
    ensures answer { (j : Job) → read_job s.now ≡ good j
        → IsRouted j (routing j) 0 result plan.old plan.new map.old map.new }
    ensures fits { Bounded 4112 result.totals result.bits }
    ensures work { work.new ≡ work.old }
{
    let mut seen = [0u8; 16384];
    let mut pins: [usize; 16] = [0; 16];
    let mut boxes: [u8; 90] = [0; 90];
    let mut position = from;
    let mut routed = Routed::default();
    let prices = prices_of(tech);
    for index in 0..nets {
        let loaded = load_net(s, tech.grid, position, &mut pins, &mut boxes);
        let net = index as u16 + 1;
        see_net(
            &mut seen,
            occupants,
            map,
            tech.grid,
            &pins,
            loaded.pins,
            &boxes,
            loaded.boxes,
            net,
        );
        let hand = NetAtHand {
            number: net,
            pins: loaded.pins,
        };
        routed = route_net(&prices, &seen, map, work, plan, hand, &pins, routed);
        position = loaded.next;
    }
    routed
}
