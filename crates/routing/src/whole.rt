// Routing a whole job.
ghost use Rattle.std.specs.Prelude.{◌≡◌, ◌++◌, ◌≤◌, ◌*◌, ◌^◌, length, drop};
ghost use Rattle.bits.specs.Puts.{put_bits};
ghost use Rattle.job.specs.Grid.{vertices};
ghost use Rattle.job.specs.Job.{Job};
ghost use Rattle.job.specs.Reading.{good, read_job};
ghost use Rattle.rules.specs.Routings.{routing};
ghost use Rattle.rules.specs.Maps.{map_of};
ghost use Rattle.rules.specs.Structs.{tech_by};
ghost use Rattle.walker.specs.Structs.{totals_of, PlanHeld};
ghost use Rattle.search.specs.Charts.{Blank};
ghost use Rattle.routing.specs.Plans.{plan_bits};

use crate::nets::route_nets;
use crate::routed::Routed;
use metal::codes::put_obstacles;
use metal::pins::lay_all_pins;
use metal::zeros::zero_codes;
use rules::price::Tech;

// The plan, the map and the totals of a job. Bits that the plan has no room for are put nowhere.
pub fn route_plan(
    s: &[u8],
    tech: Tech,
    occupants: &[u8; 16384],
    map: &mut [u16],
    work: &mut [u64],
    plan: &mut [u8],
    nets: usize,
    from: usize,
) -> Routed
    requires { (PlanHeld s.now tech occupants.now map.old nets from) × (Blank (tech_by tech) work.old) }
    ensures answer { (j : Job) → read_job s.now ≡ good j → (totals_of result.totals ≡ (routing j).totals) × (result.bits ≡ length (plan_bits j)) }
    ensures fits { result.bits ≤ 2 ^ 23 * 4112 }
    ensures map { (j : Job) → read_job s.now ≡ good j
        → map.new ≡ map_of j (routing j).metal ++ drop (vertices j.grid) map.old }
    ensures plan { (j : Job) → read_job s.now ≡ good j → plan.new ≡ put_bits plan.old 0 (plan_bits j) }
    ensures work { work.new ≡ work.old }
{
    let count = tech.grid.vertices();
    zero_codes(map, count);
    lay_all_pins(s, tech.grid, nets, from, map);
    let routed = route_nets(s, tech, occupants, map, work, plan, nets, from);
    put_obstacles(map, occupants, count);
    routed
}
