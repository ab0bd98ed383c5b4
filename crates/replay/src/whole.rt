// Reading a whole plan.
ghost use Rattle.std.specs.Prelude.{◌≡◌, ◌≤◌, length};
ghost use Rattle.bits.specs.Bits.{bits_of};
ghost use Rattle.job.specs.Job.{Job};
ghost use Rattle.job.specs.Reading.{good, read_job};
ghost use Rattle.plan.specs.Reading.{read_plan};
ghost use Rattle.counts.specs.Structs.{CountsFit};
ghost use Rattle.walker.specs.Structs.{PlanHeld};
ghost use Rattle.replay.specs.Structs.{NetFits, IsEnded, both_ended, IsReplayed, CountedPlan, finished_map};
ghost use Rattle.plan.specs.Leaving.{replayed_map};

use crate::net::Ended;
use crate::nets::read_nets;
use crate::tail::zero_tail;
use job::refusal::{Refusal, Refused};
use metal::codes::put_obstacles;
use metal::pins::lay_all_pins;
use metal::zeros::zero_codes;
use rules::price::Tech;
use rules::totals::Totals;

// The tail after the last net. A refusal of a net, whichever, is handed on.
pub fn end_plan<E: Copy>(plan: &[u8], read: Result<Ended, E>) -> Result<Result<Totals, Refused>, E>
    requires { NetFits 4112 read }
    ensures { IsEnded (bits_of plan.now) read result }
{
    let ended = match read {
        Ok(ended) => ended,
        Err(refusal) => return Err(refusal),
    };
    if !zero_tail(plan, ended.next) {
        return Ok(Err(Refusal::PlanCut.at(ended.next)));
    }
    Ok(Ok(ended.totals))
}

// The totals, or the refusal of a net or of the tail.
fn totals_of_both(ended: Result<Result<Totals, Refused>, Refused>) -> Result<Totals, Refused>
    ensures { result ≡ both_ended ended }
{
    match ended {
        Ok(totals) => totals,
        Err(refused) => Err(refused),
    }
}

// Obstacles are put into the map of a good plan; after a refusal, whichever, it is zero.
pub fn finish_map<E: Copy>(
    map: &mut [u16],
    occupants: &[u8; 16384],
    count: usize,
    replayed: Result<Totals, E>,
)
    requires { (count ≤ 16384) × (count ≤ length map.old) }
    ensures { map.new ≡ finished_map occupants.now count replayed map.old }
{
    match replayed {
        Ok(_) => put_obstacles(map, occupants, count),
        Err(_) => zero_codes(map, count),
    }
}

// The totals and the map of a plan, or its refusal.
pub fn replay_plan(
    s: &[u8],
    tech: Tech,
    occupants: &[u8; 16384],
    map: &mut [u16],
    counts: &mut [usize; 48],
    plan: &[u8],
    nets: usize,
    from: usize,
) -> Result<Totals, Refused>
    requires { (PlanHeld s.now tech occupants.now map.old nets from) × (CountsFit 0 counts.old) }
    ensures answer { (j : Job) → read_job s.now ≡ good j → IsReplayed result (read_plan j plan.now) }
    ensures map { (j : Job) → read_job s.now ≡ good j → map.new ≡ replayed_map j (read_plan j plan.now) map.old }
    ensures counts { (j : Job) → read_job s.now ≡ good j
        → CountedPlan j (read_plan j plan.now) counts.old counts.new }
{
    let count = tech.grid.vertices();
    zero_codes(map, count);
    lay_all_pins(s, tech.grid, nets, from, map);
    let read = read_nets(s, tech, occupants, map, counts, plan, nets, from);
    let replayed = totals_of_both(end_plan(plan, read));
    finish_map(map, occupants, count, replayed);
    replayed
}
