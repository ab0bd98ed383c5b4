// Routing: the plan, the map and the totals of a job, or its refusal.
ghost use Rattle.std.specs.Prelude.{◌≡◌, cond, ◌≤◌, length, take, ltb};
ghost use Rattle.job.specs.Job.{Job};
ghost use Rattle.job.specs.Reading.{good, read_job};
ghost use Rattle.plan.specs.Claim.{Cheapest, ByTies};
ghost use Rattle.job.specs.Slices.{zeroed};
ghost use Rattle.walker.specs.Structs.{totals_of};
ghost use Rattle.router.specs.Held.{routing_answer, routing_leaves};
ghost use Rattle.router.specs.Routing.{refused_routing, total_result, routing_of};

use crate::held::{hold_job, room_for};
use job::refusal::{Refusal, Refused};
use metal::zeros::{zero_bytes, zero_codes, zero_words};
use routing::whole::route_plan;
use rules::totals::Totals;

// For C: a refusal is its number, 0 for none, and on one every other number but its place is 0.
#[repr(C)]
#[derive(Clone, Copy)]
pub struct RoutingResult {
    pub refusal: usize,
    pub place: usize,
    pub bytes: usize,
    pub cost: usize,
    pub added: usize,
    pub penalties: usize,
    pub joined: usize,
}

// How many bytes a plan has, and what its joins come to.
#[derive(Clone, Copy)]
pub(crate) struct Planned {
    pub bytes: usize,
    pub totals: Totals,
}

impl From<Result<Planned, Refused>> for RoutingResult {
    ghost from_gives = { λ planned answer. answer ≡ routing_answer planned };

    fn from(planned: Result<Planned, Refused>) -> RoutingResult {
        match planned {
            Ok(planned) => RoutingResult {
                refusal: 0,
                place: 0,
                bytes: planned.bytes,
                cost: planned.totals.cost,
                added: planned.totals.added,
                penalties: planned.totals.penalties,
                joined: planned.totals.joined,
            },
            Err(refused) => RoutingResult {
                refusal: refused.refusal.number(),
                place: refused.place,
                bytes: 0,
                cost: 0,
                added: 0,
                penalties: 0,
                joined: 0,
            },
        }
    }
}

// After routing: a plan slice that is short is refused by 14, and it and the map's need are zero.
fn end_routing(
    map: &mut [u16],
    plan: &mut [u8],
    vertices: usize,
    planned: Planned,
) -> Result<Planned, Refused>
    requires { vertices ≤ length map.old }
    ensures result { routing_answer result ≡ cond (ltb (length plan.old) planned.bytes) (refused_routing 14 planned.bytes)
        (total_result planned.bytes (totals_of planned.totals)) }
    ensures map { map.new ≡ cond (ltb (length plan.old) planned.bytes) (zeroed vertices map.old) map.old }
    ensures plan { plan.new
        ≡ cond (ltb (length plan.old) planned.bytes) (zeroed (length plan.old) plan.old) plan.old }
{
    let room = plan.len();
    let need = planned.bytes;
    if room < need {
        zero_codes(map, vertices);
        zero_bytes(plan, room);
        return Err(Refusal::ShortPlan.at(planned.bytes));
    }
    Ok(planned)
}

// The job is read and the slices are tested; then it is routed, and then the plan slice is tested.
fn route_job(
    bytes: &[u8],
    map: &mut [u16],
    work: &mut [u64],
    plan: &mut [u8],
) -> Result<Planned, Refused>
    ensures { routing_leaves (routing_answer result) map.new work.new plan.new
        ≡ routing_of bytes.now map.old work.old plan.old }
{
    let mut occupants = [0; 16384];
    let held = hold_job(bytes, &mut occupants)?;
    room_for(held.vertices, held.work, map, work)?;
    zero_words(work, held.work);
    let tech = held.tech;
    let routed = route_plan(
        bytes, tech, &occupants, map, work, plan, held.nets, held.from,
    );
    let planned = Planned {
        bytes: (routed.bits + 7) / 8,
        totals: routed.totals,
    };
    end_routing(map, plan, held.vertices, planned)
}

pub fn maizespell_routing(
    bytes: &[u8],
    map: &mut [u16],
    work: &mut [u64],
    plan: &mut [u8],
) -> RoutingResult
    ensures result { result ≡ (routing_of bytes.now map.old work.old plan.old).result }
    ensures map { map.new ≡ (routing_of bytes.now map.old work.old plan.old).map }
    ensures work { work.new ≡ (routing_of bytes.now map.old work.old plan.old).work }
    ensures plan { plan.new ≡ (routing_of bytes.now map.old work.old plan.old).plan }
    ensures cheapest { result.refusal ≡ 0
        → (j : Job) × (read_job bytes.now ≡ good j) × Cheapest j (take result.bytes plan.new) }
    ensures ties { result.refusal ≡ 0
        → (j : Job) × (read_job bytes.now ≡ good j) × ByTies j (take result.bytes plan.new) }
{
    RoutingResult::from(route_job(bytes, map, work, plan))
}
