// Replay: the map and the totals of a plan, or its refusal.
ghost use Rattle.std.specs.Prelude.{◌≡◌, ◌↔◌};
ghost use Rattle.router.specs.Replay.{replay_of, Accepts};
ghost use Rattle.counts.specs.Structs.{CountsFit};
ghost use Rattle.router.specs.Held.{replay_answer, replay_leaves, CountsHeld};

use crate::held::{hold_job, room_for};
use job::refusal::Refused;
use metal::zeros::zero_words;
use replay::whole::replay_plan;
use rules::totals::Totals;

// For C: a refusal is its number, 0 for none, and on one every other number but its place is 0.
#[repr(C)]
#[derive(Clone, Copy)]
pub struct ReplayResult {
    pub refusal: usize,
    pub place: usize,
    pub cost: usize,
    pub added: usize,
    pub penalties: usize,
    pub joined: usize,
}

impl From<Result<Totals, Refused>> for ReplayResult {
    ghost from_gives = { λ totals answer. answer ≡ replay_answer totals };

    fn from(totals: Result<Totals, Refused>) -> ReplayResult {
        match totals {
            Ok(totals) => ReplayResult {
                refusal: 0,
                place: 0,
                cost: totals.cost,
                added: totals.added,
                penalties: totals.penalties,
                joined: totals.joined,
            },
            Err(refused) => ReplayResult {
                refusal: refused.refusal.number(),
                place: refused.place,
                cost: 0,
                added: 0,
                penalties: 0,
                joined: 0,
            },
        }
    }
}

// The job is read and the slices are tested; then the plan is read, and its moves are counted.
pub(crate) fn replay_counted(
    bytes: &[u8],
    plan: &[u8],
    map: &mut [u16],
    work: &mut [u64],
    counts: &mut [usize; 48],
) -> Result<Totals, Refused>
    requires { CountsFit 0 counts.old }
    ensures outcome { replay_leaves (replay_answer result) map.new work.new
        ≡ replay_of bytes.now plan.now map.old work.old }
    ensures counts { CountsHeld bytes.now plan.now map.old work.old counts.old counts.new }
{
    let mut occupants = [0; 16384];
    let held = hold_job(bytes, &mut occupants)?;
    room_for(held.vertices, held.work, map, work)?;
    zero_words(work, held.work);
    let tech = held.tech;
    replay_plan(
        bytes, tech, &occupants, map, counts, plan, held.nets, held.from,
    )
}

// The counts are the report's: replay drops them.
pub fn maizespell_replay(
    bytes: &[u8],
    plan: &[u8],
    map: &mut [u16],
    work: &mut [u64],
) -> ReplayResult
    ensures result { result ≡ (replay_of bytes.now plan.now map.old work.old).result }
    ensures map { map.new ≡ (replay_of bytes.now plan.now map.old work.old).map }
    ensures work { work.new ≡ (replay_of bytes.now plan.now map.old work.old).work }
    ensures accepts { (result.refusal ≡ 0) ↔ Accepts bytes.now plan.now map.old work.old }
{
    let mut counts: [usize; 48] = [0; 48];
    ReplayResult::from(replay_counted(bytes, plan, map, work, &mut counts))
}
