// Reading a join, after its flag.
ghost use Rattle.std.specs.Prelude.{◌≡◌, ◌<◌, ◌≤◌, ◌^◌, ◌+◌, ◌*◌, length};
ghost use Rattle.bits.specs.Bits.{bits_of};
ghost use Rattle.job.specs.Grid.{vertices};
ghost use Rattle.job.specs.Structs.{grid_of};
ghost use Rattle.rules.specs.Structs.{tech_by, seen_by};
ghost use Rattle.counts.specs.Structs.{CountsFit};
ghost use Rattle.walker.specs.Entering.{Gone};
ghost use Rattle.replay.specs.Following.{Came, arrays_of, cost_from, join_from};
ghost use Rattle.replay.specs.Structs.{IsMoves, MovesFit, IsJoin, JoinFits, CountedJoin};

use crate::moves::read_moves;
use crate::start::{read_cost, read_start};
use job::refusal::Refused;
use rules::price::Prices;
use walker::Walk;

// The walk of a join, and the bit after it.
#[derive(Clone, Copy)]
pub struct Joined {
    pub walk: Walk,
    pub next: usize,
}

// The cost after moves that were read.
pub fn end_join(plan: &[u8], at: usize, moves: Result<Walk, Refused>) -> Result<Joined, Refused>
    requires { (at < 2 ^ 39) × (MovesFit moves) }
    ensures answer { (x : Came Gone) → IsMoves moves x → IsJoin result (cost_from (bits_of plan.now) at x) }
    ensures fits { JoinFits (at + 40) result }
{
    let walk = moves?;
    let next = read_cost(plan, at, walk.cost)?;
    Ok(Joined { walk, next })
}

pub fn read_join(
    prices: &Prices,
    seen: &[u8; 16384],
    spots: &mut [u8; 16384],
    map: &mut [u16],
    counts: &mut [usize; 48],
    plan: &[u8],
    net: u16,
    at: usize,
) -> Result<Joined, Refused>
    requires { (vertices (grid_of prices.now.tech.grid) ≤ length map.old)
        × (at < 2 ^ 37) × (CountsFit (2 ^ 22 * at) counts.old) }
    ensures answer { IsJoin result (join_from (bits_of plan.now) (tech_by prices.now.tech) (seen_by prices.now.tech seen.now) net at
        (record { spots = spots.old; codes = map.old })) }
    ensures fits { JoinFits (at + 2 ^ 22) result }
    ensures spots { spots.new ≡ (arrays_of (join_from (bits_of plan.now) (tech_by prices.now.tech)
        (seen_by prices.now.tech seen.now) net at (record { spots = spots.old; codes = map.old }))).spots }
    ensures map { map.new ≡ (arrays_of (join_from (bits_of plan.now) (tech_by prices.now.tech)
        (seen_by prices.now.tech seen.now) net at (record { spots = spots.old; codes = map.old }))).codes }
    ensures counts { CountedJoin (bits_of plan.now) (tech_by prices.now.tech) (seen_by prices.now.tech seen.now) at
        (join_from (bits_of plan.now) (tech_by prices.now.tech) (seen_by prices.now.tech seen.now) net at
        (record { spots = spots.old; codes = map.old })) counts.old counts.new }
{
    let start = read_start(plan, prices.tech.grid, spots, at)?;
    let moves = read_moves(
        prices,
        seen,
        spots,
        map,
        counts,
        plan,
        net,
        start.moves,
        at + 39,
        start.vertex,
    );
    end_join(plan, at + 39 + 2 * start.moves, moves)
}
