// Reading the moves of a join: each is judged and counted, and what it leaves becomes metal and tree.
ghost use Rattle.std.specs.Prelude.{◌≡◌, ◌<◌, ◌≤◌, ◌+◌, ◌*◌, ◌^◌, length};
ghost use Rattle.bits.specs.Bits.{bits_of};
ghost use Rattle.job.specs.Grid.{vertices};
ghost use Rattle.job.specs.Structs.{grid_of};
ghost use Rattle.rules.specs.Structs.{tech_by, seen_by};
ghost use Rattle.counts.specs.Structs.{CountsFit};
ghost use Rattle.walker.specs.Entering.{gone_at};
ghost use Rattle.replay.specs.Following.{arrays_of, moves_from};
ghost use Rattle.replay.specs.Structs.{IsMoves, MovesFit, CountedMoves};

use crate::judge::judge_move;
use counts::moves::count_move;
use job::refusal::Refused;
use rules::price::Prices;
use rules::track::vertex_by;
use walker::{Walk, enter_move, walk_from, walk_on};

pub fn read_moves(
    prices: &Prices,
    seen: &[u8; 16384],
    spots: &mut [u8; 16384],
    map: &mut [u16],
    counts: &mut [usize; 48],
    plan: &[u8],
    net: u16,
    count: usize,
    from: usize,
    start: usize,
) -> Result<Walk, Refused>
    requires { (vertices (grid_of prices.now.tech.grid) ≤ length map.old)
        × (start < vertices (grid_of prices.now.tech.grid)) × (count < 2 ^ 20) × (from < 2 ^ 38) × (CountsFit (2 ^ 22 * from) counts.old) }
    ensures answer { IsMoves result (moves_from (bits_of plan.now) (tech_by prices.now.tech) (seen_by prices.now.tech seen.now) net count from
        (gone_at start) (record { spots = spots.old; codes = map.old })) }
    ensures fits { MovesFit result }
    ensures spots { spots.new ≡ (arrays_of (moves_from (bits_of plan.now) (tech_by prices.now.tech)
        (seen_by prices.now.tech seen.now) net count from (gone_at start)
        (record { spots = spots.old; codes = map.old }))).spots }
    ensures map { map.new ≡ (arrays_of (moves_from (bits_of plan.now) (tech_by prices.now.tech)
        (seen_by prices.now.tech seen.now) net count from (gone_at start)
        (record { spots = spots.old; codes = map.old }))).codes }
    ensures counts { CountedMoves (grid_of prices.now.tech.grid) (seen_by prices.now.tech seen.now) start
        (moves_from (bits_of plan.now) (tech_by prices.now.tech) (seen_by prices.now.tech seen.now) net count from (gone_at start)
        (record { spots = spots.old; codes = map.old })) (from + 2 * count) counts.old counts.new }
{
    let mut walk = walk_from(start);
    let mut at = from;
    let first = vertex_by(prices.tech.grid, start);
    let mut layer = first.layer;
    for after in (0..count).rev() {
        let place = walk.place;
        let made = judge_move(prices, seen, spots, plan, after == 0, at, place)?;
        enter_move(map, spots, prices.tech.grid, place, made, net);
        layer = count_move(counts, prices.tech.grid, seen, layer, made);
        walk = walk_on(walk, made);
        at += 2;
    }
    Ok(walk)
}
