// Judging one move of a plan.
ghost use Rattle.std.specs.Prelude.{◌<◌, ◌^◌};
ghost use Rattle.bits.specs.Bits.{bits_of};
ghost use Rattle.job.specs.Structs.{grid_of};
ghost use Rattle.rules.specs.Structs.{tech_by, place_of, seen_by};
ghost use Rattle.replay.specs.Following.{judged_move};
ghost use Rattle.replay.specs.Structs.{AtPlace, IsJudged};

use bits::Cursor;
use job::refusal::{Refusal, Refused};
use rules::price::Prices;
use rules::step::{Made, Place, step};
use tree::UNJOINED;

// A move is legal, and it enters an unjoined pin just where it is the last.
pub fn judge_move(
    prices: &Prices,
    seen: &[u8; 16384],
    spots: &[u8; 16384],
    plan: &[u8],
    last: bool,
    at: usize,
    place: Place,
) -> Result<Made, Refused>
    requires { (AtPlace prices.now place) × (at < 2 ^ 40) }
    ensures { let view = seen_by prices.now.tech seen.now in
        IsJudged (grid_of prices.now.tech.grid) view (place_of place) result
        (judged_move (bits_of plan.now) (tech_by prices.now.tech) view spots.now last at (place_of place)) }
{
    let cursor = Cursor { at };
    if !cursor.whole(plan, 2) {
        return Err(Refusal::PlanCut.at(at));
    }
    let number = cursor.field(plan, 2);
    let Some(made) = step(prices, seen, place, number.value) else {
        return Err(Refusal::Move.at(at));
    };
    let vertex = made.next.vertex;
    let pin = spots[vertex] == UNJOINED;
    if pin != last {
        return Err(Refusal::Move.at(at));
    }
    Ok(made)
}
