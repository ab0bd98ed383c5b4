// The move that leads on from a place.
ghost use Rattle.std.specs.Prelude.{◌≡◌, ◌≤◌, length};
ghost use Rattle.job.specs.Structs.{grid_of};
ghost use Rattle.rules.specs.Joins.{places};
ghost use Rattle.rules.specs.Places.{GoodPlace};
ghost use Rattle.rules.specs.Steps.{step, illegal};
ghost use Rattle.rules.specs.Structs.{tech_by, seen_by, place_of};
ghost use Rattle.search.specs.Fronts.{lead_at};
ghost use Rattle.joins.specs.Led.{IsLed};

use rules::price::Prices;
use rules::step::{Made, Place, step};
use search::lead::lead_at;
use search::places::code_of;

// The number of a move, and what it made.
#[derive(Clone, Copy)]
pub struct Led {
    pub number: usize,
    pub made: Made,
}

// The move that the lead of a place tells; it is legal.
pub fn led_move(prices: &Prices, seen: &[u8; 16384], work: &[u64], place: Place) -> Led
    requires { (places (tech_by prices.now.tech) ≤ length work.now)
        × (GoodPlace (tech_by prices.now.tech) (place_of place))
        × (step (tech_by prices.now.tech) (seen_by prices.now.tech seen.now) (place_of place) (lead_at (tech_by prices.now.tech) work.now (place_of place)) ≡ illegal → ⊥) }
    ensures { IsLed (grid_of prices.now.tech.grid) (tech_by prices.now.tech) (seen_by prices.now.tech seen.now) work.now (place_of place) result }
{
    let number = lead_at(work, code_of(prices.tech.largest, place));
    let Some(made) = step(prices, seen, place, number) else {
        unreachable!()
    };
    Led { number, made }
}
