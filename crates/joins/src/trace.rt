// The route of the join that a search found: at each place the move that its lead tells, the lowest that
// leads on, until an unjoined pin.
ghost use Rattle.std.specs.Prelude.{◌≡◌, List, ℕ, ◌<◌, ◌^◌, length, get_or, eqb};
ghost use Rattle.rules.specs.Structs.{tech_by, seen_by};
ghost use Rattle.search.specs.Charts.{Charted, lowest_led};
ghost use Rattle.joins.specs.Traces.{route_by};

use crate::led::led_move;
use rules::price::Prices;
use rules::segment::Segment;
use rules::step::Place;
use tree::UNJOINED;

// Whether the route ends at a vertex: its byte says that it is an unjoined pin.
pub fn ends_at(spots: &[u8; 16384], vertex: usize) -> bool
    requires { vertex < 16384 }
    ensures { result ≡ eqb (get_or spots.now vertex 0) 2 }
{
    spots[vertex] == UNJOINED
}

// How many moves the route has.
pub fn count_moves(
    prices: &Prices,
    seen: &[u8; 16384],
    spots: &[u8; 16384],
    work: &[u64],
    start: usize,
) -> usize
    requires { ((bounds : List ℕ) × (best : ℕ) × (Charted (tech_by prices.now.tech) (seen_by prices.now.tech seen.now) spots.now bounds work.now best))
        × (start ≡ lowest_led (tech_by prices.now.tech) (seen_by prices.now.tech seen.now) spots.now work.now) }
    ensures counted { result ≡ length (route_by (tech_by prices.now.tech) (seen_by prices.now.tech seen.now) spots.now start) }
    ensures few { result < 2 ^ 20 }
{
    let mut place = Place {
        vertex: start,
        segment: Segment::Paid,
    };
    let mut count = 0;
    while !ends_at(spots, place.vertex) {
        let led = led_move(prices, seen, work, place);
        place = led.made.next;
        count += 1;
    }
    count
}
