// A place by its number: by vertex, then segment.
ghost use Rattle.std.specs.Prelude.{◌≡◌, ◌≤◌, ◌<◌, ◌^◌};
ghost use Rattle.rules.specs.Places.{segment_code, code_by, running_at, segment_at, place_at, GoodSegment};
ghost use Rattle.rules.specs.Structs.{segment_of, place_of};

use rules::segment::{Direction, Segment, move_toward};
use rules::step::Place;

// Fresh is 0; running low and high at length n are 2n - 1 and 2n; with M the largest, paid is 2M - 1, toward
// low 2M, toward high 2M + 1.
fn segment_code(largest: usize, segment: Segment) -> usize
    requires { (1 ≤ largest) × (largest ≤ 15) × GoodSegment largest (segment_of segment) }
    ensures { result ≡ segment_code largest (segment_of segment) }
{
    match segment {
        Segment::Fresh => 0,
        Segment::Running(direction, length) => 2 * length - 1 + move_toward(direction),
        Segment::Paid => 2 * largest - 1,
        Segment::PaidToward(direction) => 2 * largest + move_toward(direction),
    }
}

pub fn code_of(largest: usize, place: Place) -> usize
    requires { (1 ≤ largest) × (largest ≤ 15) × (place.vertex < 16384) × GoodSegment largest (segment_of place.segment) }
    ensures { result ≡ code_by largest (place_of place) }
{
    let segment = place.segment;
    place.vertex * (2 * (largest + 1)) + segment_code(largest, segment)
}

// A running segment: odd numbers go low, even ones high.
fn running_at(code: usize) -> Segment
    requires { code < 2 ^ 32 }
    ensures { segment_of result ≡ running_at code }
{
    if code % 2 == 0 {
        return Segment::Running(Direction::High, (code + 1) / 2);
    }
    Segment::Running(Direction::Low, (code + 1) / 2)
}

fn segment_at(largest: usize, code: usize) -> Segment
    requires { (1 ≤ largest) × (largest ≤ 15) }
    ensures { segment_of result ≡ segment_at largest code }
{
    if code == 0 {
        return Segment::Fresh;
    }
    if code < 2 * largest - 1 {
        return running_at(code);
    }
    if code == 2 * largest - 1 {
        return Segment::Paid;
    }
    if code == 2 * largest {
        return Segment::PaidToward(Direction::Low);
    }
    Segment::PaidToward(Direction::High)
}

pub fn place_of(largest: usize, code: usize) -> Place
    requires { (1 ≤ largest) × (largest ≤ 15) }
    ensures { place_of result ≡ place_at largest code }
{
    let width = 2 * (largest + 1);
    Place {
        vertex: code / width,
        segment: segment_at(largest, code % width),
    }
}
