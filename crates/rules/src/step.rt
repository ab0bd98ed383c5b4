// One move from a place.
ghost use Rattle.std.specs.Prelude.{◌≡◌, ◌<◌};
ghost use Rattle.job.specs.Grid.{Grid as GridRecord, vertices};
ghost use Rattle.job.specs.Structs.{grid_of};
ghost use Rattle.rules.specs.Views.{View};
ghost use Rattle.rules.specs.Segments.{Place as PlaceRecord, grow};
ghost use Rattle.rules.specs.Overheads.{overhead_of, Overhead as Owed};
ghost use Rattle.rules.specs.Steps.{stepping, leaving, by_segment, step};
ghost use Rattle.rules.specs.Structs.{Short, direction_of, segment_of, kind_by, tech_by, seen_by, FewMissing, IsOverhead, place_of, entry_of, IsStepped, IsSteppedAnywhere, by_via};
ghost use Rattle.rules.specs.Charging.{Here};

use crate::overhead::{Extension, Overhead, overhead_of, overhead_price};
use crate::price::Prices;
use crate::segment::{Direction, Segment, grow};
use crate::track::{Kind, entered_by, kind_of, track_of, vertex_by};
use job::grid::Vertex;
use job::groups::Layer;
use job::penalty::Penalty;

// A vertex with the segment that is being made there.
#[derive(Clone, Copy)]
pub struct Place {
    pub vertex: usize,
    pub segment: Segment,
}

// The vertex that a move enters, with the price of entering it.
#[derive(Clone, Copy)]
pub struct Entry {
    pub into: usize,
    pub price: usize,
}

// What a move enters, if it may: it stays in the grid, it enters no obstacle and no other net's pin, and no
// penalty of entering is closed.
pub fn entry_of(
    prices: &Prices,
    seen: &[u8; 16384],
    v: usize,
    from: Vertex,
    number: usize,
) -> Option<Entry>
    requires { Here prices.now v from }
    ensures { result ≡ entry_of (tech_by prices.now.tech) (seen_by prices.now.tech seen.now) v number }
{
    let into = entered_by(prices.tech.grid, v, from, number)?;
    let Penalty::Price(extra) = prices.extra(seen[into]) else {
        return None;
    };
    Some(Entry {
        into,
        price: prices.base(from.layer, kind_of(number)) + extra,
    })
}

// What a legal move did: where it led, the price of entering, and the overhead with its extension and the
// steps that were missing.
#[derive(Clone, Copy)]
pub struct Made {
    pub next: Place,
    pub enter: usize,
    pub over: usize,
    pub extension: Extension,
    pub added: usize,
    pub penalties: usize,
}

// A step along the track costs no overhead.
fn step_along(
    least: usize,
    segment: Segment,
    toward: Direction,
    into: usize,
    enter: usize,
) -> Option<Made>
    requires { Short segment }
    ensures { IsSteppedAnywhere result (stepping into enter (grow least (direction_of toward) (segment_of segment))) }
{
    let longer = grow(least, toward, segment)?;
    Some(Made {
        next: Place {
            vertex: into,
            segment: longer,
        },
        enter,
        over: 0,
        extension: Extension::default(),
        added: 0,
        penalties: 0,
    })
}

// A via move, with what it owes for the segment that it leaves. It makes the segment fresh again.
fn by_via(
    into: usize,
    enter: usize,
    over: usize,
    extension: Extension,
    added: usize,
    penalties: usize,
) -> Option<Made>
    ensures { result ≡ by_via into enter over extension added penalties }
{
    Some(Made {
        next: Place {
            vertex: into,
            segment: Segment::Fresh,
        },
        enter,
        over,
        extension,
        added,
        penalties,
    })
}

// A via move out of a vertex with a layer line, by what it owes.
fn leave_by(line: Layer, into: usize, enter: usize, overhead: Overhead) -> Option<Made>
    requires { (line.wire < 1024) × (FewMissing overhead) }
    ensures { (g : GridRecord) (view : View) (p : PlaceRecord) (owed : Owed) → IsOverhead line.wire line.area g view p overhead owed
        → IsStepped g view p result (leaving into enter owed) }
{
    let Penalty::Price(over) = overhead_price(line, overhead) else {
        return None;
    };
    match overhead {
        Overhead::Nothing => by_via(into, enter, over, Extension::default(), 0, 0),
        Overhead::Lengthened(missing, extension) => {
            by_via(into, enter, over, extension, missing, 0)
        }
        Overhead::Penalised => by_via(into, enter, over, Extension::default(), 0, 1),
        Overhead::Forbidden => None,
    }
}

// A via move owes overhead for a segment that is too short.
fn leave_layer(
    prices: &Prices,
    seen: &[u8; 16384],
    place: Place,
    from: Vertex,
    into: usize,
    enter: usize,
) -> Option<Made>
    requires { Here prices.now place.vertex from }
    ensures { let tech = prices.now.tech in
        let view = seen_by tech seen.now in
        IsStepped (grid_of tech.grid) view (place_of place) result
        (leaving into enter (overhead_of (tech_by tech) view place.vertex (segment_of place.segment))) }
{
    let segment = place.segment;
    let track = track_of(prices.tech.grid, from);
    let overhead = overhead_of(track, prices, seen, place.vertex, from, segment);
    leave_by(prices.line(from.layer), into, enter, overhead)
}

// What the move's kind asks of the segment.
fn by_segment(
    prices: &Prices,
    seen: &[u8; 16384],
    place: Place,
    from: Vertex,
    kind: Kind,
    into: usize,
    enter: usize,
) -> Option<Made>
    requires { (Here prices.now place.vertex from) × (Short place.segment) }
    ensures { let tech = prices.now.tech in
        let view = seen_by tech seen.now in
        IsStepped (grid_of tech.grid) view (place_of place) result (by_segment (tech_by tech) view (place_of place) (kind_by kind) into enter) }
{
    let Kind::Along(toward) = kind else {
        return leave_layer(prices, seen, place, from, into, enter);
    };
    let segment = place.segment;
    let line = prices.line(from.layer);
    step_along(line.least, segment, toward, into, enter)
}

// A move is legal if nothing forbids it: its vertex can be entered, and the segment allows it. The place's
// vertex comes with its coordinates.
pub fn step_from(
    prices: &Prices,
    seen: &[u8; 16384],
    place: Place,
    from: Vertex,
    number: usize,
) -> Option<Made>
    requires { (Here prices.now place.vertex from) × (Short place.segment) }
    ensures { let tech = prices.now.tech in
        let view = seen_by tech seen.now in
        IsStepped (grid_of tech.grid) view (place_of place) result (step (tech_by tech) view (place_of place) number) }
{
    let entry = entry_of(prices, seen, place.vertex, from, number)?;
    by_segment(
        prices,
        seen,
        place,
        from,
        kind_of(number),
        entry.into,
        entry.price,
    )
}

// The same from the place alone.
pub fn step(prices: &Prices, seen: &[u8; 16384], place: Place, number: usize) -> Option<Made>
    requires { (place.vertex < vertices (grid_of prices.now.tech.grid)) × (Short place.segment) }
    ensures { let tech = prices.now.tech in
        let view = seen_by tech seen.now in
        IsStepped (grid_of tech.grid) view (place_of place) result (step (tech_by tech) view (place_of place) number) }
{
    let from = vertex_by(prices.tech.grid, place.vertex);
    step_from(prices, seen, place, from, number)
}
