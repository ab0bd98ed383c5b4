// What a via move owes for the segment that it leaves.
ghost use Rattle.std.specs.Prelude.{◌≡◌, ◌<◌};
ghost use Rattle.job.specs.Grid.{vertices};
ghost use Rattle.job.specs.Structs.{Sized, grid_of, vertex_of};
ghost use Rattle.rules.specs.Tracks.{vertex_by};
ghost use Rattle.rules.specs.Prices.{line_of};
ghost use Rattle.rules.specs.Overheads.{otherwise, too_short, overhead_of};
ghost use Rattle.rules.specs.Seen.{view_by};
ghost use Rattle.rules.specs.Structs.{OnGrid, track_of, segment_of, heading_of, steps_of, line_record, tech_by, seen_by, cost_of, FewMissing, IsOverhead, IsOverheadAnywhere, overhead_cost};
ghost use Rattle.job.specs.declared.grid.Grid.{Grid as GridStruct};
ghost use Rattle.rules.specs.Charging.{Here};

use crate::end::End;
use crate::price::Prices;
use crate::seen::clear;
use crate::segment::{Segment, heading_of, steps_of};
use crate::track::{Track, next_toward};
use job::grid::Vertex;
use job::groups::Layer;
use job::penalty::Penalty;

// So many vertices become metal beyond the last vertex of the segment that is left, and so many beyond its
// first.
#[derive(Clone, Copy, Default)]
pub struct Extension {
    pub leaving: usize,
    pub starting: usize,
}

#[derive(Clone, Copy)]
pub enum Overhead {
    Nothing,
    // So many steps are missing, and the extension makes up for them.
    Lengthened(usize, Extension),
    Penalised,
    Forbidden,
}

// The area penalty, or that the move is forbidden if that is closed.
fn otherwise(area: usize) -> Overhead
    ensures { IsOverheadAnywhere area result (otherwise area) }
{
    let penalty = Penalty::from_field(area);
    match penalty {
        Penalty::Closed => Overhead::Forbidden,
        Penalty::Price(_price) => Overhead::Penalised,
    }
}

// An extension of as many clear vertices as are missing, at the leaving end first and the rest at the
// starting end, or the area penalty. The first vertex that isn't clear stops the count of its own end.
fn too_short(track: Track, line: Layer, seen: &[u8; 16384], v: usize, segment: Segment) -> Overhead
    requires { ((grid : GridStruct) × (Sized grid) × (v < vertices (grid_of grid)) × (track ≡ track_of (grid_of grid) (vertex_by (grid_of grid) v)))
        × (line.least < 16) }
    ensures { (grid : GridStruct) → OnGrid grid v → track ≡ track_of (grid_of grid) (vertex_by (grid_of grid) v)
        → (let view = view_by (grid_of grid) seen.now in
        let s = segment_of segment in
        IsOverhead line.wire line.area (grid_of grid) view (record { vertex = v; segment = s }) result
        (too_short (grid_of grid) (line_record line) view v (heading_of s) (steps_of s))) }
{
    let toward = heading_of(segment);
    let length = steps_of(segment);
    let missing = line.least.saturating_sub(length);
    let leaving_end = End::leaving(track, v, toward);
    let starting_end = End::starting(track, v, toward, length);
    let mut laid = 0;
    let mut leaving = 0;
    'ends: for end in [leaving_end, starting_end] {
        // Once the starting end begins, what was laid so far is at the leaving end.
        leaving = laid;
        let mut last = end.vertex;
        for _count in 0..(missing - laid).min(end.room) {
            last = next_toward(track.stride, end.toward, last);
            if !clear(seen, last) {
                continue 'ends;
            }
            laid += 1;
        }
    }
    if laid < missing {
        return otherwise(line.area);
    }
    let starting = laid - leaving;
    Overhead::Lengthened(missing, Extension { leaving, starting })
}

// A paid segment owes nothing.
pub fn overhead_of(
    track: Track,
    prices: &Prices,
    seen: &[u8; 16384],
    v: usize,
    from: Vertex,
    segment: Segment,
) -> Overhead
    requires { (Here prices.now v from) × (track ≡ track_of (grid_of prices.now.tech.grid) (vertex_of from)) }
    ensures { let tech = prices.now.tech in
        let view = seen_by tech seen.now in
        let line = line_of (tech_by tech) v in
        IsOverhead line.wire line.area (grid_of tech.grid) view (record { vertex = v; segment = segment_of segment }) result
        (overhead_of (tech_by tech) view v (segment_of segment)) }
{
    let line = prices.line(from.layer);
    match segment {
        Segment::Fresh => too_short(track, line, seen, v, segment),
        Segment::Running(_toward, _length) => too_short(track, line, seen, v, segment),
        Segment::Paid => Overhead::Nothing,
        Segment::PaidToward(_toward) => Overhead::Nothing,
    }
}

// What it costs; closed where it is forbidden.
pub fn overhead_price(line: Layer, overhead: Overhead) -> Penalty
    requires { (line.wire < 1024) × (FewMissing overhead) }
    ensures { cost_of result ≡ overhead_cost line overhead }
{
    match overhead {
        Overhead::Nothing => Penalty::Price(0),
        Overhead::Lengthened(missing, _extension) => Penalty::Price(line.wire * missing),
        Overhead::Penalised => Penalty::Price(line.area),
        Overhead::Forbidden => Penalty::Closed,
    }
}
