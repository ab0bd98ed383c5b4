// Laying metal: at each vertex the map holds 0, the one net that covers it, counted from 1, or 256 for
// several.
ghost use Rattle.std.specs.Prelude.{◌≡◌, ◌<◌, ◌≤◌, length, get_or, set};
ghost use Rattle.job.specs.Grid.{vertices};
ghost use Rattle.job.specs.Structs.{Sized, grid_of};
ghost use Rattle.job.specs.declared.grid.Grid.{Grid as GridStruct};
ghost use Rattle.rules.specs.Structs.{direction_of, place_of, EndOn};
ghost use Rattle.metal.specs.Codes.{laid_code, lay_all, beyond, extended, with_obstacles};

use job::grid::Grid;
use occupants::obstacles;
use rules::end::End;
use rules::overhead::Extension;
use rules::segment::{heading_of, steps_of};
use rules::step::Place;
use rules::track::{next_toward, track_of, vertex_by};

// Numbers, since C reads the map.
const SEVERAL: u16 = 256;

const OBSTACLE: u16 = 257;

// Lays a net on a vertex.
pub fn lay(map: &mut [u16], v: usize, net: u16)
    requires { v < length map.old }
    ensures { map.new ≡ set map.old v (laid_code net (get_or map.old v 0)) }
{
    let code = map[v];
    if code == 0 {
        map[v] = net;
        return;
    }
    if code != net {
        map[v] = SEVERAL;
    }
}

// Lays a net on so many vertices beyond an end, along its track.
fn lay_run(map: &mut [u16], stride: usize, end: End, count: usize, net: u16)
    requires { (grid : GridStruct) × (Sized grid) × (EndOn (grid_of grid) stride end) × (vertices (grid_of grid) ≤ length map.old) }
    ensures { (grid : GridStruct) → EndOn (grid_of grid) stride end
        → map.new ≡ lay_all net (beyond (grid_of grid) (direction_of end.toward) count end.vertex) map.old }
{
    let toward = end.toward;
    let mut last = end.vertex;
    for _count in 0..count.min(end.room) {
        last = next_toward(stride, toward, last);
        lay(map, last, net);
    }
}

// Lays a net on the vertices of an extension at a place, beyond the two ends of its segment.
pub fn lay_extension(map: &mut [u16], grid: Grid, place: Place, extension: Extension, net: u16)
    requires { (Sized grid) × (place.vertex < vertices (grid_of grid)) × (vertices (grid_of grid) ≤ length map.old) }
    ensures { map.new ≡ lay_all net (extended (grid_of grid) (place_of place) extension) map.old }
{
    let segment = place.segment;
    let toward = heading_of(segment);
    let steps = steps_of(segment);
    let track = track_of(grid, vertex_by(grid, place.vertex));
    let leaving = End::leaving(track, place.vertex, toward);
    lay_run(map, track.stride, leaving, extension.leaving, net);
    let starting = End::starting(track, place.vertex, toward, steps);
    lay_run(map, track.stride, starting, extension.starting, net);
}

// Puts the obstacles into the first vertices.
pub fn put_obstacles(map: &mut [u16], occupants: &[u8; 16384], count: usize)
    requires { (count ≤ 16384) × (count ≤ length map.old) }
    ensures { map.new ≡ with_obstacles occupants.now count map.old }
{
    for (v, &occupant) in occupants[..count].iter().enumerate() {
        if occupant == obstacles::OBSTACLE {
            map[v] = OBSTACLE;
        }
    }
}
