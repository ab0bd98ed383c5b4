// Vertices by number, what a move's number asks, and the vertex that it enters.
ghost use Rattle.std.specs.Prelude.{◌≡◌, ◌<◌, ◌≤◌, ◌+◌, ◌-◌, ◌^◌, true};
ghost use Rattle.job.specs.Structs.{Small, grid_of, vertex_of, vertex_struct};
ghost use Rattle.rules.specs.Tracks.{vertex_by, if_there, entered};
ghost use Rattle.rules.specs.Segments.{low, kind_of};
ghost use Rattle.rules.specs.Structs.{OnGrid, entered_of, track_of, direction_of, kind_by, room_in, next_on};

use crate::segment::Direction;
use job::grid::{Grid, Vertex};

// Where a vertex lies on its track, how long the track is, and what a step high adds to the vertex's number.
#[derive(Clone, Copy)]
pub struct Track {
    pub index: usize,
    pub length: usize,
    pub stride: usize,
}

pub fn vertex_by(grid: Grid, v: usize) -> Vertex
    requires { OnGrid grid v }
    ensures { result ≡ vertex_struct (vertex_by (grid_of grid) v) }
{
    Vertex {
        layer: v / (grid.rows * grid.columns),
        row: v / grid.columns % grid.rows,
        column: v % grid.columns,
    }
}

pub fn track_of(grid: Grid, vertex: Vertex) -> Track
    requires { (Small grid) × (vertex.layer < 8) }
    ensures { result ≡ track_of (grid_of grid) (vertex_of vertex) }
{
    if grid.steps_column(vertex.layer) {
        Track {
            index: vertex.column,
            length: grid.columns,
            stride: 1,
        }
    } else {
        Track {
            index: vertex.row,
            length: grid.rows,
            stride: grid.columns,
        }
    }
}

// The vertex that lies lower by a number, where there is one.
fn lower(there: bool, v: usize, by: usize) -> Option<usize>
    requires { there ≡ true → by ≤ v }
    ensures { result ≡ entered_of (if_there there (v - by)) }
{
    if there { Some(v - by) } else { None }
}

fn higher(there: bool, v: usize, by: usize) -> Option<usize>
    requires { there ≡ true → v + by < 2 ^ 32 }
    ensures { result ≡ entered_of (if_there there (v + by)) }
{
    if there { Some(v + by) } else { None }
}

// What a move does: a step along the track in a direction, or a via to the layer below or above.
#[derive(Clone, Copy)]
pub enum Kind {
    Along(Direction),
    Down,
    Up,
}

// 0 low and 1 high step along the layer's track, 2 goes down a layer, 3 up. A greater number is no move's: it
// enters nothing.
pub fn kind_of(number: usize) -> Kind
    ensures { kind_by result ≡ kind_of number }
{
    match number {
        0 => Kind::Along(Direction::Low),
        1 => Kind::Along(Direction::High),
        2 => Kind::Down,
        _ => Kind::Up,
    }
}

// The vertex that a move enters, from a vertex with its coordinates, if it stays in the grid: the move's
// number and the layer's direction decide what changes.
pub fn entered_by(grid: Grid, v: usize, from: Vertex, number: usize) -> Option<usize>
    requires { (OnGrid grid v) × (from ≡ vertex_struct (vertex_by (grid_of grid) v)) }
    ensures { result ≡ entered_of (entered (grid_of grid) v number) }
{
    let track = track_of(grid, from);
    let level = grid.rows * grid.columns;
    match number {
        0 => lower(0 < track.index, v, track.stride),
        1 => higher(track.index + 1 < track.length, v, track.stride),
        2 => lower(0 < from.layer, v, level),
        3 => higher(from.layer + 1 < grid.layers, v, level),
        _ => None,
    }
}

// How many steps the track goes on in a direction.
pub fn room_toward(track: Track, toward: Direction) -> usize
    requires { track.index < track.length }
    ensures { result ≡ room_in track (direction_of toward) }
{
    match toward {
        Direction::Low => track.index,
        Direction::High => track.length - 1 - track.index,
    }
}

// The next vertex in a direction, where the track goes on.
pub fn next_toward(stride: usize, toward: Direction, v: usize) -> usize
    requires { (v < 2 ^ 32) × (stride < 2 ^ 32) × (direction_of toward ≡ low → stride ≤ v) }
    ensures { result ≡ next_on stride (direction_of toward) v }
{
    match toward {
        Direction::Low => v - stride,
        Direction::High => v + stride,
    }
}
