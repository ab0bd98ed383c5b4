// Walking a join's moves: what each enters becomes metal and tree, and their cost is counted. Replay and
// routing share it.
#![tactic(auto)]

ghost use Rattle.std.specs.Prelude.{◌≡◌, [], ◌∷◌, ◌++◌, ◌<◌, ◌≤◌, ◌^◌, length, set};
ghost use Rattle.job.specs.Grid.{vertices};
ghost use Rattle.job.specs.Structs.{Sized, grid_of};
ghost use Rattle.metal.specs.Codes.{lay_all, extended};
ghost use Rattle.rules.specs.Structs.{place_of};
ghost use Rattle.walker.specs.Structs.{walk_from, walk_on};

use job::grid::Grid;
use metal::codes::{lay, lay_extension};
use rules::segment::Segment;
use rules::step::{Made, Place};
use tree::ON_TREE;

// Where the moves so far have led, and what they cost.
#[derive(Clone, Copy)]
pub struct Walk {
    pub place: Place,
    pub cost: usize,
    pub added: usize,
    pub penalties: usize,
}

// The number of the net at hand, counted from 1, and how many pins it has.
#[derive(Clone, Copy)]
pub struct NetAtHand {
    pub number: u16,
    pub pins: usize,
}

// A walk of no moves.
pub fn walk_from(start: usize) -> Walk
    ensures { result ≡ walk_from start }
{
    let place = Place {
        vertex: start,
        segment: Segment::Paid,
    };
    Walk {
        place,
        cost: 0,
        added: 0,
        penalties: 0,
    }
}

// The vertices of a move's extension and the vertex that it enters become metal, and that vertex enters the
// tree.
pub fn enter_move(
    map: &mut [u16],
    spots: &mut [u8; 16384],
    grid: Grid,
    from: Place,
    made: Made,
    net: u16,
)
    requires { (Sized grid) × (from.vertex < vertices (grid_of grid)) × (made.next.vertex < vertices (grid_of grid)) × (vertices (grid_of grid) ≤ length map.old) }
    ensures map { map.new
        ≡ lay_all net (extended (grid_of grid) (place_of from) made.extension ++ (made.next.vertex ∷ [])) map.old }
    ensures spots { spots.new ≡ set spots.old made.next.vertex 1 }
{
    let extension = made.extension;
    lay_extension(map, grid, from, extension, net);
    let into = made.next.vertex;
    lay(map, into, net);
    spots[into] = ON_TREE;
}

// The walk with one move more.
pub fn walk_on(walk: Walk, made: Made) -> Walk
    requires { (walk.cost < 2 ^ 40) × (walk.added < 2 ^ 40) × (walk.penalties < 2 ^ 40) × (made.enter < 2 ^ 20) × (made.over < 2 ^ 20)
        × (made.added < 2 ^ 20) × (made.penalties < 2 ^ 20) }
    ensures { result ≡ walk_on walk made }
{
    let next = made.next;
    Walk {
        place: next,
        cost: walk.cost + (made.enter + made.over),
        added: walk.added + made.added,
        penalties: walk.penalties + made.penalties,
    }
}
