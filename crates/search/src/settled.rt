// A settled place.
use job::grid::Vertex;
use rules::step::Place;

// The place, the coordinates of its vertex, and its cost.
#[derive(Clone, Copy)]
pub struct Settled {
    pub place: Place,
    pub vertex: Vertex,
    pub distance: u64,
}
