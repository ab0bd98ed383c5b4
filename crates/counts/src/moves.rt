// Counting a move.
ghost use Rattle.std.specs.Prelude.{◌≡◌, [], ◌∷◌, ◌<◌, ◌^◌};
ghost use Rattle.job.specs.Grid.{vertices};
ghost use Rattle.job.specs.Structs.{Sized, grid_of};
ghost use Rattle.rules.specs.Tracks.{layer_of};
ghost use Rattle.rules.specs.Seen.{view_by};
ghost use Rattle.rules.specs.Segments.{Place};
ghost use Rattle.rules.specs.Structs.{made_by};
ghost use Rattle.counts.specs.Counts.{count, counted, one_if, way_count, move_counts};
ghost use Rattle.counts.specs.Structs.{CountsFit, kind_of};

use job::grid::Grid;
use rules::seen::{OUTSIDE, TAKEN, has};
use rules::step::Made;
use rules::track::vertex_by;
use std::cmp::Ordering;

// What is counted of a layer; each kind has the number of its place among the layer's counts.
#[derive(Clone, Copy, PartialEq, Eq, Debug)]
pub enum Kind {
    Steps = 0,
    Vias = 1,
    Added = 2,
    Penalised = 3,
    Guide = 4,
    Short = 5,
}

impl Kind {
    fn place(self) -> usize
        ensures { (result ≡ kind_of self) × (result < 6) }
    {
        self as usize
    }
}

// How many kinds of counts a layer has.
pub const KINDS: usize = 6;

// How many counts there are, of eight layers.
pub const COUNTS: usize = 48;

fn add_count(counts: &mut [usize; 48], layer: usize, kind: Kind, many: usize)
    requires { (layer < 8) × (many < 2 ^ 20) × (CountsFit (2 ^ 63) counts.old) }
    ensures { counts.new ≡ counted (count layer (kind_of kind) many ∷ []) counts.old }
{
    let place = kind.place();
    counts[KINDS * layer + place] += many;
}

// One more where a test holds.
fn count_if(counts: &mut [usize; 48], layer: usize, kind: Kind, test: bool)
    requires { (layer < 8) × (CountsFit (2 ^ 63) counts.old) }
    ensures { counts.new ≡ counted (count layer (kind_of kind) (one_if test) ∷ []) counts.old }
{
    if test {
        add_count(counts, layer, kind, 1);
    }
}

// A via, at the lower of its two layers, or a step on a layer.
fn count_way(counts: &mut [usize; 48], left: usize, entered: usize)
    requires { (left < 8) × (entered < 8) × (CountsFit (2 ^ 63) counts.old) }
    ensures { counts.new ≡ counted (way_count left entered ∷ []) counts.old }
{
    match left.cmp(&entered) {
        Ordering::Less => add_count(counts, left, Kind::Vias, 1),
        Ordering::Greater => add_count(counts, entered, Kind::Vias, 1),
        Ordering::Equal => add_count(counts, entered, Kind::Steps, 1),
    }
}

// A move from a layer: what it made there, and what it enters. Answers the layer entered.
pub fn count_move(
    counts: &mut [usize; 48],
    grid: Grid,
    seen: &[u8; 16384],
    left: usize,
    made: Made,
) -> usize
    requires { (Sized grid) × (left < 8) × (made.next.vertex < vertices (grid_of grid)) × (made.added < 2 ^ 20)
        × (made.penalties < 2 ^ 20) × (CountsFit (2 ^ 62) counts.old) }
    ensures layer { result ≡ layer_of (grid_of grid) made.next.vertex }
    ensures counts { (p : Place) → left ≡ layer_of (grid_of grid) p.vertex
        → (let view = view_by (grid_of grid) seen.now in
        counts.new ≡ counted (move_counts (grid_of grid) view p.vertex (made_by (grid_of grid) view p made)) counts.old) }
{
    let into = made.next.vertex;
    let vertex = vertex_by(grid, into);
    let entered = vertex.layer;
    count_way(counts, left, entered);
    add_count(counts, left, Kind::Added, made.added);
    add_count(counts, left, Kind::Penalised, made.penalties);
    let outside = has(seen, into, OUTSIDE);
    let taken = has(seen, into, TAKEN);
    count_if(counts, entered, Kind::Guide, outside & !taken);
    count_if(counts, entered, Kind::Short, taken);
    entered
}
