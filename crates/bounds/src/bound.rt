// What is left at least from a vertex, times 15.
ghost use Rattle.std.specs.Prelude.{◌≡◌, ℕ, ◌<◌};
ghost use Rattle.job.specs.Grid.{vertices};
ghost use Rattle.job.specs.Structs.{Small, InFields, grid_of, vertex_of, vertex_struct};
ghost use Rattle.rules.specs.Tracks.{vertex_by, at, entered};
ghost use Rattle.rules.specs.Structs.{OnGrid, direction_of};
ghost use Rattle.bounds.specs.Bounds.{sum_at, sum_along, bound_of, bound_at, SmallBounds};

use job::grid::{Grid, Vertex};
use rules::segment::Direction;
use rules::track::{Kind, kind_of, next_toward, vertex_by};

// An entry for each row from 1 on, for each column from 258 on, for each layer from 516 on, each so small
// that a sum of three fits a word. They stand in one array: a step on is a position on, whichever axis it
// changes.
#[derive(Drop)]
pub struct Bounds {
    pub entries: [u64; 528],
    pub ghost small: { SmallBounds entries },
}

impl Bounds {
    // What a row, a column and a layer leave, by the positions of their entries.
    fn sum_at(&self, row: usize, column: usize, layer: usize) -> u64
        requires { (row < 528) × (column < 528) × (layer < 528) }
        ensures { result ≡ sum_at self.now.entries row column layer }
    {
        self.entries[row] + (self.entries[column] + self.entries[layer])
    }

    // The same a step on in a direction, where a step changes the column, or the row.
    fn sum_along(
        &self,
        row: usize,
        column: usize,
        layer: usize,
        columns: bool,
        toward: Direction,
    ) -> u64
        requires { (0 < row) × (row < 527) × (0 < column) × (column < 527) × (layer < 528) }
        ensures { result ≡ sum_along self.now.entries row column layer columns (direction_of toward) }
    {
        if columns {
            self.sum_at(row, next_toward(1, toward, column), layer)
        } else {
            self.sum_at(next_toward(1, toward, row), column, layer)
        }
    }

    // From a vertex by its coordinates.
    pub fn of(&self, from: Vertex) -> u64
        requires { InFields from }
        ensures { result ≡ bound_of self.now.entries (vertex_of from) }
    {
        self.sum_at(1 + from.row, 258 + from.column, 516 + from.layer)
    }

    // From a vertex by its number: this divides, so it is no part of the search's loop.
    pub fn at(&self, grid: Grid, v: usize) -> u64
        requires { OnGrid grid v }
        ensures { result ≡ bound_at (grid_of grid) self.now.entries v }
    {
        self.of(vertex_by(grid, v))
    }

    // The bound of the vertex that a move enters, if it enters one: one coordinate changes by one.
    pub fn entered(&self, grid: Grid, from: Vertex, number: usize) -> u64
        requires { (Small grid) × (InFields from) }
        ensures { (v w : ℕ) → v < vertices (grid_of grid) → from ≡ vertex_struct (vertex_by (grid_of grid) v)
            → entered (grid_of grid) v number ≡ at w → result ≡ bound_at (grid_of grid) self.now.entries w }
    {
        let row = 1 + from.row;
        let column = 258 + from.column;
        let layer = 516 + from.layer;
        let kind = kind_of(number);
        match kind {
            Kind::Along(toward) => {
                let columns = grid.steps_column(from.layer);
                self.sum_along(row, column, layer, columns, toward)
            }
            Kind::Down => self.sum_at(row, column, layer - 1),
            Kind::Up => self.sum_at(row, column, layer + 1),
        }
    }
}
