// The grid: vertices on layers, numbered by layer, row, column.
ghost use Rattle.std.specs.Prelude.{◌≡◌, ◌<◌};
ghost use Rattle.job.specs.Grid.{vertices, vertex_number, inside, steps_column, stride_of};
ghost use Rattle.job.specs.Structs.{Small, InFields, grid_of, vertex_of};

#[derive(Clone, Copy)]
pub struct Grid {
    // 0 or 1: a number, since a layer's number is added to it.
    pub direction: usize,
    pub layers: usize,
    pub columns: usize,
    pub rows: usize,
}

#[derive(Clone, Copy)]
pub struct Vertex {
    pub layer: usize,
    pub row: usize,
    pub column: usize,
}

impl Grid {
    pub fn vertices(self) -> usize
        requires { Small self }
        ensures { result ≡ vertices (grid_of self) }
    {
        self.layers * self.rows * self.columns
    }

    pub fn inside(self, v: Vertex) -> bool
        ensures { result ≡ inside (grid_of self) (vertex_of v) }
    {
        if self.layers <= v.layer {
            return false;
        }
        if self.rows <= v.row {
            return false;
        }
        v.column < self.columns
    }

    pub fn number(self, v: Vertex) -> usize
        requires { (Small self) × (InFields v) }
        ensures { result ≡ vertex_number (grid_of self) (vertex_of v) }
    {
        (v.layer * self.rows + v.row) * self.columns + v.column
    }

    // Whether a step on the layer changes the column; else it changes the row.
    pub fn steps_column(self, layer: usize) -> bool
        requires { (Small self) × (layer < 8) }
        ensures { result ≡ steps_column (grid_of self) layer }
    {
        (self.direction + layer) % 2 == 0
    }

    // What a step high along the layer's track adds to a vertex number.
    pub fn stride(self, layer: usize) -> usize
        requires { (Small self) × (layer < 8) }
        ensures { result ≡ stride_of (grid_of self) layer }
    {
        if self.steps_column(layer) {
            1
        } else {
            self.columns
        }
    }
}
