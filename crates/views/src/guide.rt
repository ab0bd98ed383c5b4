// The guide of the net at hand: its boxes, the box test, and the vertices that the test finds inside.
ghost use Rattle.std.specs.Prelude.{◌≡◌, ◌<◌, ◌≤◌, length};
ghost use Rattle.job.specs.Grid.{vertices};
ghost use Rattle.job.specs.Structs.{Sized, grid_of, box_of, box_struct};
ghost use Rattle.rules.specs.Views.{between, on_layers, on_rows, on_columns, in_box};
ghost use Rattle.views.specs.Sight.{box_in, in_row, in_layer, guided_byte, GuidedWhere};

use job::grid::{Grid, Vertex};
use job::groups::{Box, Span};
use rules::seen::OUTSIDE;

// The box whose six numbers stand from a position on.
pub fn box_in(boxes: &[u8; 90], from: usize) -> Box
    requires { from ≤ 84 }
    ensures { result ≡ box_struct (box_in boxes.now from) }
{
    Box {
        layers: Span {
            low: boxes[from],
            high: boxes[from + 1],
        },
        rows: Span {
            low: boxes[from + 2],
            high: boxes[from + 3],
        },
        columns: Span {
            low: boxes[from + 4],
            high: boxes[from + 5],
        },
    }
}

// Whether a layer, a row or a column lies from low to high.
fn holds(span: Span, at: u8) -> bool
    ensures { result ≡ between span.low at span.high }
{
    (span.low <= at) & (at <= span.high)
}

// Whether a layer, a row, a column is one of the box's.
fn on_layers(layer: u8, guide: Box) -> bool
    ensures { result ≡ on_layers layer (box_of guide) }
{
    holds(guide.layers, layer)
}

fn on_rows(row: u8, guide: Box) -> bool
    ensures { result ≡ on_rows row (box_of guide) }
{
    holds(guide.rows, row)
}

fn on_columns(column: u8, guide: Box) -> bool
    ensures { result ≡ on_columns column (box_of guide) }
{
    holds(guide.columns, column)
}

// The box test of a vertex: layer, row, column, left at the first that says no.
fn in_box(layer: u8, row: u8, column: u8, guide: Box) -> bool
    ensures { result ≡ in_box (record { layer = layer; row = row; column = column }) (box_of guide) }
{
    if !on_layers(layer, guide) {
        return false;
    }
    if !on_rows(row, guide) {
        return false;
    }
    on_columns(column, guide)
}

// The byte of a vertex, where it is found inside the guide or is not. OUTSIDE is the highest flag: the
// remainder keeps the others.
fn guided_byte(found: bool, byte: u8) -> u8
    ensures { result ≡ guided_byte found byte }
{
    if found { byte % OUTSIDE } else { byte }
}

// A box's vertices on one row are inside the guide.
fn guide_row(seen: &mut [u8], grid: Grid, layer: usize, row: usize, guide: Box)
    requires { (Sized grid) × (vertices (grid_of grid) ≤ length seen.old) × (layer < grid.layers) × (row < grid.rows) }
    ensures { GuidedWhere (grid_of grid) (in_row layer row (box_of guide)) seen.old seen.new }
{
    for column in 0..grid.columns {
        let v = grid.number(Vertex { layer, row, column });
        let inside = in_box(layer as u8, row as u8, column as u8, guide);
        seen[v] = guided_byte(inside, seen[v]);
    }
}

// A box's vertices on one layer are inside the guide. A row that is none of the box's is passed over.
fn guide_layer(seen: &mut [u8], grid: Grid, layer: usize, guide: Box)
    requires { (Sized grid) × (vertices (grid_of grid) ≤ length seen.old) × (layer < grid.layers) }
    ensures { GuidedWhere (grid_of grid) (in_layer layer (box_of guide)) seen.old seen.new }
{
    for row in 0..grid.rows {
        if on_rows(row as u8, guide) {
            guide_row(seen, grid, layer, row, guide);
        }
    }
}

// A box's vertices are inside the guide. A layer that is none of the box's is passed over.
pub fn guide_box(seen: &mut [u8], grid: Grid, guide: Box)
    requires { (Sized grid) × (vertices (grid_of grid) ≤ length seen.old) }
    ensures { GuidedWhere (grid_of grid) (λ w. in_box w (box_of guide)) seen.old seen.new }
{
    for layer in 0..grid.layers {
        if on_layers(layer as u8, guide) {
            guide_layer(seen, grid, layer, guide);
        }
    }
}
