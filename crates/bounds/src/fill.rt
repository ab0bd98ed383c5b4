// The bound made for the unjoined pins of a net: the steps off their box, each at the cheapest price.
ghost use Rattle.std.specs.Prelude.{◌≡◌, ◌+◌, ◌-◌, ◌≤◌, ◌<◌, min, length};
ghost use Rattle.std.specs.List.{fold};
ghost use Rattle.job.specs.Structs.{Small, grid_of, vertex_of};
ghost use Rattle.rules.specs.Structs.{TechFits, tech_by};
ghost use Rattle.bounds.specs.Bounds.{SmallBounds, Bounding};
ghost use Rattle.bounds.specs.Fills.{Among, span_with, box_with, unjoined_box, leaves, axis_filled, filled};

use crate::bound::Bounds;
use job::grid::{Grid, Vertex};
use rules::price::{Prices, Tech};
use rules::track::vertex_by;
use tree::UNJOINED;

// How far the unjoined pins reach along an axis: both ends are inside.
#[derive(Clone, Copy)]
pub struct PinSpan {
    pub low: usize,
    pub high: usize,
}

#[derive(Clone, Copy)]
pub struct PinBox {
    pub layers: PinSpan,
    pub rows: PinSpan,
    pub columns: PinSpan,
}

// The dearest that a layer line can name.
const MOST: usize = 1023;

impl PinSpan {
    // A span that reaches as far as a coordinate too.
    fn widened(self, at: usize) -> PinSpan
        ensures { result ≡ span_with self at }
    {
        PinSpan {
            low: self.low.min(at),
            high: self.high.max(at),
        }
    }
}

impl PinBox {
    // A box that reaches as far as a vertex too.
    fn widened(self, vertex: Vertex) -> PinBox
        ensures { result ≡ box_with self (vertex_of vertex) }
    {
        PinBox {
            layers: self.layers.widened(vertex.layer),
            rows: self.rows.widened(vertex.row),
            columns: self.columns.widened(vertex.column),
        }
    }
}

// The box of the unjoined pins; its spans have no inside where there are none.
fn unjoined_box(grid: Grid, spots: &[u8; 16384], pins: &[usize; 16], count: usize) -> PinBox
    requires { (Small grid) × (Among (grid_of grid) spots.now pins.now count) }
    ensures { result ≡ unjoined_box (grid_of grid) spots.now pins.now count }
{
    let none = PinSpan { low: 255, high: 0 };
    let mut around = PinBox {
        layers: none,
        rows: none,
        columns: none,
    };
    for &pin in &pins[..count] {
        if spots[pin] == UNJOINED {
            around = around.widened(vertex_by(grid, pin));
        }
    }
    around
}

fn cheapest(prices: &[usize]) -> usize
    ensures { result ≡ fold min 1023 prices.now }
{
    prices.iter().fold(MOST, |least, price| least.min(*price))
}

// What a coordinate leaves: the steps to the span at a price, times 15, so that a search that counts each
// cost 16 times still pays 1 for each move.
fn left_at(span: PinSpan, price: usize, at: usize) -> u64
    requires { (span.low ≤ 255) × (price < 1024) × (at < 256) }
    ensures { result ≡ leaves span price at }
{
    (15 * (price * (span.low.saturating_sub(at) + at.saturating_sub(span.high)))) as u64
}

// The entries of all rows, columns or layers.
fn fill_axis(bounds: &mut [u64], first: usize, count: usize, span: PinSpan, price: usize)
    requires { (first + count ≤ length bounds.old) × (count ≤ 256) × (span.low ≤ 255) × (price < 1024) }
    ensures { bounds.new ≡ axis_filled span price first count bounds.old }
{
    for i in 0..count {
        bounds[first + i] = left_at(span, price, i);
    }
}

// The entries for the unjoined ones of the first pins.
fn fill_entries(
    bounds: &mut [u64; 528],
    tech: Tech,
    spots: &[u8; 16384],
    pins: &[usize; 16],
    count: usize,
)
    requires { (TechFits tech) × (SmallBounds bounds.old) × (Among (grid_of tech.grid) spots.now pins.now count) }
    ensures { (Bounding (tech_by tech) spots.now bounds.new) × (SmallBounds bounds.new)
        × (bounds.new ≡ filled tech spots.now pins.now count bounds.old) }
{
    let grid = tech.grid;
    let wires = tech.layers.map(|line| line.wire);
    let vias = tech.layers.map(|line| line.via);
    let wire = cheapest(&wires[..grid.layers]);
    let via = cheapest(&vias[..grid.layers - 1]);
    let around = unjoined_box(grid, spots, pins, count);
    let rows = around.rows;
    let columns = around.columns;
    let levels = around.layers;
    fill_axis(bounds, 1, grid.rows, rows, wire);
    fill_axis(bounds, 258, grid.columns, columns, wire);
    fill_axis(bounds, 516, grid.layers, levels, via);
}

// A bound for the unjoined ones of the first pins, in the table that is lent: one by value is copied.
pub fn fill_bounds(
    bounds: &mut Bounds,
    prices: &Prices,
    spots: &[u8; 16384],
    pins: &[usize; 16],
    count: usize,
)
    requires { Among (grid_of prices.now.tech.grid) spots.now pins.now count }
    ensures { (Bounding (tech_by prices.now.tech) spots.now bounds.new.entries)
        × (bounds.new.entries ≡ filled prices.now.tech spots.now pins.now count bounds.old.entries) }
{
    fill_entries(&mut bounds.entries, prices.tech, spots, pins, count);
}
