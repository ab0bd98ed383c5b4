// The groups of a job: each is read whole into its fields, or there is none where the end of the
// bytes cuts it short.
ghost use Rattle.std.specs.Prelude.{◌≡◌, ◌<◌, ◌^◌};
ghost use Rattle.job.specs.Structs.{head_group, layer_group, vertex_group, obstacle_group, net_group, box_group};

use crate::grid::{Grid, Vertex};
use bits::Cursor;

#[derive(Clone, Copy)]
pub struct Head {
    pub grid: Grid,
    pub guide: usize,
    pub short: usize,
    pub nets: usize,
    pub obstacles: usize,
}

#[derive(Clone, Copy, Default)]
pub struct Layer {
    pub wire: usize,
    pub via: usize,
    pub least: usize,
    pub area: usize,
}

#[derive(Clone, Copy)]
pub struct Obstacle {
    pub first: Vertex,
    pub run: usize,
}

#[derive(Clone, Copy)]
pub struct NetHead {
    pub pins: usize,
    pub boxes: usize,
}

// Both ends are inside. They are bytes, as wide as a job writes them, so that a row's columns can be held
// against them many at a time.
#[derive(Clone, Copy)]
pub struct Span {
    pub low: u8,
    pub high: u8,
}

#[derive(Clone, Copy)]
pub struct Box {
    pub layers: Span,
    pub rows: Span,
    pub columns: Span,
}

// The edition, and the rest of the head.
pub fn head_group(s: &[u8]) -> Option<(usize, Head)>
    ensures { result ≡ head_group s.now }
{
    let start = Cursor { at: 0 };
    if !start.whole(s, 80) {
        return None;
    }
    let edition = start.field(s, 4);
    let direction = edition.next.field(s, 1);
    let layers = direction.next.field(s, 3);
    let columns = layers.next.field(s, 8);
    let rows = columns.next.field(s, 8);
    let guide = rows.next.field(s, 16);
    let short = guide.next.field(s, 16);
    let nets = short.next.field(s, 8);
    let obstacles = nets.next.field(s, 16);
    let grid = Grid {
        direction: direction.value,
        layers: layers.value + 1,
        columns: columns.value + 1,
        rows: rows.value + 1,
    };
    Some((
        edition.value,
        Head {
            grid,
            guide: guide.value,
            short: short.value,
            nets: nets.value,
            obstacles: obstacles.value,
        },
    ))
}

pub fn layer_group(s: &[u8], at: usize) -> Option<Layer>
    requires { at < 2 ^ 32 }
    ensures { result ≡ layer_group s.now at }
{
    let start = Cursor { at };
    if !start.whole(s, 40) {
        return None;
    }
    let wire = start.field(s, 10);
    let via = wire.next.field(s, 10);
    let least = via.next.field(s, 4);
    let area = least.next.field(s, 16);
    Some(Layer {
        wire: wire.value,
        via: via.value,
        least: least.value,
        area: area.value,
    })
}

pub fn vertex_group(s: &[u8], at: usize) -> Option<Vertex>
    requires { at < 2 ^ 40 }
    ensures { result ≡ vertex_group s.now at }
{
    let start = Cursor { at };
    if !start.whole(s, 19) {
        return None;
    }
    let layer = start.field(s, 3);
    let row = layer.next.field(s, 8);
    let column = row.next.field(s, 8);
    Some(Vertex {
        layer: layer.value,
        row: row.value,
        column: column.value,
    })
}

pub fn obstacle_group(s: &[u8], at: usize) -> Option<Obstacle>
    requires { at < 2 ^ 32 }
    ensures { result ≡ obstacle_group s.now at }
{
    let start = Cursor { at };
    if !start.whole(s, 27) {
        return None;
    }
    let layer = start.field(s, 3);
    let row = layer.next.field(s, 8);
    let column = row.next.field(s, 8);
    let run = column.next.field(s, 8);
    let first = Vertex {
        layer: layer.value,
        row: row.value,
        column: column.value,
    };
    Some(Obstacle {
        first,
        run: run.value + 1,
    })
}

pub fn net_group(s: &[u8], at: usize) -> Option<NetHead>
    requires { at < 2 ^ 32 }
    ensures { result ≡ net_group s.now at }
{
    let start = Cursor { at };
    if !start.whole(s, 8) {
        return None;
    }
    let pins = start.field(s, 4);
    let boxes = pins.next.field(s, 4);
    Some(NetHead {
        pins: pins.value + 1,
        boxes: boxes.value,
    })
}

pub fn box_group(s: &[u8], at: usize) -> Option<Box>
    requires { at < 2 ^ 32 }
    ensures { result ≡ box_group s.now at }
{
    let start = Cursor { at };
    if !start.whole(s, 38) {
        return None;
    }
    let layer_low = start.field(s, 3);
    let layer_high = layer_low.next.field(s, 3);
    let row_low = layer_high.next.field(s, 8);
    let row_high = row_low.next.field(s, 8);
    let column_low = row_high.next.field(s, 8);
    let column_high = column_low.next.field(s, 8);
    let layers = Span {
        low: layer_low.value as u8,
        high: layer_high.value as u8,
    };
    let rows = Span {
        low: row_low.value as u8,
        high: row_high.value as u8,
    };
    let columns = Span {
        low: column_low.value as u8,
        high: column_high.value as u8,
    };
    Some(Box {
        layers,
        rows,
        columns,
    })
}
