// Reading the nets: net heads, pins and boxes.
ghost use Rattle.std.specs.Prelude.{◌≡◌, ◌<◌, ◌≤◌, ◌^◌, ◌+◌};
ghost use Rattle.bits.specs.Bits.{bits_of};
ghost use Rattle.job.specs.Reading.{good_span, good_box, read_box};
ghost use Rattle.job.specs.Refusals.{read_of};
ghost use Rattle.job.specs.Structs.{Sized, grid_of, box_of};
ghost use Rattle.occupants.specs.Structs.{many_reached};
ghost use Rattle.occupants.specs.Occupants.{answer_of, occupants_of, pin_from, pins_from, boxes_from, net_from, nets_from};

use crate::obstacles::{OBSTACLE, PIN};
use job::grid::Grid;
use job::groups::{Box, Span, box_group, net_group, vertex_group};
use job::refusal::{Refusal, Refused};

// A pin is held against the obstacles and the earlier pins by its vertex's occupant, and put there.
pub fn read_pin(
    s: &[u8],
    grid: Grid,
    at: usize,
    occupants: &mut [u8; 16384],
) -> Result<usize, Refused>
    requires { (Sized grid) × (at < 2 ^ 32) }
    ensures answer { read_of result ≡ answer_of (pin_from (bits_of s.now) (grid_of grid) at occupants.old) }
    ensures occupants { occupants.new ≡ occupants_of (pin_from (bits_of s.now) (grid_of grid) at occupants.old) }
{
    let Some(pin) = vertex_group(s, at) else {
        return Err(Refusal::Cut.at(at));
    };
    if !grid.inside(pin) {
        return Err(Refusal::Pin.at(at));
    }
    let vertex = grid.number(pin);
    let occupant = occupants[vertex];
    let blocked = OBSTACLE;
    if occupant == blocked {
        return Err(Refusal::Pin.at(at));
    }
    let earlier = PIN;
    if occupant == earlier {
        return Err(Refusal::EarlierPin.at(at));
    }
    occupants[vertex] = PIN;
    Ok(at + 19)
}

pub fn read_pins(
    s: &[u8],
    grid: Grid,
    count: usize,
    from: usize,
    occupants: &mut [u8; 16384],
) -> Result<usize, Refused>
    requires { (Sized grid) × (count ≤ 16) × (from < 2 ^ 31) }
    ensures answer { read_of result ≡ answer_of (pins_from (bits_of s.now) (grid_of grid) count from occupants.old) }
    ensures occupants { occupants.new ≡ occupants_of (pins_from (bits_of s.now) (grid_of grid) count from occupants.old) }
{
    let mut at = from;
    for _pin in 0..count {
        at = read_pin(s, grid, at, occupants)?;
    }
    Ok(at)
}

// Whether a span is in order and below a size.
pub fn good_span(span: Span, size: usize) -> bool
    ensures { result ≡ good_span span.low span.high size }
{
    if span.high < span.low {
        return false;
    }
    (span.high as usize) < size
}

pub fn good_box(grid: Grid, b: Box) -> bool
    ensures { result ≡ good_box (grid_of grid) (box_of b) }
{
    if !good_span(b.layers, grid.layers) {
        return false;
    }
    if !good_span(b.rows, grid.rows) {
        return false;
    }
    good_span(b.columns, grid.columns)
}

pub fn read_box(s: &[u8], grid: Grid, at: usize) -> Result<usize, Refused>
    requires { at < 2 ^ 32 }
    ensures { read_of result ≡ many_reached (at + 38) (read_box (bits_of s.now) (grid_of grid) 0 at) }
{
    let Some(b) = box_group(s, at) else {
        return Err(Refusal::Cut.at(at));
    };
    if !good_box(grid, b) {
        return Err(Refusal::Box.at(at));
    }
    Ok(at + 38)
}

pub fn read_boxes(s: &[u8], grid: Grid, count: usize, from: usize) -> Result<usize, Refused>
    requires { (count < 16) × (from < 2 ^ 31) }
    ensures { read_of result ≡ boxes_from (bits_of s.now) (grid_of grid) count from }
{
    let mut at = from;
    for _box in 0..count {
        at = read_box(s, grid, at)?;
    }
    Ok(at)
}

pub fn read_net(
    s: &[u8],
    grid: Grid,
    at: usize,
    occupants: &mut [u8; 16384],
) -> Result<usize, Refused>
    requires { (Sized grid) × (at < 2 ^ 30) }
    ensures answer { read_of result ≡ answer_of (net_from (bits_of s.now) (grid_of grid) at occupants.old) }
    ensures occupants { occupants.new ≡ occupants_of (net_from (bits_of s.now) (grid_of grid) at occupants.old) }
{
    let Some(net) = net_group(s, at) else {
        return Err(Refusal::Cut.at(at));
    };
    let boxes_at = read_pins(s, grid, net.pins, at + 8, occupants)?;
    read_boxes(s, grid, net.boxes, boxes_at)
}

pub fn read_nets(
    s: &[u8],
    grid: Grid,
    count: usize,
    from: usize,
    occupants: &mut [u8; 16384],
) -> Result<usize, Refused>
    requires { (Sized grid) × (count < 2 ^ 8) × (from < 2 ^ 24) }
    ensures answer { read_of result ≡ answer_of (nets_from (bits_of s.now) (grid_of grid) count from occupants.old) }
    ensures occupants { occupants.new ≡ occupants_of (nets_from (bits_of s.now) (grid_of grid) count from occupants.old) }
{
    let mut at = from;
    for _net in 0..count {
        at = read_net(s, grid, at, occupants)?;
    }
    Ok(at)
}
