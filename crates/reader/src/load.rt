// The net at hand: its pins and boxes in the small arrays that routing works on. The job was read before, so
// nothing is refused here.
ghost use Rattle.std.specs.Prelude.{◌≡◌, ◌+◌, ◌*◌, ◌<◌, ◌≤◌, length};
ghost use Rattle.std.proofs.lemmas.List.Edits.{sets};
ghost use Rattle.bits.specs.Bits.{bits_of};
ghost use Rattle.job.specs.Structs.{Small, grid_of, box_of};
ghost use Rattle.reader.specs.Loading.{pin_numbers, box_numbers, boxes_numbers, NetRoom, net_loaded, pins_loaded, boxes_loaded};

use job::grid::Grid;
use job::groups::{Box, box_group, net_group, vertex_group};

// How many pins and boxes were loaded, and the bit after the net.
#[derive(Clone, Copy)]
pub struct NetLoaded {
    pub pins: usize,
    pub boxes: usize,
    pub next: usize,
}

// The vertex numbers of the pins.
pub fn load_pins(s: &[u8], grid: Grid, count: usize, from: usize, pins: &mut [usize; 16])
    requires { (Small grid) × (count ≤ 16) × (length s.now ≤ 262144) × (from + 19 * count ≤ 8 * length s.now) }
    ensures { pins.new ≡ sets pins.old 0 (pin_numbers (bits_of s.now) (grid_of grid) count from) }
{
    for pin in 0..count {
        let vertex = vertex_group(s, from + 19 * pin).unwrap();
        pins[pin] = grid.number(vertex);
    }
}

// Six numbers for a box: low and high of its layers, its rows and its columns.
pub fn store_box(boxes: &mut [u8; 90], first: usize, b: Box)
    requires { first + 6 ≤ 90 }
    ensures { boxes.new ≡ sets boxes.old first (box_numbers (box_of b)) }
{
    boxes[first] = b.layers.low;
    boxes[first + 1] = b.layers.high;
    boxes[first + 2] = b.rows.low;
    boxes[first + 3] = b.rows.high;
    boxes[first + 4] = b.columns.low;
    boxes[first + 5] = b.columns.high;
}

pub fn load_boxes(s: &[u8], count: usize, from: usize, boxes: &mut [u8; 90])
    requires { (count < 16) × (length s.now ≤ 262144) × (from + 38 * count ≤ 8 * length s.now) }
    ensures { boxes.new ≡ sets boxes.old 0 (boxes_numbers (bits_of s.now) count from) }
{
    for place in 0..count {
        let b = box_group(s, from + 38 * place).unwrap();
        store_box(boxes, 6 * place, b);
    }
}

pub fn load_net(
    s: &[u8],
    grid: Grid,
    at: usize,
    pins: &mut [usize; 16],
    boxes: &mut [u8; 90],
) -> NetLoaded
    requires { (Small grid) × (length s.now ≤ 262144) × (NetRoom (bits_of s.now) at) }
    ensures counts { result ≡ net_loaded (bits_of s.now) at }
    ensures pins { pins.new ≡ pins_loaded (bits_of s.now) (grid_of grid) at pins.old }
    ensures boxes { boxes.new ≡ boxes_loaded (bits_of s.now) at boxes.old }
{
    let net = net_group(s, at).unwrap();
    let boxes_at = at + 8 + 19 * net.pins;
    load_pins(s, grid, net.pins, at + 8, pins);
    load_boxes(s, net.boxes, boxes_at, boxes);
    NetLoaded {
        pins: net.pins,
        boxes: net.boxes,
        next: boxes_at + 38 * net.boxes,
    }
}
