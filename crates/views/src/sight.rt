// The byte of each vertex, from its occupant, its code and the guide.
ghost use Rattle.std.specs.Prelude.{◌≡◌, List, not, cond, ℕ, suc, ◌<◌, ◌≤◌, length, get_or, take, eqb};
ghost use Rattle.job.specs.Lists.{All};
ghost use Rattle.job.specs.Grid.{vertices};
ghost use Rattle.job.specs.Job.{Job};
ghost use Rattle.job.specs.Structs.{Sized, grid_of};
ghost use Rattle.rules.specs.Views.{view_of};
ghost use Rattle.rules.specs.Seen.{view_by};
ghost use Rattle.views.specs.Sight.{boxes_in, taken_code, seen_byte, NetAtHand, sight_of, own_byte, opened};

use crate::guide::{box_in, guide_box};
use job::grid::Grid;
use rules::seen::{BLOCKED, OUTSIDE, TAKEN};

// A flag where a test holds.
fn flag_if(holds: bool, flag: u8) -> u8
    ensures { result ≡ cond holds flag 0 }
{
    if holds { flag } else { 0 }
}

// Whether a code tells of another net's metal.
fn taken_by(net: u16, code: u16) -> bool
    ensures { result ≡ taken_code net code }
{
    code != 0 && code != net
}

// The byte of a vertex with an occupant and a code, where every net's pins are blocked and every net's metal
// is taken. The occupant is not 0 on an obstacle and on every net's pin.
fn byte_of(occupant: u8, code: u16, inside: bool) -> u8
    ensures { result ≡ seen_byte (not (eqb occupant 0)) (not (eqb code 0)) (not inside) }
{
    let blocked = flag_if(occupant != 0, BLOCKED);
    let taken = flag_if(code != 0, TAKEN);
    blocked + taken + flag_if(!inside, OUTSIDE)
}

// The byte of one of the net's own pins, from that: it is not blocked, and the net's own metal is not taken.
fn own_byte(byte: u8, code: u16, net: u16) -> u8
    ensures { result ≡ own_byte net code byte }
{
    byte - byte % OUTSIDE + flag_if(taken_by(net, code), TAKEN)
}

// The bytes of the first vertices, in one pass: all vertices are inside the guide or none is. An index runs
// over the three arrays: a zip of three, each cut to the count, is no plainer.
fn see_occupants(seen: &mut [u8], occupants: &[u8; 16384], map: &[u16], count: usize, inside: bool)
    requires { (count ≤ length seen.old) × (count ≤ length map.now) × (count ≤ 16384) }
    ensures { (v : ℕ) → v < count → get_or seen.new v 0
        ≡ seen_byte (not (eqb (get_or occupants.now v 0) 0)) (not (eqb (get_or map.now v 0) 0)) (not inside) }
{
    for v in 0..count {
        seen[v] = byte_of(occupants[v], map[v], inside);
    }
}

// No boxes: the whole grid is inside the guide.
fn see_grid(
    seen: &mut [u8],
    occupants: &[u8; 16384],
    map: &[u16],
    grid: Grid,
    boxes: &[u8; 90],
    count: usize,
)
    requires { (Sized grid) × (vertices (grid_of grid) ≤ length seen.old) × (vertices (grid_of grid) ≤ length map.now) × (count ≤ 15) }
    ensures { (v : ℕ) → v < vertices (grid_of grid) → get_or seen.new v 0
        ≡ sight_of (grid_of grid) occupants.now map.now (boxes_in boxes.now 0 count) v }
{
    see_occupants(seen, occupants, map, grid.vertices(), count == 0);
    for i in 0..count {
        guide_box(seen, grid, box_in(boxes, 6 * i));
    }
}

// The net's own pins.
fn open_pins(seen: &mut [u8; 16384], map: &[u16], pins: &[usize], net: u16)
    requires { (All (λ v. v < 16384) pins.now) × (All (λ v. v < length map.now) pins.now) }
    ensures { seen.new ≡ opened net map.now pins.now seen.old }
{
    for &pin in pins {
        seen[pin] = own_byte(seen[pin], map[pin], net);
    }
}

// What the net at hand sees, in its bytes.
pub fn see_net(
    seen: &mut [u8; 16384],
    occupants: &[u8; 16384],
    map: &[u16],
    grid: Grid,
    pins: &[usize; 16],
    pincount: usize,
    boxes: &[u8; 90],
    boxcount: usize,
    net: u16,
)
    requires sized { (Sized grid) × (vertices (grid_of grid) ≤ length map.now) × (pincount ≤ 16) × (boxcount ≤ 15) }
    requires all { All (λ v. v < vertices (grid_of grid)) (take pincount pins.now) }
    ensures { (j : Job) (k : ℕ) (metal : List (List ℕ)) → grid_of grid ≡ j.grid → net ≡ suc k
        → NetAtHand j k metal occupants.now map.now pins.now boxes.now pincount boxcount
        → view_by (grid_of grid) seen.new ≡ view_of j k metal }
{
    see_grid(seen, occupants, map, grid, boxes, boxcount);
    open_pins(seen, map, &pins[..pincount], net);
}
