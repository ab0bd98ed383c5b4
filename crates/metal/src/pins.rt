// The pins of all nets, which are metal of their net from the start.
ghost use Rattle.std.specs.Prelude.{◌≡◌, ◌<◌, ◌≤◌, length};
ghost use Rattle.job.specs.Lists.{All};
ghost use Rattle.job.specs.Grid.{vertices};
ghost use Rattle.job.specs.Job.{Job};
ghost use Rattle.job.specs.Reading.{good, read_job};
ghost use Rattle.job.specs.Structs.{grid_of};
ghost use Rattle.rules.specs.Standings.{metal_at_first};
ghost use Rattle.metal.specs.Codes.{lay_all, Codes, Beyond, Bare};
ghost use Rattle.metal.specs.Jobs.{JobHeld};

use crate::codes::lay;
use job::grid::Grid;
use reader::load::load_net;

// Lays a net on its pins.
pub fn lay_pins(map: &mut [u16], pins: &[usize], net: u16)
    requires { All (λ v. v < length map.old) pins.now }
    ensures { map.new ≡ lay_all net pins.now map.old }
{
    for &pin in pins {
        lay(map, pin, net);
    }
}

// Lays every net on its pins, over a bare map.
pub fn lay_all_pins(s: &[u8], grid: Grid, nets: usize, from: usize, map: &mut [u16])
    requires { (JobHeld s.now grid nets from) × (vertices (grid_of grid) ≤ length map.old) }
    ensures kept { Beyond (vertices (grid_of grid)) map.new map.old }
    ensures codes { (j : Job) → read_job s.now ≡ good j → Bare (vertices (grid_of grid)) map.old
        → Codes (grid_of grid) (metal_at_first j) map.new }
{
    let mut pins: [usize; 16] = [0; 16];
    let mut boxes: [u8; 90] = [0; 90];
    let mut at = from;
    for before in 0..nets {
        let loaded = load_net(s, grid, at, &mut pins, &mut boxes);
        lay_pins(map, &pins[..loaded.pins], (before + 1) as u16);
        at = loaded.next;
    }
}
