// The two ends of a segment on its track.
ghost use Rattle.std.specs.Prelude.{◌≡◌};
ghost use Rattle.job.specs.Structs.{grid_of};
ghost use Rattle.job.specs.declared.grid.Grid.{Grid as GridStruct};
ghost use Rattle.rules.specs.Tracks.{vertex_by};
ghost use Rattle.rules.specs.Structs.{OnGrid, track_of, leaving_end, starting_end};

use crate::segment::{Direction, opposite};
use crate::track::{Track, next_toward, room_toward};

// An end: its vertex, the direction that leads on from it, and how many steps the track goes on there.
#[derive(Clone, Copy)]
pub struct End {
    pub vertex: usize,
    pub toward: Direction,
    pub room: usize,
}

impl End {
    // The leaving end, which is lengthened first: the last vertex.
    pub fn leaving(track: Track, v: usize, toward: Direction) -> End
        requires { (grid : GridStruct) × OnGrid grid v × (track ≡ track_of (grid_of grid) (vertex_by (grid_of grid) v)) }
        ensures { result ≡ leaving_end track v toward }
    {
        End {
            vertex: v,
            toward,
            room: room_toward(track, toward),
        }
    }

    // The starting end: the first vertex, which lies the segment's length behind the last one, as far as the
    // track goes.
    pub fn starting(track: Track, v: usize, toward: Direction, length: usize) -> End
        requires { (grid : GridStruct) × OnGrid grid v × (track ≡ track_of (grid_of grid) (vertex_by (grid_of grid) v)) }
        ensures { result ≡ starting_end track v toward length }
    {
        let back = opposite(toward);
        let room = room_toward(track, back);
        let steps = length.min(room);
        End {
            vertex: next_toward(steps * track.stride, back, v),
            toward: back,
            room: room - steps,
        }
    }
}
