// What replay and routing hold of a job that was read, and the test of the slices that are lent for it.
ghost use Rattle.std.specs.Prelude.{◌≡◌};
ghost use Rattle.job.specs.Refusals.{read_of};
ghost use Rattle.occupants.specs.Occupants.{Bare};
ghost use Rattle.router.specs.Room.{room_for};
ghost use Rattle.router.specs.Held.{HeadHolds, IsHeld, held_of};

use job::groups::{Head, Layer};
use job::refusal::{Refusal, Refused};
use reader::layers::largest_least;
use reader::whole::read_job;
use rules::price::Tech;

// Its layers, its needs, how many nets it has and at which bit they begin.
#[derive(Clone, Copy)]
pub(crate) struct Held {
    pub tech: Tech,
    pub vertices: usize,
    pub work: usize,
    pub nets: usize,
    pub from: usize,
}

fn held_of(head: Head, layers: [Layer; 8]) -> Held
    requires { HeadHolds head layers }
    ensures { result ≡ held_of head layers }
{
    let grid = head.grid;
    let vertices = grid.vertices();
    let largest = largest_least(layers);
    let tech = Tech {
        grid,
        layers,
        largest,
        guide: head.guide,
        short: head.short,
    };
    Held {
        tech,
        vertices,
        work: vertices * 4 * (largest + 1),
        nets: head.nets,
        from: 80 + 40 * grid.layers + 27 * head.obstacles,
    }
}

// What is held of the job that the bytes hold, or the first rule that they break.
pub(crate) fn hold_job(bytes: &[u8], occupants: &mut [u8; 16384]) -> Result<Held, Refused>
    requires { Bare occupants.old }
    ensures { IsHeld bytes.now occupants.new result }
{
    let read = read_job(bytes, occupants)?;
    Ok(held_of(read.head, read.layers))
}

// Both slices are long enough; else the need is told.
pub(crate) fn room_for(
    vertices: usize,
    need: usize,
    map: &[u16],
    work: &[u64],
) -> Result<(), Refused>
    ensures { read_of result ≡ room_for vertices need map.now work.now }
{
    if map.len() < vertices {
        return Err(Refusal::ShortMap.at(vertices));
    }
    if work.len() < need {
        return Err(Refusal::ShortWork.at(need));
    }
    Ok(())
}
