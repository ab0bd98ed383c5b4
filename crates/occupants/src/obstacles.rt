// Reading the obstacles, each put on the vertices that it covers.
ghost use Rattle.std.specs.Prelude.{◌≡◌, ◌<◌, ◌≤◌, ◌^◌, T};
ghost use Rattle.bits.specs.Bits.{bits_of};
ghost use Rattle.job.specs.Grid.{inside};
ghost use Rattle.job.specs.Reading.{read_obstacle, covered};
ghost use Rattle.job.specs.Lists.{all};
ghost use Rattle.job.specs.Refusals.{read_of};
ghost use Rattle.job.specs.Structs.{Small, Sized, grid_of, obstacle_of};
ghost use Rattle.occupants.specs.Structs.{obstacle_read};
ghost use Rattle.occupants.specs.Occupants.{RunInside, cover_every, cover_obstacle, obstacles_from, answer_of, occupants_of};

use job::grid::Grid;
use job::groups::{Obstacle, obstacle_group};
use job::refusal::{Refusal, Refused};

// The occupant of a vertex: 0 where it is free. Numbers, since any bytes may be lent.
pub const OBSTACLE: u8 = 1;

pub const PIN: u8 = 2;

// Whether all of an obstacle is inside.
pub fn obstacle_inside(grid: Grid, obstacle: Obstacle) -> bool
    requires { (Small grid) × (1 ≤ obstacle.run) }
    ensures { result ≡ all (inside (grid_of grid)) (covered (grid_of grid) (obstacle_of obstacle)) }
{
    let first = obstacle.first;
    if !grid.inside(first) {
        return false;
    }
    if grid.steps_column(first.layer) {
        obstacle.run <= grid.columns - first.column
    } else {
        obstacle.run <= grid.rows - first.row
    }
}

pub fn read_obstacle(s: &[u8], grid: Grid, at: usize) -> Result<Obstacle, Refused>
    requires { (Small grid) × (at < 2 ^ 32) }
    ensures { read_of result ≡ obstacle_read (read_obstacle (bits_of s.now) (grid_of grid) 0 at) }
{
    let Some(obstacle) = obstacle_group(s, at) else {
        return Err(Refusal::Cut.at(at));
    };
    if !obstacle_inside(grid, obstacle) {
        return Err(Refusal::Obstacle.at(at));
    }
    Ok(obstacle)
}

// An obstacle covers every stride-th vertex from the first on.
pub fn cover_run(occupants: &mut [u8; 16384], first: usize, stride: usize, run: usize)
    requires { (stride ≤ 256) × (RunInside stride run first) }
    ensures { occupants.new ≡ cover_every stride run first occupants.old }
{
    let mut at = first;
    for _covered in 0..run {
        occupants[at] = OBSTACLE;
        at += stride;
    }
}

pub fn cover_obstacle(occupants: &mut [u8; 16384], grid: Grid, obstacle: Obstacle)
    requires { (Sized grid) × (1 ≤ obstacle.run) × (T (all (inside (grid_of grid)) (covered (grid_of grid) (obstacle_of obstacle)))) }
    ensures { occupants.new ≡ cover_obstacle (grid_of grid) (obstacle_of obstacle) occupants.old }
{
    let first = obstacle.first;
    cover_run(
        occupants,
        grid.number(first),
        grid.stride(first.layer),
        obstacle.run,
    );
}

pub fn read_obstacles(
    s: &[u8],
    grid: Grid,
    count: usize,
    from: usize,
    occupants: &mut [u8; 16384],
) -> Result<usize, Refused>
    requires { (Sized grid) × (count < 2 ^ 16) × (from < 2 ^ 16) }
    ensures answer { read_of result ≡ answer_of (obstacles_from (bits_of s.now) (grid_of grid) count from occupants.old) }
    ensures occupants { occupants.new ≡ occupants_of (obstacles_from (bits_of s.now) (grid_of grid) count from occupants.old) }
{
    let mut at = from;
    for _obstacle in 0..count {
        let obstacle = read_obstacle(s, grid, at)?;
        cover_obstacle(occupants, grid, obstacle);
        at += 27;
    }
    Ok(at)
}
