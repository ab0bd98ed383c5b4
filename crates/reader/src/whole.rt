// Reading a whole job.
ghost use Rattle.std.specs.Prelude.{◌≡◌, ◌<◌, ◌≤◌, ◌^◌, length};
ghost use Rattle.bits.specs.Bits.{bits_of};
ghost use Rattle.job.specs.Job.{Job};
ghost use Rattle.job.specs.Good.{all_pins};
ghost use Rattle.job.specs.Reading.{good, read_after_head, read_job};
ghost use Rattle.job.specs.Refusals.{read_of};
ghost use Rattle.job.specs.Structs.{Sized, head_of};
ghost use Rattle.reader.specs.Structs.{job_read};
ghost use Rattle.occupants.specs.Occupants.{Bare, Occupants, answer_of, occupants_of, groups_from};

use crate::head::read_head;
use crate::layers::read_layers;
use crate::tail::read_tail;
use job::groups::{Head, Layer};
use job::refusal::{Refusal, Refused};
use occupants::nets::read_nets;
use occupants::obstacles::read_obstacles;

// A job has no more bytes.
const MOST_BYTES: usize = 262144;

// The head and the layer lines of a job, and the bit after its last field.
#[derive(Clone, Copy)]
pub struct JobRead {
    pub end: usize,
    pub head: Head,
    pub layers: [Layer; 8],
}

// Obstacles, nets and tail.
pub fn read_groups(s: &[u8], head: Head, occupants: &mut [u8; 16384]) -> Result<usize, Refused>
    requires { (length s.now ≤ 262144) × (Sized head.grid) × (head.nets < 2 ^ 8) × (head.obstacles < 2 ^ 16) }
    ensures answer { read_of result ≡ answer_of (groups_from (bits_of s.now) (head_of head) occupants.old) }
    ensures occupants { occupants.new ≡ occupants_of (groups_from (bits_of s.now) (head_of head) occupants.old) }
{
    let grid = head.grid;
    let nets_at = read_obstacles(s, grid, head.obstacles, 80 + 40 * grid.layers, occupants)?;
    let end = read_nets(s, grid, head.nets, nets_at, occupants)?;
    read_tail(s, end)
}

// Layer lines, obstacles, nets and tail.
pub fn read_after_head(
    s: &[u8],
    head: Head,
    occupants: &mut [u8; 16384],
) -> Result<JobRead, Refused>
    requires s_len_bound { (length s.now ≤ 262144) × (Sized head.grid) × (head.nets < 2 ^ 8) × (head.obstacles < 2 ^ 16) }
    requires bare { Bare occupants.old }
    ensures read { read_of result ≡ job_read (read_after_head (bits_of s.now) (head_of head)) }
    ensures occupants { (j : Job) → read_after_head (bits_of s.now) (head_of head) ≡ good j → Occupants j.grid j.obstacles (all_pins j.nets) occupants.new }
{
    let layers = read_layers(s, head.grid.layers)?;
    let end = read_groups(s, head, occupants)?;
    Ok(JobRead { end, head, layers })
}

// The job that the bytes hold, or the first rule that they break. The occupants are lent bare, and after a
// good job they tell obstacles and pins.
pub fn read_job(s: &[u8], occupants: &mut [u8; 16384]) -> Result<JobRead, Refused>
    requires { Bare occupants.old }
    ensures read { read_of result ≡ job_read (read_job s.now) }
    ensures occupants { (j : Job) → read_job s.now ≡ good j → Occupants j.grid j.obstacles (all_pins j.nets) occupants.new }
{
    if MOST_BYTES < s.len() {
        return Err(Refusal::TooManyBytes.at(0));
    }
    let head = read_head(s)?;
    read_after_head(s, head, occupants)
}
