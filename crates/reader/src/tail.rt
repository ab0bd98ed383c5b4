// Reading what follows the last field.
ghost use Rattle.std.specs.Prelude.{◌≡◌, ◌<◌, ◌≤◌, ◌^◌, length};
ghost use Rattle.bits.specs.Bits.{bits_of};
ghost use Rattle.job.specs.Reading.{read_tail};
ghost use Rattle.job.specs.Refusals.{read_of};
ghost use Rattle.occupants.specs.Structs.{many_reached};

use bits::Cursor;
use job::refusal::{Refusal, Refused};

// The bits of a byte.
const BYTE: usize = 8;

// Fewer than eight bits are left, and they are zero.
pub fn read_tail(s: &[u8], at: usize) -> Result<usize, Refused>
    requires { (length s.now ≤ 262144) × (at < 2 ^ 32) }
    ensures { read_of result ≡ many_reached at (read_tail (bits_of s.now) at) }
{
    let end = s.len() * 8;
    if end <= at {
        return Ok(at);
    }
    let left = end - at;
    if BYTE <= left {
        return Err(Refusal::Tail.at(at));
    }
    let tail = Cursor { at }.field(s, left);
    if tail.value != 0 {
        return Err(Refusal::Tail.at(at));
    }
    Ok(at)
}
