// Reading the head.
ghost use Rattle.std.specs.Prelude.{◌≡◌};
ghost use Rattle.bits.specs.Bits.{bits_of};
ghost use Rattle.job.specs.Reading.{read_head};
ghost use Rattle.job.specs.Refusals.{read_of};
ghost use Rattle.reader.specs.Structs.{head_read};

use job::groups::{Head, head_group};
use job::refusal::{Refusal, Refused};

// The edition that is read.
const EDITION: usize = 1;
// A grid has no more vertices.
const MOST_VERTICES: usize = 16384;

pub fn read_head(s: &[u8]) -> Result<Head, Refused>
    ensures { read_of result ≡ head_read (read_head (bits_of s.now)) }
{
    let Some((edition, head)) = head_group(s) else {
        return Err(Refusal::Cut.at(0));
    };
    if edition != EDITION {
        return Err(Refusal::Edition.at(0));
    }
    if MOST_VERTICES < head.grid.vertices() {
        return Err(Refusal::TooManyVertices.at(8));
    }
    Ok(head)
}
