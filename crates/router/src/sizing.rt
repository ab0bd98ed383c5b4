// Sizing: how many vertices a job has, and how much work memory its routing needs.
ghost use Rattle.std.specs.Prelude.{◌≡◌};
ghost use Rattle.router.specs.Held.{sizing_answer};
ghost use Rattle.router.specs.Sizing.{sizing_of};

use crate::held::{Held, hold_job};
use job::refusal::Refused;

// The refusal is 0 where the job is good, and so is its place; else vertices and work are 0.
#[repr(C)]
#[derive(Clone, Copy)]
pub struct SizingResult {
    pub refusal: usize,
    pub place: usize,
    pub vertices: usize,
    pub work: usize,
}

impl From<Result<Held, Refused>> for SizingResult {
    ghost from_gives = { λ held answer. answer ≡ sizing_answer held };

    fn from(held: Result<Held, Refused>) -> SizingResult {
        match held {
            Ok(held) => SizingResult {
                refusal: 0,
                place: 0,
                vertices: held.vertices,
                work: held.work,
            },
            Err(refused) => SizingResult {
                refusal: refused.refusal.number(),
                place: refused.place,
                vertices: 0,
                work: 0,
            },
        }
    }
}

pub fn maizespell_sizing(bytes: &[u8]) -> SizingResult
    ensures { result ≡ sizing_of bytes.now }
{
    let mut occupants = [0; 16384];
    SizingResult::from(hold_job(bytes, &mut occupants))
}
