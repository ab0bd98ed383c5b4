// The prices of a job, made once: a penalty for each byte of a vertex's flags.
ghost use Rattle.std.specs.Prelude.{◌≡◌};
ghost use Rattle.rules.specs.Structs.{TechFits};
ghost use Rattle.rules.specs.PriceLists.{outside_field, extra_field, Priced};

use crate::price::{Prices, Tech};
use job::penalty::Penalty;

// The guide penalty of a byte of flags, where the vertex lies outside the guide.
fn outside_field(guide: usize, byte: usize) -> usize
    ensures { result ≡ outside_field guide byte }
{
    if byte / 4 % 2 == 1 { guide } else { 0 }
}

// The one penalty of a byte of flags: closed where the vertex is blocked, so that it is not entered, and
// where the guide penalty is; else the short penalty where it is taken, in place of the guide penalty.
fn extra_field(guide: usize, short: usize, byte: usize) -> usize
    ensures { result ≡ extra_field guide short byte }
{
    let outside = outside_field(guide, byte);
    if (byte % 2 == 1) | (outside == Penalty::CLOSED) {
        return Penalty::CLOSED;
    }
    if byte / 2 % 2 == 1 { short } else { outside }
}

fn extras_of(guide: usize, short: usize) -> [usize; 8]
    ensures { Priced guide short result }
{
    let mut extras = [0; 8];
    for byte in 0..8 {
        extras[byte] = extra_field(guide, short, byte);
    }
    extras
}

pub fn prices_of(tech: Tech) -> Prices
    requires { TechFits tech }
    ensures { result.tech ≡ tech }
{
    let extras = extras_of(tech.guide, tech.short);
    Prices { tech, extras }
}
