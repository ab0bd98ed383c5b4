// What the net at hand sees of each vertex: one byte of flags, made when the net begins.
ghost use Rattle.std.specs.Prelude.{◌≡◌, ◌<◌, get_or};
ghost use Rattle.rules.specs.Seen.{holds, clear_byte};

// Bits of a number, since the byte is the index of its penalty in `Prices`.
pub const BLOCKED: u8 = 1;

pub const TAKEN: u8 = 2;

pub const OUTSIDE: u8 = 4;

// Whether a vertex has a flag.
pub fn has(seen: &[u8; 16384], v: usize, flag: u8) -> bool
    requires { (v < 16384) × (0 < flag) }
    ensures { result ≡ holds flag (get_or seen.now v 0) }
{
    seen[v] / flag % 2 == 1
}

// No obstacle, no other net's pin, not taken.
pub fn clear(seen: &[u8; 16384], v: usize) -> bool
    requires { v < 16384 }
    ensures { result ≡ clear_byte (get_or seen.now v 0) }
{
    if has(seen, v, BLOCKED) {
        return false;
    }
    !has(seen, v, TAKEN)
}
