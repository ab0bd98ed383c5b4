// What follows a plan's last record.
ghost use Rattle.std.specs.Prelude.{◌≡◌, ◌&&◌, ◌<◌, ◌-◌, ◌^◌, length, drop, ltb, eqb};
ghost use Rattle.bits.specs.Bits.{bits_of, number};

use bits::Cursor;

// Fewer than eight bits are left, and they are zero. The slice may be of any length, so its bits are counted
// only once they are few.
pub fn zero_tail(plan: &[u8], at: usize) -> bool
    requires { at < 2 ^ 40 }
    ensures { result ≡ (ltb (length (bits_of plan.now) - at) 8 && eqb (number (drop at (bits_of plan.now))) 0) }
{
    let bytes = plan.len();
    if (at + 7) / 8 < bytes {
        return false;
    }
    let end = bytes * 8;
    if end <= at {
        return true;
    }
    let start = Cursor { at };
    let tail = start.field(plan, end - at);
    tail.value == 0
}
