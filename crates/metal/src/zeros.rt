// Zeroing the part of a slice that a job needs. A function for each width: `zeroed` is of numbers, and the
// values of a type parameter are none.
ghost use Rattle.std.specs.Prelude.{◌≡◌, ◌≤◌, length};
ghost use Rattle.job.specs.Slices.{zeroed};

pub fn zero_codes(map: &mut [u16], count: usize)
    requires { count ≤ length map.old }
    ensures { map.new ≡ zeroed count map.old }
{
    map[..count].fill(0);
}

pub fn zero_words(work: &mut [u64], count: usize)
    requires { count ≤ length work.old }
    ensures { work.new ≡ zeroed count work.old }
{
    work[..count].fill(0);
}

pub fn zero_bytes(plan: &mut [u8], count: usize)
    requires { count ≤ length plan.old }
    ensures { plan.new ≡ zeroed count plan.old }
{
    plan[..count].fill(0);
}
