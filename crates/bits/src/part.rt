// The part of a field that lies in one byte.
ghost use Rattle.std.specs.Prelude.{◌≡◌, ◌+◌, ◌-◌, ◌*◌, ◌^◌, ◌/◌, ◌%◌, ◌<◌, ◌≤◌};
ghost use Rattle.bits.specs.Bits.{field_bits, field};
ghost use Rattle.bits.specs.Puts.{put_bits};

// The `count` bits of a byte after its first `skip`.
pub fn part_of(byte: u8, skip: usize, count: usize) -> usize
    requires { skip + count ≤ 8 }
    ensures { result ≡ field (field_bits 8 byte) skip count }
{
    (usize::from(byte) >> (8 - skip - count)) % (1 << count)
}

// A number with `count` bits more after its own.
pub fn joined(value: usize, count: usize, part: usize) -> usize
    requires { (count ≤ 8) × ((value + 1) * 2 ^ count ≤ 2 ^ 64) × (part < 2 ^ count) }
    ensures { result ≡ value * 2 ^ count + part }
{
    (value << count) + part
}

// Puts the lowest `count` bits of a number, all in one byte.
pub fn put_part(buf: &mut [u8], at: usize, count: usize, value: usize)
    requires { at % 8 + count ≤ 8 }
    ensures { buf.new ≡ put_bits buf.old at (field_bits count value) }
{
    let index = at / 8;
    let skip = at % 8;
    if count == 0 {
        return;
    }
    if index < buf.len() {
        buf[index] = in_byte(buf[index], skip, count, value);
    }
}

// A byte whose first `skip` bits stay, then the lowest `count` bits of a number, then zero bits.
pub fn in_byte(byte: u8, skip: usize, count: usize, value: usize) -> u8
    requires { skip + count ≤ 8 }
    ensures { result ≡ byte / 2 ^ (8 - skip) * 2 ^ (8 - skip) + value % 2 ^ count * 2 ^ (8 - skip - count) }
{
    let kept = usize::from(byte) >> (8 - skip);
    let part = value % (1 << count);
    (((kept << count) + part) << (8 - skip - count)) as u8
}
