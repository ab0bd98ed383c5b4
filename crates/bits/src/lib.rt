// Fields of bits in bytes, most significant bit first. A cursor holds a bit position and moves on by the
// field's width; a field is read or appended a byte at a time.
#![tactic(auto)]

ghost use Rattle.std.specs.Prelude.{◌≡◌, ◌+◌, ◌-◌, ◌^◌, ◌<◌};
ghost use Rattle.bits.specs.Bits.{bits_of, field_bits, field, whole};
ghost use Rattle.bits.specs.Puts.{put_bits};
ghost use Rattle.bits.specs.Cursors.{Fitting, Room, field_read};

pub mod part;

use part::{joined, part_of, put_part};

// A bit position in bytes.
#[derive(Clone, Copy)]
pub struct Cursor {
    pub at: usize,
}

// A field that was read, and the cursor past it.
#[derive(Clone, Copy)]
pub struct FieldRead {
    pub value: usize,
    pub next: Cursor,
}

impl Cursor {
    // Whether the bytes hold `width` bits more.
    pub fn whole(self, s: &[u8], width: usize) -> bool
        requires { self.at + width < 2 ^ 63 }
        ensures { result ≡ whole (bits_of s.now) self.at width }
    {
        (self.at + width + 7) / 8 <= s.len()
    }

    // The number in the next `width` bits.
    pub fn field(self, s: &[u8], width: usize) -> FieldRead
        requires { Room s.now self.at width }
        ensures { result ≡ field_read s.now self.at width }
    {
        let end = self.at + width;
        let mut value: usize = 0;
        let mut skip = self.at % 8;
        let mut left = width;
        for index in self.at / 8..(end + 7) / 8 {
            let count = left.min(8 - skip);
            value = joined(value, count, part_of(s[index], skip, count));
            left -= count;
            skip = 0;
        }
        FieldRead {
            value,
            next: Cursor { at: end },
        }
    }

    // Puts a number's lowest `width` bits; what does not fit the slice is put nowhere.
    pub fn put(self, buf: &mut [u8], width: usize, value: usize) -> Cursor
        requires { Fitting self.at width }
        ensures { (result.at ≡ self.at + width) × (buf.new ≡ put_bits buf.old self.at (field_bits width value)) }
    {
        let end = self.at + width;
        for index in self.at / 8..(end + 7) / 8 {
            let from = self.at.max(8 * index);
            let to = end.min(8 * index + 8);
            put_part(buf, from, to - from, value >> (end - to));
        }
        Cursor { at: end }
    }
}
