// A byte with a bit for each move.
ghost use Rattle.std.specs.Prelude.{◌≡◌, ◌/◌, ◌%◌, eqb};
ghost use Rattle.search.specs.Bits.{bit_of, with_move};

// The bit of a move. `has_move` and `with_move` ask nothing of the number, so that it is no shift.
fn bit_of(number: usize) -> u8
    ensures { result ≡ bit_of number }
{
    match number {
        0 => 1,
        1 => 2,
        2 => 4,
        _ => 8,
    }
}

// Whether a move's bit is set.
pub fn has_move(byte: u8, number: usize) -> bool
    ensures { result ≡ eqb (byte / bit_of number % 2) 1 }
{
    byte & bit_of(number) != 0
}

// The byte with a move's bit set.
pub fn with_move(byte: u8, number: usize) -> u8
    ensures { result ≡ with_move byte number }
{
    byte | bit_of(number)
}
