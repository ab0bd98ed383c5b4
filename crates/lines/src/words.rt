// Text and decimal numbers. No `write!`: its result may be an error, and a line promises that it is there.
// The slice and the index stay two parameters: a struct with the lent slice in it would have to say in each
// contract that it still holds that one.
ghost use Rattle.std.specs.Prelude.{◌+◌, ◌≤◌, length};
ghost use Rattle.lines.specs.Lines.{decimal};
ghost use Rattle.lines.specs.Puts.{PutAt};

use itoa::Buffer;

// Puts text, and answers the index past it.
pub fn put_text(line: &mut [u8], at: usize, text: &[u8]) -> usize
    requires { at + length text.now ≤ length line.old }
    ensures { PutAt line.old line.new at result text.now }
{
    let next = at + text.len();
    line[at..next].copy_from_slice(text);
    next
}

// Puts a number's decimal digits, and answers the index past them.
pub fn put_decimal(line: &mut [u8], at: usize, number: usize) -> usize
    requires { at + length (decimal number) ≤ length line.old }
    ensures { PutAt line.old line.new at result (decimal number) }
{
    let mut digits = Buffer::new();
    put_text(line, at, digits.format(number).as_bytes())
}
