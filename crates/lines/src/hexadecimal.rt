// Bytes in capital hexadecimal, with a space between two bytes.
ghost use Rattle.std.specs.Prelude.{◌+◌, ◌*◌, ◌≤◌, ◌<◌, ◌≡◌, [], length};
ghost use Rattle.std.proofs.lemmas.List.Edits.{sets};
ghost use Rattle.lines.specs.Lines.{digit, hex_byte, hex_more};
ghost use Rattle.lines.specs.Puts.{PutAt};

// The code of a digit below 16.
pub fn code(value: u8) -> u8
    requires { value < 16 }
    ensures { result ≡ digit value }
{
    if value < 10 {
        b'0' + value
    } else {
        b'A' - 10 + value
    }
}

// Puts a byte's two digits.
pub fn put_byte(line: &mut [u8], at: usize, byte: u8)
    requires { at + 2 ≤ length line.old }
    ensures { line.new ≡ sets line.old at (hex_byte byte []) }
{
    line[at] = code(byte / 16);
    line[at + 1] = code(byte % 16);
}

// Puts bytes, a space before each, and a newline; answers the index past it.
pub fn put_more(line: &mut [u8], at: usize, bytes: &[u8]) -> usize
    requires { at + 3 * length bytes.now < length line.old }
    ensures { PutAt line.old line.new at result (hex_more bytes.now) }
{
    let mut next = at;
    for byte in bytes {
        line[next] = b' ';
        put_byte(line, next + 1, *byte);
        next += 3;
    }
    line[next] = b'\n';
    next + 1
}
