// The program's line, put into a slice that the caller lends: a plan in hexadecimal, a refusal, or `too
// large`. Each function answers how many bytes it has put. The definitions are in specs/Lines.antt.
#![tactic(auto)]

ghost use Rattle.std.specs.Prelude.{◌+◌, ◌*◌, ◌≤◌, length};
ghost use Rattle.lines.specs.Lines.{hex_line, refused_line, too_large_line};
ghost use Rattle.lines.specs.Written.{Written};

mod hexadecimal;
mod words;

use hexadecimal::{put_byte, put_more};
use words::{put_decimal, put_text};

// Bytes in hexadecimal.
pub fn put_hex_line(line: &mut [u8], bytes: &[u8]) -> usize
    requires { 3 * length bytes.now + 1 ≤ length line.old }
    ensures { Written line.old line.new result (hex_line bytes.now) }
{
    match bytes {
        [] => put_text(line, 0, b"\n"),
        [first, more @ ..] => {
            put_byte(line, 0, *first);
            put_more(line, 2, more)
        }
    }
}

// `refused N at P`: at most 53 bytes, since a number that fits a word has at most twenty digits.
#[tactic(auto, using(crate::proofs::Decimals::length_word))]
pub fn put_refused_line(line: &mut [u8], number: usize, place: usize) -> usize
    requires { 53 ≤ length line.old }
    ensures { Written line.old line.new result (refused_line number place) }
{
    let at = put_text(line, 0, b"refused ");
    let at = put_decimal(line, at, number);
    let at = put_text(line, at, b" at ");
    let at = put_decimal(line, at, place);
    put_text(line, at, b"\n")
}

// `too large`.
pub fn put_too_large(line: &mut [u8]) -> usize
    requires { 10 ≤ length line.old }
    ensures { Written line.old line.new result too_large_line }
{
    put_text(line, 0, b"too large\n")
}
