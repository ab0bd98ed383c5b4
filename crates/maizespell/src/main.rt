// The program: reads a job from standard input and writes one line. It only reads and writes; all that
// decides is in `line_of`. One byte more than a job may have is read, so that a longer job is seen to be too
// long. It takes no arguments. What went wrong is told on standard error, and the exit status is 0.
#![tactic(auto)]

mod input;
mod line;

use input::read_full;
use line::line_of;
use std::env::{Env, FillError};
use std::io;
use std::io::Write;

// Whether the program was called with an argument.
fn has_argument<R: Env>(rt: &R) -> bool {
    let mut first = [0u8; 1];
    !matches!(rt.arg(1, &mut first), Err(FillError::NotPresent))
}

// The line of the job on standard input, written whole or not.
fn write_line(rt: &HostRuntime) -> io::Result<()> {
    let mut bytes = [0u8; 65537];
    let count = read_full(&mut rt.reader(), &mut bytes);
    let mut line = [0u8; 196609];
    let put = line_of(&bytes[..count], &mut line);
    rt.stdout().write_all(&line[..put])
}

// What went wrong; where that cannot be told either, nothing is left to do.
fn tell(rt: &HostRuntime, text: &[u8]) {
    let _ = rt.stderr().write_all(text);
}

fn main(rt: HostRuntime) {
    if has_argument(&rt) {
        tell(
            &rt,
            b"maizespell: takes no arguments, and a job on standard input: maizespell < JOB\n",
        );
        return;
    }
    if write_line(&rt).is_err() {
        tell(
            &rt,
            b"maizespell: the line could not be written to standard output\n",
        );
    }
}
