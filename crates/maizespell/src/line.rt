// The line for a job's bytes, put into a slice that the caller lends.
ghost use Rattle.std.specs.Prelude.{◌≡◌, ◌≤◌, length, take};
ghost use Rattle.lines.specs.Written.{Written};
ghost use Rattle.maizespell.specs.Line.{routed_line, good_line, line_of};

use lines::{put_hex_line, put_refused_line, put_too_large};
use reader::layers::largest_least;
use reader::whole::read_job;
use router::routing_call::maizespell_routing;

// A job that is routed has no more vertices.
const MOST_VERTICES: usize = 256;

// The plan, or a refusal of routing.
fn routed_line(bytes: &[u8], line: &mut [u8]) -> usize
    requires { 196609 ≤ length line.old }
    ensures { Written line.old line.new result (routed_line bytes.now) }
{
    let mut map = [0u16; 256];
    let mut work = [0u64; 8192];
    let mut plan = [0u8; 65536];
    let routed = maizespell_routing(bytes, &mut map, &mut work, &mut plan);
    if routed.refusal != 0 {
        return put_refused_line(line, routed.refusal, routed.place);
    }
    put_hex_line(line, &plan[..routed.bytes])
}

// A good job is routed if it has at most 256 vertices and no M above 7.
fn good_line(bytes: &[u8], line: &mut [u8], vertices: usize, largest: usize) -> usize
    requires { 196609 ≤ length line.old }
    ensures { Written line.old line.new result (good_line bytes.now vertices largest) }
{
    if MOST_VERTICES < vertices {
        return put_too_large(line);
    }
    if 7 < largest {
        return put_too_large(line);
    }
    routed_line(bytes, line)
}

// A job of any bytes. The second promise is what lending the line's bytes asks.
pub fn line_of(bytes: &[u8], line: &mut [u8]) -> usize
    requires { 196609 ≤ length line.old }
    ensures line { Written line.old line.new result (line_of bytes.now) }
    ensures counts { (result ≤ length line.new) × (result ≡ length (take result line.new)) }
{
    if 65536 < bytes.len() {
        return put_too_large(line);
    }
    let mut occupants = [0; 16384];
    match read_job(bytes, &mut occupants) {
        Ok(read) => good_line(
            bytes,
            line,
            read.head.grid.vertices(),
            largest_least(read.layers),
        ),
        Err(refused) => put_refused_line(line, refused.refusal.number(), refused.place),
    }
}
