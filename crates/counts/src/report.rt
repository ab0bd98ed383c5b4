// Adding a plan's counts to a report.
ghost use Rattle.std.specs.Prelude.{◌≡◌, ℕ, ◌+◌, ◌<◌, ◌≤◌, ◌^◌, length, get_or};
ghost use Rattle.job.specs.Refusals.{read_of};
ghost use Rattle.counts.specs.Reports.{none_over, room_in};
ghost use Rattle.counts.specs.Structs.{plus, over_at, left_of};

use crate::moves::{COUNTS, KINDS};
use job::refusal::{Refusal, Refused};

// The first count that would pass 2^64 - 1.
fn first_over(report: &[u64], counts: &[usize; 48]) -> Option<usize>
    requires { 48 ≤ length report.now }
    ensures { none_over (plus report.now counts.now) 0 48 ≡ over_at result }
{
    report
        .iter()
        .zip(counts)
        .position(|(sum, count)| u64::MAX - *sum < *count as u64)
}

fn add_all(report: &mut [u64], counts: &[usize; 48])
    requires { (48 ≤ length report.old) × (length counts.now ≡ 48) × ((i : ℕ) → i < 48 → get_or report.old i 0 + get_or counts.now i 0 < 2 ^ 64) }
    ensures { report.new ≡ plus report.old counts.now }
{
    for (i, count) in counts.iter().enumerate() {
        report[i] += *count as u64;
    }
}

// Adds a plan's counts, if the report has room for all of them.
pub fn add_counts(report: &mut [u64], counts: &[usize; 48]) -> Result<(), Refused>
    requires { length counts.now ≡ 48 }
    ensures answer { read_of result ≡ room_in report.old (plus report.old counts.now) }
    ensures report { report.new ≡ left_of report.old (plus report.old counts.now)
        (room_in report.old (plus report.old counts.now)) }
{
    if report.len() < COUNTS {
        return Err(Refusal::Report.at(8));
    }
    if let Some(over) = first_over(report, counts) {
        return Err(Refusal::Report.at(over / KINDS));
    }
    add_all(report, counts);
    Ok(())
}
