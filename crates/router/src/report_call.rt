// The wire report: replay, and where it accepts, the plan's counts added to a report.
ghost use Rattle.std.specs.Prelude.{◌≡◌};
ghost use Rattle.router.specs.Held.{replay_answer, report_leaves};
ghost use Rattle.router.specs.Report.{report_of, CountsPayIn};

use crate::replay_call::{ReplayResult, replay_counted};
use counts::report::add_counts;
use job::refusal::Refused;
use rules::totals::Totals;

// The counts of a plan that replay accepts are added: all, or none where the report has no room.
fn report_counted(
    bytes: &[u8],
    plan: &[u8],
    map: &mut [u16],
    work: &mut [u64],
    report: &mut [u64],
) -> Result<Totals, Refused>
    ensures { report_leaves (replay_answer result) map.new work.new report.new
        ≡ report_of bytes.now plan.now map.old work.old report.old }
{
    let mut counts: [usize; 48] = [0; 48];
    let replayed = replay_counted(bytes, plan, map, work, &mut counts);
    let totals = replayed?;
    add_counts(report, &counts)?;
    Ok(totals)
}

pub fn maizespell_report(
    bytes: &[u8],
    plan: &[u8],
    map: &mut [u16],
    work: &mut [u64],
    report: &mut [u64],
) -> ReplayResult
    ensures result { result ≡ (report_of bytes.now plan.now map.old work.old report.old).result }
    ensures map { map.new ≡ (report_of bytes.now plan.now map.old work.old report.old).map }
    ensures work { work.new ≡ (report_of bytes.now plan.now map.old work.old report.old).work }
    ensures report { report.new ≡ (report_of bytes.now plan.now map.old work.old report.old).report }
    ensures pays { CountsPayIn bytes.now plan.now map.old work.old result }
{
    ReplayResult::from(report_counted(bytes, plan, map, work, report))
}
