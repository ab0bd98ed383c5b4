// The library as C sees it: each call is the one of `router`, with the same clauses.
#![tactic(auto)]

ghost use Rattle.std.specs.Prelude.{◌≡◌, take, ◌↔◌};
ghost use Rattle.router.specs.Sizing.{sizing_of};
ghost use Rattle.job.specs.Job.{Job};
ghost use Rattle.job.specs.Reading.{good, read_job};
ghost use Rattle.plan.specs.Claim.{Cheapest, ByTies};
ghost use Rattle.router.specs.Routing.{routing_of};
ghost use Rattle.router.specs.Replay.{replay_of, Accepts};
ghost use Rattle.router.specs.Report.{report_of, CountsPayIn};

use router::replay_call::ReplayResult;
use router::routing_call::RoutingResult;
use router::sizing::SizingResult;

#[unsafe(no_mangle)]
pub extern "C" fn maizespell_sizing(bytes: &[u8]) -> SizingResult
    ensures { result ≡ sizing_of bytes.now }
{
    router::sizing::maizespell_sizing(bytes)
}

#[unsafe(no_mangle)]
pub extern "C" fn maizespell_routing(
    bytes: &[u8],
    map: &mut [u16],
    work: &mut [u64],
    plan: &mut [u8],
) -> RoutingResult
    ensures result { result ≡ (routing_of bytes.now map.old work.old plan.old).result }
    ensures map { map.new ≡ (routing_of bytes.now map.old work.old plan.old).map }
    ensures work { work.new ≡ (routing_of bytes.now map.old work.old plan.old).work }
    ensures plan { plan.new ≡ (routing_of bytes.now map.old work.old plan.old).plan }
    ensures cheapest { result.refusal ≡ 0
        → (j : Job) × (read_job bytes.now ≡ good j) × Cheapest j (take result.bytes plan.new) }
    ensures ties { result.refusal ≡ 0
        → (j : Job) × (read_job bytes.now ≡ good j) × ByTies j (take result.bytes plan.new) }
{
    router::routing_call::maizespell_routing(bytes, map, work, plan)
}

#[unsafe(no_mangle)]
pub extern "C" fn maizespell_replay(
    bytes: &[u8],
    plan: &[u8],
    map: &mut [u16],
    work: &mut [u64],
) -> ReplayResult
    ensures result { result ≡ (replay_of bytes.now plan.now map.old work.old).result }
    ensures map { map.new ≡ (replay_of bytes.now plan.now map.old work.old).map }
    ensures work { work.new ≡ (replay_of bytes.now plan.now map.old work.old).work }
    ensures accepts { (result.refusal ≡ 0) ↔ Accepts bytes.now plan.now map.old work.old }
{
    router::replay_call::maizespell_replay(bytes, plan, map, work)
}

#[unsafe(no_mangle)]
pub extern "C" fn maizespell_report(
    bytes: &[u8],
    plan: &[u8],
    map: &mut [u16],
    work: &mut [u64],
    report: &mut [u64],
) -> ReplayResult
    ensures result { result ≡ (report_of bytes.now plan.now map.old work.old report.old).result }
    ensures map { map.new ≡ (report_of bytes.now plan.now map.old work.old report.old).map }
    ensures work { work.new ≡ (report_of bytes.now plan.now map.old work.old report.old).work }
    ensures report { report.new ≡ (report_of bytes.now plan.now map.old work.old report.old).report }
    ensures pays { CountsPayIn bytes.now plan.now map.old work.old result }
{
    router::report_call::maizespell_report(bytes, plan, map, work, report)
}
