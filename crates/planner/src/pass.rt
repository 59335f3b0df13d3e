// The pass at the fastest pace: it decides whether there is an allowed plan, before a row is
// written. Times are kept multiplied by Q, so they are whole.
ghost use Rattle.std.specs.Prelude.{◌≡◌, ◌+◌, ◌*◌, ◌^◌, ◌<◌, ◌≤◌, max};
ghost use Rattle.rules.specs.Offsets.{pace_of};
ghost use Rattle.planner.specs.Inside.{PassEnds, reports_in};

use crate::list::FairList;
use rules::{Report, Roll};

// Q times the finish of a report, from Q times the finish of the one before.
fn finish(report: Report, terms: Roll, before: u64) -> u64
    requires { (report.operations ≤ 65535) × (terms.p ≤ 65535) × (terms.q ≤ 65535) × (before < 2 ^ 63) }
    ensures { result ≡ max (terms.q * report.arrival) before + report.operations * terms.p }
{
    let arrived = u64::from(terms.q) * u64::from(report.arrival);
    let work = u64::from(report.operations) * u64::from(terms.p);
    arrived.max(before) + work
}

// Q times a report's deadline.
fn due(report: Report, terms: Roll) -> u64
    ensures { result ≡ terms.q * report.deadline }
{
    u64::from(terms.q) * u64::from(report.deadline)
}

// The first report without a plan, or none where there is a plan for all.
pub fn first_without(fair: FairList<'_>) -> Option<usize>
    ensures { PassEnds (reports_in fair.entry.list) (pace_of fair.entry.list.terms) result }
{
    let mut done: u64 = 0;
    for i in 0..fair.list.arrivals.len() {
        let report = fair.report(i);
        done = finish(report, fair.list.terms, done);
        if due(report, fair.list.terms) < done {
            return Some(i);
        }
    }
    None
}
