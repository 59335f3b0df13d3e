// What is left once the whole list is in order: the rules of its reports, on offsets, and the plan.
ghost use Rattle.std.specs.Prelude.{◌*◌, ◌≤◌, [], ◌∷◌, length};
ghost use Rattle.answers.specs.Numbers.{width};
ghost use Rattle.rules.specs.Offsets.{pace_of};
ghost use Rattle.rules.specs.Rules.{plan_rule, report_rules};
ghost use Rattle.rules.specs.Leaves.{Paced, Sized};
ghost use Rattle.planner.specs.Inside.{Settles, offsets_in, reports_in};

use crate::list::FairList;
use crate::{blocks, forms, pass, readings};
use answers::{Answer, Fault};
use rules::{ReportList, Roll};
use trials::refuse_at;

// Rule 9, decided before the first row is written, and the rows.
fn plan_fair(fair: FairList<'_>, rows: &mut [u32]) -> Answer
    requires { width * length fair.list.arrivals.now ≤ length rows.old }
    ensures { Settles (plan_rule (reports_in fair.entry.list) (pace_of fair.entry.list.terms) ∷ []) (reports_in fair.entry.list) fair.entry.list.terms rows.old result rows.new }
{
    refuse_at(pass::first_without(fair), Fault::NoPlan)?;
    Ok(blocks::blocks(fair, rows))
}

// Rules 5 to 9, on offsets, and the rows.
pub fn settle(list: ReportList<'_>, rows: &mut [u32]) -> Answer
    requires sized { Sized list.arrivals.now list.deadlines.now list.operations.now rows.old }
    requires pace { Paced list.terms }
    ensures { Settles (report_rules (reports_in list.entry) (pace_of list.entry.terms)) (reports_in list.entry) list.entry.terms rows.old result rows.new }
{
    forms::form_rules(list)?;
    plan_fair(FairList { list }, rows)
}

// Rules 5 to 9 of a list of readings: their offsets are taken once, and settled. They stand in arrays with
// room for the most reports of a roll, of which the front is used: no heap.
pub fn settle_readings(list: ReportList<'_>, rows: &mut [u32]) -> Answer
    requires sized { Sized list.arrivals.now list.deadlines.now list.operations.now rows.old }
    requires pace { Paced list.terms }
    ensures { Settles (report_rules (offsets_in list.entry) (pace_of list.entry.terms)) (offsets_in list.entry) list.entry.terms rows.old result rows.new }
{
    let n = list.arrivals.len();
    let reference = list.terms.reference;
    let mut from = [0u32; Roll::REPORTS];
    let mut due = [0u32; Roll::REPORTS];
    readings::offsets(list.arrivals, reference, &mut from);
    readings::offsets(list.deadlines, reference, &mut due);
    let offsets = ReportList {
        arrivals: &from[..n],
        deadlines: &due[..n],
        ..list
    };
    settle(offsets, rows)
}
